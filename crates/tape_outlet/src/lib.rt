// An outlet that keeps its warnings as octets in the tape format.
#![tactic(auto)]

ghost use Rattle.std.specs.Prelude.{◌≡◌, ◌≤◌, true, length, take};
ghost use Rattle.tape.specs.Format.{encode_all};
ghost use Rattle.tape.specs.Promises.{all_warnings};
ghost use Rattle.tape_outlet.specs.Numbers.{tape_octets};
ghost use Rattle.tape_outlet.specs.Written.{read_as};

use crate::numbers::*;

pub mod calls;
pub mod numbers;

// The memory, and how many octets of it are in use. At all times these are
// the written form of the warnings that they read as.
// Kept: a count beside them, since a vector of fixed capacity does not lend its free octets to write in.
#[derive(Drop)]
pub struct TapeOutlet {
    octets: [u8; TAPE_OCTETS],
    used: usize,
    ghost all: { length octets ≡ tape_octets },
    ghost within: { used ≤ tape_octets },
    ghost right: { all_warnings (read_as (take used octets)) ≡ true },
    ghost written: { encode_all (read_as (take used octets)) ≡ take used octets },
}
