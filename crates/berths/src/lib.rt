// A store with a berth of its own for each slot and number.
#![tactic(auto)]

ghost use Rattle.std.specs.Prelude.{◌≡◌, length};
ghost use Rattle.store.specs.Meaning.{Counted};
ghost use Rattle.berths.specs.Numbers.{slot_count, berth_count, one};
ghost use Rattle.berths.specs.Berthed.{held_in};

use crate::berth::Berth;
use crate::numbers::*;

mod berth;
pub mod calls;
pub mod numbers;

// The berths, 64 to a slot, and how many of each slot hold a segment.
#[derive(Drop)]
pub struct Berths {
    berths: [Berth; BERTHS],
    used: [usize; SLOTS],
    ghost all: { length berths ≡ berth_count },
    ghost slots: { length used ≡ slot_count },
    ghost counted: { Counted one (held_in berths) used },
}
