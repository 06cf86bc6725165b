// An outlet with a place of its own for each warning.
#![tactic(auto)]

ghost use Rattle.std.specs.Prelude.{◌≡◌, ◌<◌, ◌≤◌, true, length};
ghost use Rattle.warning.specs.Numbers.{most_octets};
ghost use Rattle.warning.specs.Rules.{is_warning};
ghost use Rattle.rack.specs.Numbers.{place_count};

use crate::numbers::*;
use warning::Outline;
use warning::numbers::*;

pub mod calls;
pub mod numbers;

// The place of one warning: its outline, and its octets, the message and then
// the area, or the security information.
#[derive(Clone, Copy)]
pub struct Place {
    outline: Outline,
    octets: [u8; MOST_OCTETS],
    ghost right: { is_warning outline ≡ true },
    ghost long: { length octets ≡ most_octets },
}

// The places, of which those in use follow one another from the oldest
// warning on; after the last place comes the first.
// Kept: a ring by hand, since the library's is on the heap, and a vector moves the places at a take.
#[derive(Drop)]
pub struct Rack {
    places: [Place; PLACES],
    oldest: usize,
    count: usize,
    ghost all: { length places ≡ place_count },
    ghost low: { oldest < place_count },
    ghost few: { count ≤ place_count },
}
