// The open list: the pairs of the open warnings.
ghost use Rattle.std.specs.Prelude.{◌≡◌, ◌≤◌, length, take};
ghost use Rattle.keys.specs.Kinds.{same_pair};
ghost use Rattle.keys.specs.Limits.{AtMost};
ghost use Rattle.keys.specs.Numbers.{open_capacity};

use crate::Entry;
use crate::numbers::*;
use warning::Pair;

pub mod calls;

// The first `count` entries are held, the oldest first. No pair is held twice.
// Kept: a plain struct with the array of its own kind of key, lent as a slice, is a rule of the project; an `ArrayVec` lends no free place.
#[derive(Drop)]
pub struct OpenList {
    entries: [Entry<Pair>; OPEN_CAPACITY],
    count: usize,
    ghost sized: { length entries ≡ open_capacity },
    ghost within: { count ≤ open_capacity },
    ghost apart: { AtMost 1 same_pair (take count entries) },
}

// Why a pair is not stored.
#[derive(Clone, Copy, PartialEq, Eq, Debug)]
pub enum StoreFault {
    // it is in the list already
    Known,
    // all places are taken
    Full,
}
