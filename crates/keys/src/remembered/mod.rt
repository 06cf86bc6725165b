// The remembered list: the primaries that were forwarded, with their networks.
ghost use Rattle.std.specs.Prelude.{◌≡◌, ◌≤◌, length, take};
ghost use Rattle.keys.specs.Kinds.{same_network_pair, of_one_network};
ghost use Rattle.keys.specs.Limits.{AtMost};
ghost use Rattle.keys.specs.Numbers.{remembered_capacity, most_of_network};

use crate::Entry;
use crate::kinds::NetworkPair;
use crate::numbers::*;

pub mod calls;

// The first `count` entries are held, the oldest first. No key is held twice, and few of one
// network are.
// Kept: a plain struct with the array of its own kind of key, lent as a slice, is a rule of the project, as for `OpenList`.
#[derive(Drop)]
pub struct RememberedList {
    entries: [Entry<NetworkPair>; REMEMBERED_CAPACITY],
    count: usize,
    ghost sized: { length entries ≡ remembered_capacity },
    ghost within: { count ≤ remembered_capacity },
    ghost apart: { AtMost 1 same_network_pair (take count entries) },
    ghost few: { AtMost most_of_network of_one_network (take count entries) },
}
