// Segments that are held.
ghost use Rattle.std.specs.Prelude.{◌≤◌};
ghost use Rattle.store.specs.Meaning.{count_of};
ghost use Rattle.store.specs.Numbers.{most_octets};

use crate::blocks::Link;
use store::Lengths;

// A segment that is held: its lengths, and the first block of its chain.
#[derive(Clone, Copy)]
pub(crate) struct Stored {
    pub(crate) lengths: Lengths,
    pub(crate) first: Link,
    ghost short: { count_of lengths ≤ most_octets },
}
