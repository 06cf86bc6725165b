// Trials: what any store would answer, after which it is as it was.
ghost use Rattle.std.specs.Prelude.{◌≡◌};
ghost use Rattle.store.specs.Meaning.{content, units, without_slot};
ghost use Rattle.store.specs.Trials.{two_outcome, Empty};

use crate::{Place, Segment, Store, StoreFault};

fn put_two<S: Store>(
    store: &mut S,
    slot: usize,
    first: Segment<&[u8]>,
    second: Segment<&[u8]>,
) -> Result<(), StoreFault>
    ensures value { result ≡ two_outcome (S.shape store.old) (S.held store.old) slot (content first.entry) (content second.entry) }
    ensures rest { without_slot (S.held store.new) slot ≡ without_slot (S.held store.old) slot }
    ensures same { S.shape store.new ≡ S.shape store.old }
{
    store.put(Place { slot, number: 0 }, first)?;
    store.put(Place { slot, number: 1 }, second)
}

// Tries whether a slot that holds nothing takes two segments, and drops them.
// The store is then as it was.
pub fn try_two<S: Store>(
    store: &mut S,
    slot: usize,
    first: Segment<&[u8]>,
    second: Segment<&[u8]>,
) -> Result<(), StoreFault>
    ensures value { result ≡ two_outcome (S.shape store.old) (S.held store.old) slot (content first.entry) (content second.entry) }
    ensures back { Empty (S.held store.old) slot → S.held store.new ≡ S.held store.old }
    ensures units { Empty (S.held store.old) slot → units (S.shape store.new) (S.held store.new) ≡ units (S.shape store.old) (S.held store.old) }
    ensures same { S.shape store.new ≡ S.shape store.old }
{
    let outcome = put_two(store, slot, first, second);
    let _ = store.drop_slot(slot);
    outcome
}
