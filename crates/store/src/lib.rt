// A store of segments: its meaning, its laws, its calls and their refusals.
#![tactic(auto)]

ghost use Rattle.std.specs.Prelude.{◌≡◌, ℕ, ◌≤◌, length, is_ok, if◌then◌else◌};
ghost use Rattle.store.specs.Meaning.{Held, Shape, Lawful, Placed, nothing, content, units, with_segment, without_slot};
ghost use Rattle.store.specs.Outcomes.{put_outcome, drop_outcome, cost_outcome, units_outcome, held_outcome, lengths_outcome, equals_outcome, copy_outcome, copied};
ghost use Rattle.store.specs.Refusals.{of_store};

use warning::{Refusal, Values};

pub mod checks;
pub mod numbers;
pub mod segments;
pub mod trial;

// Why a store refuses.
#[derive(Clone, Copy, PartialEq, Eq, Debug)]
pub enum StoreFault {
    // a slot that the store does not have
    NoSlot(usize),
    // a number that no segment has
    NoNumber(u8),
    // the count of octets, which is over the limit
    TooLong(usize),
    // a segment stands there already
    Occupied,
    // no segment stands there
    NotHeld,
    // the units that are needed, and those that are free
    NoUnits { cost: usize, free: usize },
    // the length of a memory that is shorter than the segment
    Memory(usize),
}

impl From<StoreFault> for Refusal {
    ghost from_gives = { λ f r. r ≡ of_store f };

    fn from(fault: StoreFault) -> Refusal {
        let (number, values) = match fault {
            StoreFault::NoSlot(slot) => (4, Values::One(slot)),
            StoreFault::NoNumber(number) => (4, Values::One(usize::from(number))),
            StoreFault::TooLong(count) => (7, Values::One(count)),
            StoreFault::Occupied => (17, Values::Nothing),
            StoreFault::NotHeld => (17, Values::Nothing),
            StoreFault::NoUnits { cost, free } => (11, Values::Two(cost, free)),
            StoreFault::Memory(length) => (1, Values::One(length)),
        };
        Refusal { number, values }
    }
}

// Where a segment is held.
#[derive(Clone, Copy, PartialEq, Eq, Debug)]
pub struct Place {
    pub slot: usize,
    pub number: u8,
}

// A segment: the message, and the area where there is one. Its parts are
// octets that it borrows or owns, or their lengths.
#[derive(Clone, Copy, PartialEq, Eq, Debug, Drop)]
pub struct Segment<T> {
    pub message: T,
    pub area: Option<T>,
}

// A segment without its octets: lengths stand in their place.
pub type Lengths = Segment<usize>;

// Keeps the octets of segments by slot and number.
pub trait Store {
    // The segments held.
    ghost held: { Self → Held };

    // The slots, the units in all and the cost of each count of octets.
    ghost shape: { Self → Shape };

    // Puts a segment where none is held.
    fn put(&mut self, place: Place, segment: Segment<&[u8]>) -> Result<(), StoreFault>
        ensures value { result ≡ put_outcome (shape self.old) (held self.old) place.slot place.number (content segment.entry) }
        ensures after { held self.new ≡ (if is_ok result then with_segment (held self.old) place.slot place.number (content segment.entry) else held self.old) }
        ensures same { shape self.new ≡ shape self.old };

    // Lets go of what a slot holds.
    fn drop_slot(&mut self, slot: usize) -> Result<(), StoreFault>
        ensures value { result ≡ drop_outcome (shape self.old) slot }
        ensures after { held self.new ≡ (if is_ok result then without_slot (held self.old) slot else held self.old) }
        ensures same { shape self.new ≡ shape self.old };

    // Lets go of all that is held.
    fn drop_all(&mut self)
        ensures after { held self.new ≡ nothing }
        ensures same { shape self.new ≡ shape self.old };

    // How many slots there are.
    fn slots(&self) -> usize
        ensures { result ≡ (shape self.now).slots };

    // The units in all.
    fn total(&self) -> usize
        ensures { result ≡ (shape self.now).total };

    // The units that so many octets cost.
    fn cost(&self, octets: usize) -> Result<usize, StoreFault>
        ensures { result ≡ cost_outcome (shape self.now) octets };

    // The units held in all slots.
    fn units_held(&self) -> usize
        ensures { result ≡ units (shape self.now) (held self.now) };

    // The units held in one slot.
    fn units_of(&self, slot: usize) -> Result<usize, StoreFault>
        ensures { result ≡ units_outcome (shape self.now) (held self.now) slot };

    // Whether a segment is held.
    fn is_held(&self, place: Place) -> Result<bool, StoreFault>
        ensures { result ≡ held_outcome (shape self.now) (held self.now) place.slot place.number };

    // The lengths of a segment that is held.
    fn lengths(&self, place: Place) -> Result<Lengths, StoreFault>
        ensures { result ≡ lengths_outcome (shape self.now) (held self.now) place.slot place.number };

    // Whether a segment that is held equals the given one.
    fn equals(&self, place: Place, segment: Segment<&[u8]>) -> Result<bool, StoreFault>
        ensures { result ≡ equals_outcome (shape self.now) (held self.now) place.slot place.number (content segment.entry) };

    // Copies a segment that is held to the start of the memory, the message
    // and then the area. The rest of the memory stays as it was.
    fn copy_out(&self, place: Place, memory: &mut [u8]) -> Result<(), StoreFault>
        ensures value { result ≡ copy_outcome (shape self.now) (held self.now) place.slot place.number (length memory.old) }
        ensures after { memory.new ≡ (if is_ok result then copied (held self.now place.slot place.number) memory.old else memory.old) };

    // The laws, which each type with this trait proves.
    ghost lawful: { (s : Self) → Lawful (shape s) };

    ghost within: { (s : Self) → units (shape s) (held s) ≤ (shape s).total };

    ghost placed: { (s : Self) (slot number : ℕ) → Placed (shape s) slot number (held s slot number) };
}
