// Store calls as lines of text, and their answers.
use samples::{AREA_SEED, UNTOUCHED, optional_pattern, pattern, weighted_sum};
use std::alloc::{AllocError, Global};
use std::fmt;
use std::str::SplitWhitespace;
use store::{Lengths, Place, Segment, Store, StoreFault};
use warning::Refusal;
use words::PartLength;

// A segment by its lengths and the seed of its octets.
#[derive(Clone, Copy)]
pub(crate) struct Sample {
    pub(crate) lengths: Lengths,
    pub(crate) seed: usize,
}

#[derive(Clone, Copy)]
pub(crate) enum Call {
    Put(Place, Sample),
    DropSlot(usize),
    DropAll,
    Slots,
    Total,
    // of a count of octets
    Cost(usize),
    UnitsHeld,
    UnitsOf(usize),
    IsHeld(Place),
    Lengths(Place),
    Equals(Place, Sample),
    // into memory of a length
    CopyOut(Place, usize),
}

#[derive(Clone, Copy)]
pub(crate) enum Answer {
    Done,
    Count(usize),
    Truth(bool),
    Lengths(Lengths),
}

// Why a call has no answer.
// Kept: in a crate of its own it would have to rest on the stores and the outlets.
#[derive(Drop)]
pub(crate) enum CallError {
    Refused(Refusal),
    Memory(AllocError),
}

impl From<StoreFault> for CallError {
    fn from(fault: StoreFault) -> CallError {
        CallError::Refused(fault.into())
    }
}

impl From<AllocError> for CallError {
    fn from(error: AllocError) -> CallError {
        CallError::Memory(error)
    }
}

impl fmt::Display for Answer {
    fn fmt<W: fmt::Write>(&self, f: &mut fmt::Formatter<W>) -> fmt::Result {
        match self {
            Answer::Done => write!(f, "ok"),
            Answer::Count(count) => write!(f, "ok {count}"),
            Answer::Truth(true) => write!(f, "ok yes"),
            Answer::Truth(false) => write!(f, "ok no"),
            Answer::Lengths(Segment { message, area }) => {
                write!(f, "ok {message} {}", PartLength(*area))
            }
        }
    }
}

fn read_place(words: &mut SplitWhitespace<'_>) -> Option<Place> {
    let slot = words.next()?.parse().ok()?;
    let number = words.next()?.parse().ok()?;
    Some(Place { slot, number })
}

fn read_sample(words: &mut SplitWhitespace<'_>) -> Option<Sample> {
    let message = words.next()?.parse().ok()?;
    let PartLength(area) = words.next()?.parse().ok()?;
    let seed = words.next()?.parse().ok()?;
    let lengths = Segment { message, area };
    Some(Sample { lengths, seed })
}

// The call that the words of a line name, after the name of the store.
pub(crate) fn read_call(words: &mut SplitWhitespace<'_>) -> Option<Call> {
    let call = match words.next()? {
        "put" => Call::Put(read_place(words)?, read_sample(words)?),
        "drop" => Call::DropSlot(words.next()?.parse().ok()?),
        "drop_all" => Call::DropAll,
        "slots" => Call::Slots,
        "total" => Call::Total,
        "cost" => Call::Cost(words.next()?.parse().ok()?),
        "held" => Call::UnitsHeld,
        "held_in" => Call::UnitsOf(words.next()?.parse().ok()?),
        "has" => Call::IsHeld(read_place(words)?),
        "lengths" => Call::Lengths(read_place(words)?),
        "equals" => Call::Equals(read_place(words)?, read_sample(words)?),
        "copy" => Call::CopyOut(read_place(words)?, words.next()?.parse().ok()?),
        _ => return None,
    };
    Some(call)
}

// A segment with its own octets.
type SegmentBuf = Segment<Vec<u8>>;

// The segment of a sample.
fn sampled(heap: Global, sample: Sample) -> Result<SegmentBuf, AllocError> {
    let Sample { lengths, seed } = sample;
    let message = pattern(heap, seed, lengths.message)?;
    let area = optional_pattern(heap, seed % 256 + AREA_SEED, lengths.area)?;
    Ok(Segment { message, area })
}

// The same segment, with borrowed octets.
fn as_segment(segment: &SegmentBuf) -> Segment<&[u8]> {
    Segment {
        message: segment.message.as_slice(),
        area: segment.area.as_deref(),
    }
}

// Copies a segment into memory of a length, and sums the memory up.
fn copied_sum<S: Store>(
    heap: Global,
    store: &S,
    place: Place,
    length: usize,
) -> Result<usize, CallError> {
    let mut memory = vec![in heap; UNTOUCHED; length]?;
    store.copy_out(place, memory.as_mut_slice())?;
    Ok(weighted_sum(memory.as_slice()))
}

// Makes a call on a store.
pub(crate) fn perform<S: Store>(
    heap: Global,
    store: &mut S,
    call: Call,
) -> Result<Answer, CallError> {
    let answer = match call {
        Call::Put(place, sample) => {
            let segment = sampled(heap, sample)?;
            store.put(place, as_segment(&segment))?;
            Answer::Done
        }
        Call::DropSlot(slot) => {
            store.drop_slot(slot)?;
            Answer::Done
        }
        Call::DropAll => {
            store.drop_all();
            Answer::Done
        }
        Call::Slots => Answer::Count(store.slots()),
        Call::Total => Answer::Count(store.total()),
        Call::Cost(octets) => Answer::Count(store.cost(octets)?),
        Call::UnitsHeld => Answer::Count(store.units_held()),
        Call::UnitsOf(slot) => Answer::Count(store.units_of(slot)?),
        Call::IsHeld(place) => Answer::Truth(store.is_held(place)?),
        Call::Lengths(place) => Answer::Lengths(store.lengths(place)?),
        Call::Equals(place, sample) => {
            let segment = sampled(heap, sample)?;
            Answer::Truth(store.equals(place, as_segment(&segment))?)
        }
        Call::CopyOut(place, length) => Answer::Count(copied_sum(heap, store, place, length)?),
    };
    Ok(answer)
}
