// Outlet calls as lines of text, and their answers.
use outlet::{Outlet, OutletFault};
use samples::{AREA_SEED, UNTOUCHED, optional_pattern, pattern, weighted_sum};
use std::alloc::{AllocError, Global};
use std::fmt;
use std::str::SplitWhitespace;
use warning::{Outline, Pair, Refusal, WarningBuf, WarningFault};
use words::PartLength;

// A warning by its outline and the seed of its octets.
#[derive(Clone, Copy)]
pub(crate) struct Sample {
    pub(crate) outline: Outline,
    pub(crate) seed: usize,
}

#[derive(Clone, Copy)]
pub(crate) enum Call {
    Give(Sample),
    // into a buffer of a length
    Take(usize),
    First,
    Free,
    Cost(Outline),
}

// What a line asks for.
#[derive(Clone, Copy)]
pub(crate) enum Request {
    OnRack(Call),
    OnTape(Call),
    TapeOctets,
}

#[derive(Clone, Copy)]
pub(crate) enum Answer {
    Done,
    Count(usize),
    First(Option<Outline>),
    // the outline, and the sum of the buffer after the call
    Taken(Outline, usize),
    // the count of octets, and their sum
    Octets(usize, usize),
}

// Why a call has no answer.
// Kept: in a crate of its own it would have to rest on the stores and the outlets.
#[derive(Drop)]
pub(crate) enum CallError {
    Refused(Refusal),
    Memory(AllocError),
}

impl From<OutletFault> for CallError {
    fn from(fault: OutletFault) -> CallError {
        CallError::Refused(fault.into())
    }
}

impl From<WarningFault> for CallError {
    fn from(fault: WarningFault) -> CallError {
        CallError::Refused(fault.into())
    }
}

impl From<AllocError> for CallError {
    fn from(error: AllocError) -> CallError {
        CallError::Memory(error)
    }
}

// An outline as the words of a give.
#[derive(Clone, Copy)]
struct Shown(Outline);

impl fmt::Display for Shown {
    fn fmt<W: fmt::Write>(&self, f: &mut fmt::Formatter<W>) -> fmt::Result {
        match self.0 {
            Outline::Primary {
                pair: Pair { identifier, serial },
                warning_type,
                security,
            } => {
                let security = PartLength(security);
                write!(f, "primary {identifier} {serial} {warning_type} {security}")
            }
            Outline::Message {
                block,
                pair: Pair { identifier, serial },
                coding,
                message,
                area,
            } => {
                let area = PartLength(area);
                write!(
                    f,
                    "message {block} {identifier} {serial} {coding} {message} {area}"
                )
            }
        }
    }
}

impl fmt::Display for Answer {
    fn fmt<W: fmt::Write>(&self, f: &mut fmt::Formatter<W>) -> fmt::Result {
        match self {
            Answer::Done => write!(f, "ok"),
            Answer::Count(count) => write!(f, "ok {count}"),
            Answer::First(None) => write!(f, "ok -"),
            Answer::First(Some(outline)) => write!(f, "ok {}", Shown(*outline)),
            Answer::Taken(outline, sum) => write!(f, "ok {} {sum}", Shown(*outline)),
            Answer::Octets(count, sum) => write!(f, "ok {count} {sum}"),
        }
    }
}

fn read_pair(words: &mut SplitWhitespace<'_>) -> Option<Pair> {
    let identifier = words.next()?.parse().ok()?;
    let serial = words.next()?.parse().ok()?;
    Some(Pair { identifier, serial })
}

// The length of a part that may be absent.
fn read_part(words: &mut SplitWhitespace<'_>) -> Option<Option<usize>> {
    let PartLength(length) = words.next()?.parse().ok()?;
    Some(length)
}

fn read_outline(words: &mut SplitWhitespace<'_>) -> Option<Outline> {
    match words.next()? {
        "primary" => Some(Outline::Primary {
            pair: read_pair(words)?,
            warning_type: words.next()?.parse().ok()?,
            security: read_part(words)?,
        }),
        "message" => Some(Outline::Message {
            block: words.next()?.parse().ok()?,
            pair: read_pair(words)?,
            coding: words.next()?.parse().ok()?,
            message: words.next()?.parse().ok()?,
            area: read_part(words)?,
        }),
        _ => None,
    }
}

// The warning of a give: all of its outline, and a seed.
fn read_sample(words: &mut SplitWhitespace<'_>) -> Option<Sample> {
    let outline = read_outline(words)?;
    let seed = words.next()?.parse().ok()?;
    Some(Sample { outline, seed })
}

// The outline of a cost question: block and lengths are given, the rest is 0.
fn read_shape(words: &mut SplitWhitespace<'_>) -> Option<Outline> {
    let pair = Pair {
        identifier: 0,
        serial: 0,
    };
    match words.next()? {
        "primary" => Some(Outline::Primary {
            pair,
            warning_type: 0,
            security: read_part(words)?,
        }),
        "message" => Some(Outline::Message {
            block: words.next()?.parse().ok()?,
            pair,
            coding: 0,
            message: words.next()?.parse().ok()?,
            area: read_part(words)?,
        }),
        _ => None,
    }
}

// The call of a name, with what the words after it give.
fn read_call(name: &str, words: &mut SplitWhitespace<'_>) -> Option<Call> {
    match name {
        "give" => Some(Call::Give(read_sample(words)?)),
        "take" => Some(Call::Take(words.next()?.parse().ok()?)),
        "first" => Some(Call::First),
        "free" => Some(Call::Free),
        "cost" => Some(Call::Cost(read_shape(words)?)),
        _ => None,
    }
}

// What a line asks for, if it is well formed.
pub(crate) fn read_request(line: &str) -> Option<Request> {
    let mut words = line.split_whitespace();
    let outlet = words.next()?;
    let name = words.next()?;
    let request = match (outlet, name) {
        ("tape", "octets") => Request::TapeOctets,
        ("rack", _) => Request::OnRack(read_call(name, &mut words)?),
        ("tape", _) => Request::OnTape(read_call(name, &mut words)?),
        _ => return None,
    };
    words.next().is_none().then_some(request)
}

// The warning of a sample, with its octets.
fn make(heap: Global, sample: Sample) -> Result<WarningBuf, AllocError> {
    let seed = sample.seed % 256;
    match sample.outline {
        Outline::Primary {
            pair,
            warning_type,
            security,
        } => Ok(WarningBuf::Primary {
            pair,
            warning_type,
            security: optional_pattern(heap, seed, security)?,
        }),
        Outline::Message {
            block,
            pair,
            coding,
            message,
            area,
        } => Ok(WarningBuf::Message {
            block,
            pair,
            coding,
            message: pattern(heap, seed, message)?,
            area: optional_pattern(heap, seed + AREA_SEED, area)?,
        }),
    }
}

// Takes into a buffer of a length.
fn take<O: Outlet>(heap: Global, outlet: &mut O, length: usize) -> Result<Answer, CallError> {
    let mut buffer = vec![in heap; UNTOUCHED; length]?;
    let outline = outlet.take(buffer.as_mut_slice())?;
    Ok(Answer::Taken(outline, weighted_sum(buffer.as_slice())))
}

// Makes a call on an outlet.
pub(crate) fn perform<O: Outlet>(
    heap: Global,
    outlet: &mut O,
    call: Call,
) -> Result<Answer, CallError> {
    match call {
        Call::Give(sample) => {
            let warning = make(heap, sample)?;
            outlet.give(warning.as_warning())?;
            Ok(Answer::Done)
        }
        Call::Take(length) => take(heap, outlet, length),
        Call::First => Ok(Answer::First(outlet.first())),
        Call::Free => Ok(Answer::Count(outlet.free())),
        Call::Cost(outline) => Ok(Answer::Count(outlet.cost(outline)?)),
    }
}

// The answer about octets that are lent.
pub(crate) fn octets_answer(octets: &[u8]) -> Answer {
    Answer::Octets(octets.len(), weighted_sum(octets))
}
