// The vocabulary of public warnings: pairs, radios, networks, warnings, and
// the judging of what is no warning, with its refusals.
#![tactic(auto)]

ghost use Rattle.std.specs.Prelude.{◌≡◌, is_ok, Some};
ghost use Rattle.warning.specs.Meaning.{said, owned};
ghost use Rattle.warning.specs.Notice.{outline, with_parts, EachPart};
ghost use Rattle.warning.specs.Rules.{radio_read, carries_message, limit, judged, judged_security, judged_message, is_warning};
ghost use Rattle.warning.specs.Refusals.{of_warning, refusal_text};

pub mod network;
pub mod numbers;

use numbers::*;
use std::fmt;

// What tells warnings apart: the message identifier and the serial number.
#[derive(Clone, Copy, PartialEq, Eq, Debug)]
pub struct Pair {
    pub identifier: u16,
    pub serial: u16,
}

// The kind of cell that broadcasts.
#[derive(Clone, Copy, PartialEq, Eq, Debug)]
pub enum Radio {
    Lte,
    Nr,
}

// An octet that names no radio.
#[derive(Clone, Copy, PartialEq, Eq, Debug)]
pub struct UnknownRadio(pub u8);

impl TryFrom<u8> for Radio {
    type Error = UnknownRadio;

    ghost try_from_gives = { λ octet r. r ≡ radio_read octet };

    fn try_from(octet: u8) -> Result<Radio, UnknownRadio> {
        match octet {
            RADIO_LTE => Ok(Radio::Lte),
            RADIO_NR => Ok(Radio::Nr),
            _ => Err(UnknownRadio(octet)),
        }
    }
}

// A warning: either a primary or a message. Its parts are octets that it
// borrows or owns, or their lengths.
// Kept: a block is a number, since one that carries no message is refused with its value.
#[derive(Clone, Copy, PartialEq, Eq, Debug, Drop)]
pub enum Warning<T> {
    Primary {
        pair: Pair,
        warning_type: u16,
        security: Option<T>,
    },
    Message {
        block: u8,
        pair: Pair,
        coding: u8,
        message: T,
        area: Option<T>,
    },
}

// A warning without its octets: lengths stand in their place.
pub type Outline = Warning<usize>;

// A warning with its own octets, as it is read from a tape.
pub type WarningBuf = Warning<Vec<u8>>;

// Why something is no warning.
#[derive(Clone, Copy, PartialEq, Eq, Debug)]
pub enum WarningFault {
    // a block that carries no message
    Block(u8),
    // an area in a block that has none
    Area,
    // the count of octets, which is over the limit
    TooLong(usize),
    // the length of security information of a wrong length
    Security(usize),
}

// What a refusal tells: its number, and the values that come with it.
// Kept: the number is that of the rules, which a host is told; the kinds are the faults.
#[derive(Clone, Copy, PartialEq, Eq, Debug)]
pub struct Refusal {
    pub number: u8,
    pub values: Values,
}

#[derive(Clone, Copy, PartialEq, Eq, Debug)]
pub enum Values {
    Nothing,
    One(usize),
    Two(usize, usize),
}

impl fmt::Display for Refusal {
    ghost output = { λ r. Some (refusal_text r) };

    fn fmt<W: fmt::Write>(&self, f: &mut fmt::Formatter<W>) -> fmt::Result {
        let number = self.number;
        match self.values {
            Values::Nothing => write!(f, "refused {number}"),
            Values::One(first) => write!(f, "refused {number} {first}"),
            Values::Two(first, second) => write!(f, "refused {number} {first} {second}"),
        }
    }
}

impl From<WarningFault> for Refusal {
    ghost from_gives = { λ f r. r ≡ of_warning f };

    fn from(fault: WarningFault) -> Refusal {
        let (number, values) = match fault {
            WarningFault::Block(block) => (3, Values::One(usize::from(block))),
            WarningFault::Area => (6, Values::Nothing),
            WarningFault::TooLong(count) => (7, Values::One(count)),
            WarningFault::Security(length) => (15, Values::One(length)),
        };
        Refusal { number, values }
    }
}

// Whether the warnings of a block are messages.
pub fn is_message_block(block: u8) -> bool
    ensures { result ≡ carries_message block }
{
    block == ETWS_SECONDARY || block == CMAS_LTE || block == CMAS_NR
}

// How many message and area octets a warning of a block may have together.
pub fn octet_limit(_block: u8) -> usize
    ensures { result ≡ limit _block }
{
    MOST_OCTETS
}

fn judge_security(security: Option<usize>) -> Result<(), WarningFault>
    ensures { result ≡ judged_security security }
{
    match security {
        Some(length) if length != SECURITY_OCTETS => Err(WarningFault::Security(length)),
        _ => Ok(()),
    }
}

fn judge_message(block: u8, message: usize, area: Option<usize>) -> Result<(), WarningFault>
    ensures { result ≡ judged_message block message area }
{
    if !is_message_block(block) {
        return Err(WarningFault::Block(block));
    }
    if block == ETWS_SECONDARY && area.is_some() {
        return Err(WarningFault::Area);
    }
    let count = message.saturating_add(area.unwrap_or(0));
    if count > octet_limit(block) {
        return Err(WarningFault::TooLong(count));
    }
    Ok(())
}

impl Outline {
    // Refuses what is no warning, by its first fault. Only kind and lengths count.
    pub fn judge(self) -> Result<(), WarningFault>
        ensures value { result ≡ judged self }
        ensures exact { is_ok result ≡ is_warning self }
    {
        match self {
            Warning::Primary { security, .. } => judge_security(security),
            Warning::Message {
                block,
                message,
                area,
                ..
            } => judge_message(block, message, area),
        }
    }
}

impl<T: Drop> Warning<T> {
    // The same warning, each part of it turned into something else.
    pub fn map<U, F: Fn(T) -> U>(self, turned: F) -> Warning<U>
        requires { F.IsAlwaysCallable turned }
        ensures { EachPart (F.post turned) self result }
    {
        match self {
            Warning::Primary {
                pair,
                warning_type,
                security,
            } => Warning::Primary {
                pair,
                warning_type,
                security: security.map(&turned),
            },
            Warning::Message {
                block,
                pair,
                coding,
                message,
                area,
            } => Warning::Message {
                block,
                pair,
                coding,
                message: turned(message),
                area: area.map(&turned),
            },
        }
    }
}

impl<T> Warning<T> {
    // The same warning, with its parts borrowed.
    pub fn as_ref(&self) -> Warning<&T>
        ensures { with_parts (λ part. part.now) result ≡ self.now }
    {
        match self {
            Warning::Primary {
                pair,
                warning_type,
                security,
            } => Warning::Primary {
                pair: *pair,
                warning_type: *warning_type,
                security: security.as_ref(),
            },
            Warning::Message {
                block,
                pair,
                coding,
                message,
                area,
            } => Warning::Message {
                block: *block,
                pair: *pair,
                coding: *coding,
                message,
                area: area.as_ref(),
            },
        }
    }
}

impl Warning<&[u8]> {
    // The warning without its octets.
    pub fn outline(self) -> Outline
        ensures { result ≡ outline (said self.entry) }
    {
        self.map(|octets| octets.len())
    }

    // Refuses what is no warning, by its first fault.
    pub fn judge(self) -> Result<(), WarningFault>
        ensures value { result ≡ judged (outline (said self.entry)) }
        ensures exact { is_ok result ≡ is_warning (outline (said self.entry)) }
    {
        self.outline().judge()
    }
}

impl WarningBuf {
    // The same warning, with borrowed octets.
    pub fn as_warning(&self) -> Warning<&[u8]>
        ensures { said result ≡ owned self.now }
    {
        self.as_ref().map(|octets| octets.as_slice())
    }
}
