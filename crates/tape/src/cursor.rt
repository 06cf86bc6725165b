// A cursor over the octets of a tape. Its methods take operands of a width,
// each split from the octets that follow.
ghost use Rattle.std.specs.Prelude.{◌≡◌, ℕ, ◌+◌, ◌*◌, ◌<◌, Bool, true, length, take, drop, IfOk, Err, nat_eq, slice_index};
ghost use Rattle.std.specs.List.{list_all};
ghost use Rattle.tape.specs.declared.fault.TapeFault.TheVariants.{Unknown, Ended};
ghost use Rattle.tape.specs.Cursors.{gave, gave_as, Tests};
ghost use Rattle.tape.specs.Reading.{place, operand, octet, number, number_to, all_zero};

use crate::fault::TapeFault;
use std::marker::Model;

// Where a reader stands in its input: an offset, and the octets from there on.
#[derive(Drop)]
pub struct Cursor<'a> {
    at: usize,
    rest: &'a [u8],
}

impl<'a> Model for Cursor<'a> {
    ghost use Rattle.std.specs.Prelude.{◌+◌, ◌^◌, ◌<◌, length};
    ghost use Rattle.tape.specs.Reading.{Place, place};

    ghost Value = { Place };

    ghost view = { λ c. place c.at c.rest.now };

    // the input's end is an offset too
    ghost invariant = { λ c. c.at + length c.rest.now < 2 ^ 64 };
}

impl<'a> Cursor<'a> {
    // The octets from an offset on; there are none past the end.
    pub fn new(tape: &'a [u8], at: usize) -> Cursor<'a>
        ensures { result ≡ place at (drop at tape.now) }
    {
        let rest = tape.get(at..).unwrap_or(&[]);
        Cursor { at, rest }
    }

    // The offset at which it stands.
    pub fn offset(&self) -> usize
        ensures { result ≡ self.now.at }
    {
        self.at
    }

    // Another cursor at the same place.
    // Kept: no `Copy`, since a type with a model and a lifetime cannot derive it.
    pub fn fork(&self) -> Cursor<'a>
        ensures { result ≡ self.now }
    {
        Cursor {
            at: self.at,
            rest: self.rest,
        }
    }

    // An octet is wrong in the operand that begins here.
    fn unknown(&self) -> TapeFault
        ensures { result ≡ Unknown self.now.at }
    {
        TapeFault::Unknown { offset: self.at }
    }

    // The input has ended too early.
    fn ended(&self) -> TapeFault
        ensures { result ≡ Ended (self.now.at + length self.now.rest) }
    {
        TapeFault::Ended {
            offset: self.at + self.rest.len(),
        }
    }

    // One octet of any value.
    pub fn octet(&mut self) -> Result<u8, TapeFault>
        ensures { gave result self.new ≡ octet (λ c. true) self.old }
    {
        let [value, rest @ ..] = self.rest else {
            return Err(self.ended());
        };
        self.at += 1;
        self.rest = rest;
        Ok(*value)
    }

    // One octet that passes a test.
    pub fn octet_if<F: FnOnce(u8) -> bool>(&mut self, test: F) -> Result<u8, TapeFault>
        requires { F.IsAlwaysCallable test }
        ensures { (passes : ℕ → Bool) → Tests (F.post test) passes → gave result self.new ≡ octet passes self.old }
    {
        let unknown = self.unknown();
        let value = self.octet()?;
        if test(value) { Ok(value) } else { Err(unknown) }
    }

    // A number of two octets.
    // Kept: `octet`, `number` and `number_to` each split their operand by a pattern of its own, a rule of the project.
    pub fn number(&mut self) -> Result<u16, TapeFault>
        ensures { gave result self.new ≡ number self.old }
    {
        let [high, low, rest @ ..] = self.rest else {
            return Err(self.ended());
        };
        self.at += 2;
        self.rest = rest;
        Ok(u16::from_be_bytes([*high, *low]))
    }

    // Why a number with a limit is not read where an octet of it is missing:
    // the first one may already make it too large.
    fn cut_number(&self, most: usize) -> TapeFault
        requires { length self.now.rest < 2 }
        ensures { Err result ≡ number_to most self.now }
    {
        if least_number(self.rest) > most {
            return self.unknown();
        }
        self.ended()
    }

    // A number of two octets that has a limit.
    pub fn number_to(&mut self, most: usize) -> Result<usize, TapeFault>
        ensures { gave result self.new ≡ number_to most self.old }
    {
        let [high, low, rest @ ..] = self.rest else {
            return Err(self.cut_number(most));
        };
        let value = usize::from(u16::from_be_bytes([*high, *low]));
        if value > most {
            return Err(self.unknown());
        }
        self.at += 2;
        self.rest = rest;
        Ok(value)
    }

    // Octets of a width, of which all past a count are zeros.
    pub fn padded(&mut self, width: usize, count: usize) -> Result<&'a [u8], TapeFault>
        ensures value { gave_as (λ xs. xs.now) result self.new ≡ operand width (λ xs. all_zero (drop count xs)) self.old }
        ensures size { IfOk result (λ xs. length xs.now ≡ width) }
    {
        if !is_padded(self.rest, width, count) {
            return Err(self.unknown());
        }
        let Some((octets, rest)) = self.rest.split_at_checked(width) else {
            return Err(self.ended());
        };
        self.at += width;
        self.rest = rest;
        Ok(octets)
    }
}

// The least number that begins with the first octet here, if there is one.
fn least_number(octets: &[u8]) -> usize
    ensures { result ≡ slice_index octets.now 0 * 256 }
{
    octets.first().map_or(0, |high| usize::from(*high) * 256)
}

// Whether all octets of a width past a count are zeros, as far as there are
// octets.
fn is_padded(octets: &[u8], width: usize, count: usize) -> bool
    ensures { result ≡ list_all (λ x. nat_eq x 0) (drop count (take width octets.now)) }
{
    front(octets, width)
        .iter()
        .skip(count)
        .all(|octet| *octet == 0)
}

// The first octets, at most so many.
#[tactic(auto, using(std::proofs::lemmas::List::take_all))]
fn front(octets: &[u8], most: usize) -> &[u8]
    ensures { result.now ≡ take most octets.now }
{
    octets.get(..most).unwrap_or(octets)
}
