// Writing one warning into lent memory.
ghost use Rattle.std.specs.Prelude.{◌≡◌, ℕ, ◌+◌, ◌-◌, ◌≤◌, true, ◌++◌, ◌∷◌, length, is_ok, IfOk, if◌then◌else◌};
ghost use Rattle.std.specs.List.{flat_map};
ghost use Rattle.std.specs.Option.{unwrap_or};
ghost use Rattle.octets.specs.Octets.{two, written};
ghost use Rattle.warning.specs.Meaning.{said};
ghost use Rattle.warning.specs.Notice.{outline};
ghost use Rattle.warning.specs.Numbers.{most_octets};
ghost use Rattle.warning.specs.Rules.{is_warning};
ghost use Rattle.tape.specs.Numbers.{data_octets, longest_entry};
ghost use Rattle.tape.specs.Format.{encode, flag_of, piece, pieces, part_cost, pair_octets};
ghost use Rattle.tape.specs.Writing.{costed, write_outcome, head_octets, body_octets, HasRoom, HasPut};
ghost use Rattle.tape.specs.Promises.{Longest};

use crate::fault::*;
use crate::numbers::*;
use crate::output::Output;
use octets::put;
use warning::numbers::*;
use warning::{Outline, Pair, Warning, WarningFault};

// The octets that the data commands of a part take.
fn part_cost(octets: usize) -> usize
    requires { octets ≤ most_octets }
    ensures { result ≡ part_cost octets }
{
    octets.div_ceil(DATA_OCTETS) * DATA_COMMAND_OCTETS
}

// The octets that a warning takes, by its kind and lengths.
pub fn cost(outline: Outline) -> Result<usize, WarningFault>
    ensures value { result ≡ costed outline }
    ensures bound { IfOk result (λ n. n ≤ longest_entry) }
{
    outline.judge()?;
    match outline {
        Outline::Primary { .. } => Ok(PRIMARY_OCTETS),
        Outline::Message { message, area, .. } => {
            Ok(MESSAGE_OCTETS + part_cost(message) + part_cost(area.unwrap_or(0)))
        }
    }
}

// The octets of the longest warning on tape.
pub fn longest_entry() -> usize
    ensures { Longest result }
{
    LONGEST_ENTRY
}

// The octets of a pair.
fn pair_octets(pair: Pair) -> [u8; 4]
    ensures { result ≡ pair_octets pair }
{
    let [i1, i0] = pair.identifier.to_be_bytes();
    let [s1, s0] = pair.serial.to_be_bytes();
    [i1, i0, s1, s0]
}

// A length, which two octets can hold.
fn length_octets(length: usize) -> [u8; 2]
    requires { length ≤ most_octets }
    ensures { result ≡ two length }
{
    (length as u16).to_be_bytes()
}

// The flag and the length of an area.
fn area_head(area: Option<usize>) -> [u8; 3]
    requires { unwrap_or area 0 ≤ most_octets }
    ensures { result ≡ flag_of area ∷ two (unwrap_or area 0) }
{
    let [a1, a0] = length_octets(area.unwrap_or(0));
    [u8::from(area.is_some()), a1, a0]
}

// Writes a data command that has all its octets, and answers the place after
// it. Its width is known, so that it takes no call to copy it.
fn put_full_piece(memory: &mut [u8], at: usize, octets: &[u8; DATA_OCTETS]) -> usize
    requires { at + length (piece octets.now) ≤ length memory.old }
    ensures next { result ≡ at + length (piece octets.now) }
    ensures after { memory.new ≡ written at (piece octets.now) memory.old }
{
    let next = put(memory, at, &[DATA, octets.len() as u8]);
    put(memory, next, octets)
}

// The same for several, one after another.
// Kept: memory and place apart, which a loop holds without a write to memory for each.
fn put_full_pieces(memory: &mut [u8], at: usize, pieces: &[[u8; DATA_OCTETS]]) -> usize
    requires { at + length (flat_map piece pieces.now) ≤ length memory.old }
    ensures next { result ≡ at + length (flat_map piece pieces.now) }
    ensures after { memory.new ≡ written at (flat_map piece pieces.now) memory.old }
{
    let mut next = at;
    for octets in pieces {
        next = put_full_piece(memory, next, octets);
    }
    next
}

impl Output<'_> {
    // A data command, with zeros past its octets.
    fn put_piece(&mut self, octets: &[u8])
        requires few { length octets.now ≤ data_octets }
        requires fit { HasRoom self.old (piece octets.now) }
        ensures { HasPut self.old (piece octets.now) self.new }
    {
        let zeros = [0u8; DATA_OCTETS];
        self.put(&[DATA, octets.len() as u8]);
        self.put(octets);
        self.put(&zeros[octets.len()..]);
    }

    // The data commands of one part.
    fn put_part(&mut self, part: &[u8])
        requires fit { HasRoom self.old (pieces part.now) }
        ensures { HasPut self.old (pieces part.now) self.new }
    {
        let (full, last) = part.as_chunks::<DATA_OCTETS>();
        self.at = put_full_pieces(self.memory, self.at, full);
        if !last.is_empty() {
            self.put_piece(last);
        }
    }

    // Kept: a type for an outline that is judged would be made for the one call that follows `cost`.
    // The head of a warning: its command octet, and the operands before its
    // octets.
    fn put_head(&mut self, outline: Outline)
        requires right { is_warning outline ≡ true }
        requires fit { HasRoom self.old (head_octets outline) }
        ensures { HasPut self.old (head_octets outline) self.new }
    {
        match outline {
            Outline::Primary {
                pair,
                warning_type,
                security,
            } => {
                let [i1, i0, s1, s0] = pair_octets(pair);
                let [t1, t0] = warning_type.to_be_bytes();
                let flag = u8::from(security.is_some());
                self.put(&[PRIMARY, i1, i0, s1, s0, t1, t0, flag]);
            }
            Outline::Message {
                block,
                pair,
                coding,
                message,
                area,
            } => {
                let [i1, i0, s1, s0] = pair_octets(pair);
                let [m1, m0] = length_octets(message);
                let [flag, a1, a0] = area_head(area);
                self.put(&[MESSAGE, block, i1, i0, s1, s0, coding, m1, m0, flag, a1, a0]);
            }
        }
    }

    // The body of a warning: its octets.
    fn put_body(&mut self, w: Warning<&[u8]>)
        requires fit { HasRoom self.old (body_octets (said w)) }
        ensures { HasPut self.old (body_octets (said w.entry)) self.new }
    {
        match w {
            Warning::Primary { security, .. } => {
                self.put(security.unwrap_or(&[0; SECURITY_OCTETS]));
            }
            Warning::Message { message, area, .. } => {
                self.put_part(message);
                self.put_part(area.unwrap_or(&[]));
            }
        }
    }
}

// Writes a warning at a place of lent memory, and answers the place after it.
// A refusal leaves the memory as it was.
pub fn write(memory: &mut [u8], at: usize, w: Warning<&[u8]>) -> Result<usize, WriteFault>
    ensures value { result ≡ write_outcome (outline (said w.entry)) (length memory.old - at) at }
    ensures after { memory.new ≡ (if is_ok result then written at (encode (said w.entry)) memory.old else memory.old) }
{
    let outline = w.outline();
    let cost = cost(outline)?;
    let free = memory.len().saturating_sub(at);
    if free < cost {
        return Err(WriteFault::Full { cost, free });
    }
    let mut output = Output { memory, at };
    output.put_head(outline);
    output.put_body(w);
    Ok(output.at)
}
