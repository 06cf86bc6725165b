// Reading one warning from an offset on: its head alone, or all of it, in
// memory of its own or copied to lent memory.
ghost use Rattle.std.specs.Prelude.{◌≡◌, ◌≤◌, length, drop};
ghost use Rattle.warning.specs.Notice.{outline as outline_of};
ghost use Rattle.warning.specs.Numbers.{most_octets};
ghost use Rattle.warning.specs.Meaning.{owned};
ghost use Rattle.tape.specs.Heads.{head, HeadThenBody, answered, AnsweredAs, copied};
ghost use Rattle.tape.specs.Reading.{place, entry};

use crate::cursor::Cursor;
use crate::fault::*;
use crate::output::Output;
use crate::read::{entry, head, pass_body};
use crate::sink::Judged;
use std::alloc::Global;
use warning::{Outline, WarningBuf};

// Reads the head of the warning at an offset: its outline, and the offset
// after the head.
// Kept: a caller has a tape and an offset; a struct of both would be made for one call.
pub fn read_head(tape: &[u8], at: usize) -> Result<(Outline, usize), TapeFault>
    ensures value { result ≡ answered (λ o. o) (head (place at (drop at tape.now))) }
    ensures parts { HeadThenBody }
{
    let mut cursor = Cursor::new(tape, at);
    let outline = head(&mut cursor)?;
    Ok((outline, cursor.offset()))
}

// Reads the warning at an offset into memory of its own, and answers it with
// the offset after it.
pub fn read_entry(heap: Global, tape: &[u8], at: usize) -> Result<(WarningBuf, usize), ReadError>
    ensures { AnsweredAs owned (entry (place at (drop at tape.now))) result }
{
    let mut cursor = Cursor::new(tape, at);
    let warning = entry(heap, &mut cursor)?;
    Ok((warning, cursor.offset()))
}

// Copies the octets of the warning at an offset to the start of a memory that
// has room for every warning, and answers its outline with the offset after
// it. The warning is judged first: a refusal leaves the memory as it was.
pub fn copy_entry(tape: &[u8], at: usize, memory: &mut [u8]) -> Result<(Outline, usize), TapeFault>
    requires { most_octets ≤ length memory.old }
    ensures value { result ≡ answered outline_of (entry (place at (drop at tape.now))) }
    ensures after { memory.new ≡ copied (entry (place at (drop at tape.now))) memory.old }
{
    let mut cursor = Cursor::new(tape, at);
    let outline = head(&mut cursor)?;
    let mut end = cursor.fork();
    pass_body(&mut end, outline, &mut Judged)?;
    pass_body(&mut cursor, outline, &mut Output { memory, at: 0 })?;
    Ok((outline, end.offset()))
}
