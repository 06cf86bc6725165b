// Reading one warning: its head tells its outline, and its body has its
// octets.
ghost use Rattle.std.specs.Prelude.{◌≡◌, ◌≤◌, true, length, take, vec_items, IfOk};
ghost use Rattle.std.specs.Option.{option_map, unwrap_or};
ghost use Rattle.warning.specs.Contents.{octets};
ghost use Rattle.warning.specs.Meaning.{kept, owned};
ghost use Rattle.warning.specs.Numbers.{most_octets};
ghost use Rattle.warning.specs.Rules.{is_warning};
ghost use Rattle.tape.specs.Cursors.{gave, Agrees, flag_number};
ghost use Rattle.tape.specs.Heads.{primary_outline, message_outline, head, body, Passed};
ghost use Rattle.tape.specs.Numbers.{data_octets};
ghost use Rattle.tape.specs.Reading.{part, most_flag, most_area, entry};

use crate::cursor::Cursor;
use crate::fault::*;
use crate::numbers::*;
use crate::output::Output;
use crate::sink::{Judged, Sink};
use std::alloc::{AllocError, Global};
use warning::numbers::*;
use warning::{Outline, WarningBuf, octet_limit};

// Whether a message of a block may have an area.
fn may_have_area(block: u8) -> bool
    ensures { flag_number result ≡ most_flag block }
{
    block != ETWS_SECONDARY
}

// The largest area length.
fn most_area(block: u8, message: usize, has_area: bool) -> usize
    ensures { result ≡ most_area block message (flag_number has_area) }
{
    if has_area {
        octet_limit(block).saturating_sub(message)
    } else {
        0
    }
}

// The operands of a primary, up to its security information.
#[tactic(auto, unfolding(crate::specs::Heads::primary_outline))]
fn primary_outline(cursor: &mut Cursor<'_>) -> Result<Outline, TapeFault>
    ensures { gave result cursor.new ≡ primary_outline cursor.old }
{
    let pair = cursor.pair()?;
    let warning_type = cursor.number()?;
    let has_security = cursor.flag(true)?;
    Ok(Outline::Primary {
        pair,
        warning_type,
        security: has_security.then_some(SECURITY_OCTETS),
    })
}

// The operands of a message, up to its data.
#[tactic(auto, unfolding(crate::specs::Heads::message_outline))]
fn message_outline(cursor: &mut Cursor<'_>) -> Result<Outline, TapeFault>
    ensures { gave result cursor.new ≡ message_outline cursor.old }
{
    let block = cursor.block()?;
    let pair = cursor.pair()?;
    let coding = cursor.octet()?;
    let message = cursor.number_to(octet_limit(block))?;
    let has_area = cursor.flag(may_have_area(block))?;
    let area = cursor.number_to(most_area(block, message, has_area))?;
    Ok(Outline::Message {
        block,
        pair,
        coding,
        message,
        area: has_area.then_some(area),
    })
}

// The head of a warning: its command octet tells which operands follow.
#[tactic(auto, unfolding(crate::specs::Heads::head))]
pub fn head(cursor: &mut Cursor<'_>) -> Result<Outline, TapeFault>
    ensures value { gave result cursor.new ≡ head cursor.old }
    ensures right { IfOk result (λ o. is_warning o ≡ true) }
{
    let mut here = cursor.fork();
    let offset = here.offset();
    let outline = match here.octet()? {
        PRIMARY => primary_outline(&mut here)?,
        MESSAGE => message_outline(&mut here)?,
        _ => return Err(TapeFault::Unknown { offset }),
    };
    *cursor = here;
    Ok(outline)
}

// The octets of a part, handed on from its data commands.
// Kept: a cursor and a count are the two arguments of this and of the calls below; a struct of both would be made for one call.
fn part<S: Sink>(cursor: &mut Cursor<'_>, count: usize, sink: &mut S) -> Result<(), TapeFault>
    requires { S.fits sink.old count }
    ensures { Passed (λ xs. xs) (part count cursor.old) (λ xs. S.took sink.old xs sink.new) result cursor.new }
{
    // a cursor of its own needs no write to memory for each operand
    let mut here = cursor.fork();
    // Kept: by number, since there are no octets to cut into pieces before they are read.
    for _ in 0..count / DATA_OCTETS {
        sink.take(here.data(DATA_OCTETS)?);
    }
    let last = count % DATA_OCTETS;
    if last > 0 {
        sink.take(here.data(last)?);
    }
    *cursor = here;
    Ok(())
}

// The body of a warning whose outline is given: its octets are handed on.
// Kept: a type for an outline that is judged would be made for the one call that follows the judging.
pub fn pass_body<S: Sink>(
    cursor: &mut Cursor<'_>,
    outline: Outline,
    sink: &mut S,
) -> Result<(), TapeFault>
    requires right { is_warning outline ≡ true }
    requires fit { S.fits sink.old most_octets }
    ensures { Passed octets (body outline cursor.old) (λ xs. S.took sink.old xs sink.new) result cursor.new }
{
    match outline {
        Outline::Primary { security, .. } => {
            let count = security.unwrap_or(0);
            let octets = cursor.padded(SECURITY_OCTETS, count)?;
            sink.take(&octets[..count]);
            Ok(())
        }
        Outline::Message { message, area, .. } => {
            part(cursor, message, sink)?;
            part(cursor, area.unwrap_or(0), sink)
        }
    }
}

// Fills a memory with the octets of a part of its length.
fn fill(cursor: &mut Cursor<'_>, memory: &mut [u8]) -> Result<(), TapeFault>
    ensures { Passed (λ xs. xs) (part (length memory.old) cursor.old) (λ xs. memory.new ≡ xs) result cursor.new }
{
    let count = memory.len();
    part(cursor, count, &mut Output { memory, at: 0 })
}

// The octets of a part of one data command or none, in memory of their own.
fn short_part_buf(heap: Global, cursor: &mut Cursor<'_>, count: usize) -> Result<Vec<u8>, ReadError>
    requires { count ≤ data_octets }
    ensures { Agrees vec_items (part count cursor.old) result cursor.new }
{
    if count == 0 {
        return Ok(Vec::new(heap));
    }
    let octets = cursor.data(count)?;
    Ok(Vec::from_slice(heap, octets)?)
}

// The octets of a part, in memory of their own. All of it is judged first, so
// that no memory is taken for octets that are not there.
// Kept: the heap and a cursor are used apart; a cursor needs no heap.
fn part_buf(heap: Global, cursor: &mut Cursor<'_>, count: usize) -> Result<Vec<u8>, ReadError>
    ensures { Agrees vec_items (part count cursor.old) result cursor.new }
{
    if count <= DATA_OCTETS {
        return short_part_buf(heap, cursor, count);
    }
    part(&mut cursor.fork(), count, &mut Judged)?;
    let mut octets = vec![in heap; 0; count]?;
    fill(cursor, &mut octets)?;
    Ok(octets)
}

// Security information of a length, in memory of its own.
fn security_buf(
    heap: Global,
    octets: &[u8],
    security: Option<usize>,
) -> Result<Option<Vec<u8>>, AllocError>
    requires { unwrap_or security 0 ≤ length octets.now }
    ensures { IfOk result (λ x. kept x ≡ option_map (λ n. take n octets.now) security) }
{
    security
        .map(|count| Vec::from_slice(heap, &octets[..count]))
        .transpose()
}

// The body of a warning whose outline is given, which makes the warning whole.
// Kept: as for `pass_body`, the outline comes from the head just before.
fn body(heap: Global, cursor: &mut Cursor<'_>, outline: Outline) -> Result<WarningBuf, ReadError>
    requires { is_warning outline ≡ true }
    ensures { Agrees owned (body outline cursor.old) result cursor.new }
{
    match outline {
        Outline::Primary {
            pair,
            warning_type,
            security,
        } => {
            let octets = cursor.padded(SECURITY_OCTETS, security.unwrap_or(0))?;
            Ok(WarningBuf::Primary {
                pair,
                warning_type,
                security: security_buf(heap, octets, security)?,
            })
        }
        Outline::Message {
            block,
            pair,
            coding,
            message,
            area,
        } => {
            let message = part_buf(heap, cursor, message)?;
            let octets = part_buf(heap, cursor, area.unwrap_or(0))?;
            Ok(WarningBuf::Message {
                block,
                pair,
                coding,
                message,
                area: area.map(|_| octets),
            })
        }
    }
}

// One warning, in memory of its own.
pub fn entry(heap: Global, cursor: &mut Cursor<'_>) -> Result<WarningBuf, ReadError>
    ensures { Agrees owned (entry cursor.old) result cursor.new }
{
    let outline = head(cursor)?;
    body(heap, cursor, outline)
}
