// Listing a tape while it is read, and writing it back.
ghost use Rattle.std.specs.Prelude.{◌≡◌, IfOk};
ghost use Rattle.tape.specs.Readers.{whole_tape, stands_at, read_so_far};
ghost use Rattle.tape.specs.Reading.{read_tape};
ghost use Rattle.listing.specs.Listed.{Listed, Left};

use crate::Line;
use anyhow::anyhow;
use std::alloc::Global;
use tape::fault::{ReadError, TapeFault};
use tape::reader::TapeReader;

// Prints a line for each warning, as far as the tape can be read.
fn list_entries(
    rt: &impl Print,
    heap: Global,
    reader: &mut TapeReader<'_>,
) -> anyhow::Result<Result<(), TapeFault>>
    ensures tape { whole_tape reader.new ≡ whole_tape reader.old }
    ensures left { IfOk result (Left (stands_at reader.new)) }
{
    loop {
        match reader.next(heap) {
            Ok(Some(offset)) => {
                if let Some(warning) = reader.warnings().last() {
                    let outline = warning.as_warning().outline();
                    rt.println(Line::Entry { offset, outline })?;
                }
            }
            Ok(None) => return Ok(Ok(())),
            Err(ReadError::Fault(fault)) => return Ok(Err(fault)),
            Err(ReadError::Memory) => return Err(anyhow!("no memory to read the tape")),
        }
    }
}

// Lists a tape, line by line while it is read, then writes it again from what
// was read, and answers whether that is the same, or why the tape is refused.
pub fn list(rt: &impl Print, heap: Global, tape: &[u8]) -> anyhow::Result<Result<bool, TapeFault>>
    ensures { IfOk result (Listed tape.now) }
{
    let mut reader = TapeReader::new(heap, tape);
    if let Err(fault) = list_entries(rt, heap, &mut reader)? {
        rt.println(Line::Refused(fault))?;
        return Ok(Err(fault));
    }
    let Ok(again) = reader.write_back(heap) else {
        return Err(anyhow!("no memory to write the tape"));
    };
    let same = again.as_slice() == tape;
    let warnings = reader.warnings().len();
    let octets = tape.len();
    rt.println(Line::End {
        warnings,
        octets,
        same,
    })?;
    Ok(Ok(same))
}
