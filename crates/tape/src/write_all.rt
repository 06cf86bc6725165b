// Writing a list of warnings into memory of its own.
ghost use Rattle.std.specs.Prelude.{◌≡◌, ℕ, List, [], ◌∷◌, ◌++◌, map, IfOk, Ok};
ghost use Rattle.warning.specs.Meaning.{said};
ghost use Rattle.warning.specs.Meaning.{owned};
ghost use Rattle.tape.specs.Promises.{Appended, WrittenAs};
ghost use Rattle.tape.specs.Reading.{read_tape};

use crate::fault::*;
use crate::numbers::*;
use crate::write::write;
use std::alloc::Global;
use warning::{Warning, WarningBuf};

// Adds one warning to the end of a tape. An error leaves the tape as it was.
pub fn append(tape: &mut Vec<u8>, w: Warning<&[u8]>) -> Result<(), WriteError>
    ensures { Appended tape.old.items (said w.entry) tape.new.items result }
{
    w.judge()?;
    let mut entry = [0u8; LONGEST_ENTRY];
    let Ok(end) = write(&mut entry, 0, w) else {
        unreachable()
    };
    tape.extend_from_slice(&entry[..end])?;
    Ok(())
}

// Writes warnings one after another. What was written reads back as the same
// warnings.
pub fn write_all(heap: Global, warnings: &[WarningBuf]) -> Result<Vec<u8>, WriteError>
    ensures value { WrittenAs (map owned warnings.now) result }
    ensures reads_back { IfOk result (λ tape. read_tape tape.items ≡ Ok (map owned warnings.now)) }
{
    let mut tape = Vec::new(heap);
    for w in warnings {
        append(&mut tape, w.as_warning())?;
    }
    Ok(tape)
}
