// What holds of any outlet: a warning passes through it while it is empty.
ghost use Rattle.std.specs.Prelude.{◌≡◌, List, [], length, is_ok, if◌then◌else◌};
ghost use Rattle.octets.specs.Octets.{written};
ghost use Rattle.warning.specs.Contents.{octets};
ghost use Rattle.warning.specs.Meaning.{said};
ghost use Rattle.warning.specs.Notice.{outline};
ghost use Rattle.outlet.specs.Passing.{Ready, pass_outcome};

use crate::{Outlet, OutletFault};
use warning::{Outline, Warning};

// Gives a warning, and takes the oldest one. An outlet that held nothing is
// then empty again, and every warning passes through it.
pub fn pass<O: Outlet>(
    outlet: &mut O,
    w: Warning<&[u8]>,
    buffer: &mut [u8],
) -> Result<Outline, OutletFault>
    ensures value { Ready (O.warnings outlet.old) (length buffer.old) → result ≡ pass_outcome (outline (said w.entry)) }
    ensures empty { Ready (O.warnings outlet.old) (length buffer.old) → O.warnings outlet.new ≡ [] }
    ensures copied { Ready (O.warnings outlet.old) (length buffer.old) → buffer.new ≡ (if is_ok result then written 0 (octets (said w.entry)) buffer.old else buffer.old) }
    ensures same { O.room outlet.new ≡ O.room outlet.old }
{
    outlet.give(w)?;
    outlet.take(buffer)
}
