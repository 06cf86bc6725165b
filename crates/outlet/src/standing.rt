// What outlets share: the check of a buffer, and the octets of a warning at
// the start of a memory.
ghost use Rattle.std.specs.Prelude.{◌≡◌, ℕ, ◌≤◌, true, length, Ok};
ghost use Rattle.octets.specs.Octets.{written};
ghost use Rattle.warning.specs.Contents.{octet_count, octets};
ghost use Rattle.warning.specs.Meaning.{said};
ghost use Rattle.warning.specs.Notice.{outline};
ghost use Rattle.warning.specs.Numbers.{most_octets};
ghost use Rattle.warning.specs.Rules.{is_warning};
ghost use Rattle.outlet.specs.Outcomes.{into_buffer};

use crate::OutletFault;
use octets::put;
use warning::numbers::*;
use warning::{Outline, Warning};

// Refuses a buffer that is too short for some warning.
// Kept: a store checks its memory likewise, but each layer has a fault type of its own.
pub fn check_buffer(buffer: &[u8]) -> Result<(), OutletFault>
    ensures { result ≡ into_buffer (length buffer.now) (Ok tt) }
{
    if buffer.len() < MOST_OCTETS {
        return Err(OutletFault::Buffer(buffer.len()));
    }
    Ok(())
}

// How many octets a warning has.
pub fn octet_count(outline: Outline) -> usize
    requires { is_warning outline ≡ true }
    ensures value { result ≡ octet_count outline }
    ensures bound { result ≤ most_octets }
{
    match outline {
        Outline::Primary { security, .. } => security.unwrap_or(0),
        Outline::Message { message, area, .. } => message + area.unwrap_or(0),
    }
}

// Kept: a segment of a store is written likewise, but a store and an outlet share no type.
// Writes the octets of a warning to the start of the memory, where they have
// to fit: the message and then the area, or the security information.
pub fn lay(memory: &mut [u8], w: Warning<&[u8]>)
    requires { octet_count (outline (said w)) ≤ length memory.old }
    ensures { memory.new ≡ written 0 (octets (said w.entry)) memory.old }
{
    match w {
        Warning::Primary { security, .. } => {
            put(memory, 0, security.unwrap_or(&[]));
        }
        Warning::Message { message, area, .. } => {
            let next = put(memory, 0, message);
            put(memory, next, area.unwrap_or(&[]));
        }
    }
}
