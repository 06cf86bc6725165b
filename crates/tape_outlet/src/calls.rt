// The calls of the tape outlet.
ghost use Rattle.std.specs.Prelude.{◌≡◌, ℕ, ◌≤◌, List, [], length, Some, Ok};
ghost use Rattle.std.specs.Option.{option_map};
ghost use Rattle.warning.specs.Numbers.{most_octets};
ghost use Rattle.tape.specs.Format.{encode_all};
ghost use Rattle.tape.specs.Reading.{read_tape};
ghost use Rattle.outlet.specs.Outcomes.{first_of, first_copied, without_first};
ghost use Rattle.tape_outlet.specs.Numbers.{tape_room, with_cost};
ghost use Rattle.tape_outlet.specs.Written.{as_outlet};
ghost use Rattle.tape_outlet.specs.Holding.{holding};
ghost use Rattle.tape_outlet.specs.Kept;
ghost use Rattle.tape_outlet.specs.Kept.{costs_within, each_right};

use crate::TapeOutlet;
use crate::numbers::*;
use outlet::standing::check_buffer;
use outlet::{Outlet, OutletFault};
use tape::fault::WriteFault;
use tape::heads::{copy_entry, read_head};
use tape::write::{cost, write};
use warning::{Outline, Warning, WarningFault};

// A refusal of writing as the outlet's.
// Kept: no `From`, since both types are of other crates.
fn as_outlet_fault(fault: WriteFault) -> OutletFault
    ensures { result ≡ as_outlet fault }
{
    match fault {
        WriteFault::NoWarning(fault) => OutletFault::NoWarning(fault),
        WriteFault::Full { cost, free } => OutletFault::Full { cost, free },
    }
}

impl TapeOutlet {
    // An outlet that holds nothing.
    pub fn new() -> TapeOutlet
        ensures { holding result ≡ [] }
    {
        TapeOutlet {
            octets: [0; TAPE_OCTETS],
            used: 0,
        }
    }

    // The warnings held, as a tape.
    pub fn tape(&self) -> &[u8]
        ensures written { result.now ≡ encode_all (holding self.now) }
        ensures reads { read_tape result.now ≡ Ok (holding self.now) }
    {
        &self.octets[0..self.used]
    }

    // Copies the octets of the oldest warning, if there is one, to the start
    // of the buffer, and answers its outline and how many octets it takes on
    // tape.
    fn copy_oldest(&self, buffer: &mut [u8]) -> Option<(Outline, usize)>
        requires { most_octets ≤ length buffer.old }
        ensures value { result ≡ option_map with_cost (first_of (holding self.now)) }
        ensures after { buffer.new ≡ first_copied (holding self.now) buffer.old }
    {
        copy_entry(self.tape(), 0, buffer).ok()
    }

    // Removes the oldest warning, which takes so many octets on tape: the
    // octets after it move to the front.
    fn remove_oldest(&mut self, freed: usize)
        requires { Some freed ≡ option_map tape_room.cost (first_of (holding self.old)) }
        ensures { holding self.new ≡ without_first (holding self.old) }
    {
        self.octets.copy_within(freed..self.used, 0);
        self.used -= freed;
    }
}

impl Outlet for TapeOutlet {
    ghost warnings = { holding };

    ghost room = { λ _. tape_room };

    ghost lawful = { λ s. Kept.lawful };

    ghost within = { costs_within };

    ghost right = { λ s. each_right (holding s) s.right };

    fn give(&mut self, w: Warning<&[u8]>) -> Result<(), OutletFault> {
        let end = write(&mut self.octets, self.used, w).map_err(as_outlet_fault)?;
        self.used = end;
        Ok(())
    }

    fn take(&mut self, buffer: &mut [u8]) -> Result<Outline, OutletFault> {
        check_buffer(buffer)?;
        let (outline, freed) = self.copy_oldest(buffer).ok_or(OutletFault::Empty)?;
        self.remove_oldest(freed);
        Ok(outline)
    }

    fn first(&self) -> Option<Outline> {
        read_head(self.tape(), 0).ok().map(|(outline, _)| outline)
    }

    fn free(&self) -> usize {
        TAPE_OCTETS - self.used
    }

    fn cost(&self, outline: Outline) -> Result<usize, WarningFault> {
        cost(outline)
    }
}
