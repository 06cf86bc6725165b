// The checks that stores share.
ghost use Rattle.std.specs.Prelude.{◌≡◌, ◌≤◌, length};
ghost use Rattle.store.specs.Outcomes.{judged_memory, judged_octets, judged_place, judged_slot, judged_vacant};

use crate::numbers::*;
use crate::{Place, StoreFault};

// Refuses a slot that there is not.
pub fn check_slot(slots: usize, slot: usize) -> Result<(), StoreFault>
    ensures { result ≡ judged_slot slots slot }
{
    if slot >= slots {
        return Err(StoreFault::NoSlot(slot));
    }
    Ok(())
}

// Refuses more octets than a segment may have.
pub fn check_octets(octets: usize) -> Result<(), StoreFault>
    ensures { result ≡ judged_octets octets }
{
    if octets > MOST_OCTETS {
        return Err(StoreFault::TooLong(octets));
    }
    Ok(())
}

// Refuses a place where a segment is held.
pub fn check_vacant(held: bool) -> Result<(), StoreFault>
    ensures { result ≡ judged_vacant held }
{
    if held {
        return Err(StoreFault::Occupied);
    }
    Ok(())
}

// Refuses a memory that is shorter than so many octets.
pub fn check_memory(memory: &[u8], octets: usize) -> Result<(), StoreFault>
    ensures { result ≡ judged_memory (length memory.now) octets }
{
    if memory.len() < octets {
        return Err(StoreFault::Memory(memory.len()));
    }
    Ok(())
}

impl Place {
    // Refuses a slot that there is not, then a number that no segment has.
    // Otherwise the answer is the place's index: 64 places to a slot.
    pub fn index(self, slots: usize) -> Result<usize, StoreFault>
        requires { slots ≤ 9 }
        ensures { result ≡ judged_place slots self.slot self.number }
    {
        check_slot(slots, self.slot)?;
        let number_index = usize::from(self.number);
        if number_index >= NUMBERS {
            return Err(StoreFault::NoNumber(self.number));
        }
        Ok(self.slot * NUMBERS + number_index)
    }
}
