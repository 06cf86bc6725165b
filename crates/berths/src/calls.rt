// The calls of the berths.
ghost use Rattle.std.specs.Prelude.{◌≡◌, ◌<◌, Ok};
ghost use Rattle.std.specs.Option.{option_map};
ghost use Rattle.std.specs.Result.{result_map_both};
ghost use Rattle.store.specs.Meaning.{content, nothing, without_slot};
ghost use Rattle.store.specs.Outcomes.{at_place, look_up};
ghost use Rattle.berths.specs.Numbers.{berths_shape, slot_count};
ghost use Rattle.berths.specs.Berthed.{held_in};
ghost use Rattle.berths.specs.Holding.{holding};
ghost use Rattle.berths.specs.Laws;
ghost use Rattle.berths.specs.Laws.{units_most, all_placed};

use crate::Berths;
use crate::berth::Berth;
use crate::numbers::*;
use store::checks::{check_memory, check_octets, check_slot, check_vacant};
use store::numbers::*;
use store::{Lengths, Place, Segment, Store, StoreFault};

impl Berths {
    // Berths that hold nothing.
    #[tactic(auto, using(crate::proofs::Rows::held_none))]
    pub fn new() -> Berths
        ensures { holding result ≡ nothing }
    {
        let vacant = Berth::vacant();
        Berths {
            berths: [vacant; BERTHS],
            used: [0; SLOTS],
        }
    }

    // The segment that is held at a place, if there is one.
    #[tactic(auto, using(crate::proofs::Rows::found_at))]
    fn find(&self, place: Place) -> Result<Option<Segment<&[u8]>>, StoreFault>
        ensures { result_map_both (option_map content) (λ f. f) result ≡ at_place berths_shape place.slot place.number (Ok (holding self.now place.slot place.number)) }
    {
        let i = place.index(SLOTS)?;
        Ok(self.berths[i].segment())
    }

    // The segment that is held at a place, where none is refused.
    // Kept: one line over what this store has of its own, as in the pool.
    fn look_up(&self, place: Place) -> Result<Segment<&[u8]>, StoreFault>
        ensures { result_map_both content (λ f. f) result ≡ look_up berths_shape (holding self.now) place.slot place.number }
    {
        self.find(place)?.ok_or(StoreFault::NotHeld)
    }

    // Lets go of what a slot holds.
    fn clear(&mut self, slot: usize)
        requires { slot < slot_count }
        ensures { holding self.new ≡ without_slot (holding self.old) slot }
    {
        let first = slot * NUMBERS;
        for berth in self.berths[first..first + NUMBERS].iter_mut() {
            berth.clear();
        }
        self.used[slot] = 0;
    }
}

impl Store for Berths {
    ghost held = { holding };

    ghost shape = { λ _. berths_shape };

    ghost lawful = { λ s. Laws.lawful };

    ghost within = { λ s. units_most (held_in s.berths) };

    ghost placed = { λ s slot number. all_placed s.berths slot number };

    #[tactic(auto, using(crate::proofs::Puts::taken_at, crate::proofs::Puts::room_at, crate::proofs::Puts::laid_at))]
    fn put(&mut self, place: Place, segment: Segment<&[u8]>) -> Result<(), StoreFault> {
        let i = place.index(SLOTS)?;
        check_octets(segment.octet_count())?;
        check_vacant(self.berths[i].is_taken())?;
        // a berth is a unit, so one is free
        let Berths { berths, used } = self;
        berths[i].lay(segment);
        used[place.slot] += 1;
        Ok(())
    }

    // Kept: `drop_slot`, `drop_all`, `units_of` and `is_held` are a few lines over what this store has of its own, as in the pool.
    fn drop_slot(&mut self, slot: usize) -> Result<(), StoreFault> {
        check_slot(SLOTS, slot)?;
        self.clear(slot);
        Ok(())
    }

    fn drop_all(&mut self) {
        // Kept: the slot is what each step is given.
        for slot in 0..SLOTS {
            self.clear(slot);
        }
    }

    fn slots(&self) -> usize {
        SLOTS
    }

    fn total(&self) -> usize {
        BERTHS
    }

    fn cost(&self, octets: usize) -> Result<usize, StoreFault> {
        check_octets(octets)?;
        Ok(1)
    }

    fn units_held(&self) -> usize {
        self.used[0] + self.used[1] + self.used[2]
    }

    fn units_of(&self, slot: usize) -> Result<usize, StoreFault> {
        check_slot(SLOTS, slot)?;
        Ok(self.used[slot])
    }

    fn is_held(&self, place: Place) -> Result<bool, StoreFault> {
        Ok(self.find(place)?.is_some())
    }

    fn lengths(&self, place: Place) -> Result<Lengths, StoreFault> {
        Ok(self.look_up(place)?.lengths())
    }

    fn equals(&self, place: Place, segment: Segment<&[u8]>) -> Result<bool, StoreFault> {
        Ok(self.look_up(place)? == segment)
    }

    #[tactic(auto, using(crate::proofs::Copies::copied_found))]
    fn copy_out(&self, place: Place, memory: &mut [u8]) -> Result<(), StoreFault> {
        let segment = self.look_up(place)?;
        check_memory(memory, segment.octet_count())?;
        segment.write_to(memory);
        Ok(())
    }
}
