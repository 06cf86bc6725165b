// The calls of the pool.
ghost use Rattle.std.specs.Prelude.{◌≡◌, ℕ, ◌<◌, ◌≤◌, if◌then◌else◌, None, Ok, Err, nat_lt};
ghost use Rattle.std.specs.Option.{option_map};
ghost use Rattle.std.specs.Result.{result_map_both};
ghost use Rattle.store.specs.declared.StoreFault.TheVariants.{NoUnits};
ghost use Rattle.store.specs.Meaning.{nothing, content, count, replaced, units_free, with_segment, without_slot};
ghost use Rattle.store.specs.Numbers.{number_count, most_octets};
ghost use Rattle.store.specs.Outcomes.{at_place, look_up};
ghost use Rattle.pool.specs.Numbers.{slot_count, place_count, blocks_for, pool_shape};
ghost use Rattle.pool.specs.Chains.{links, parts, stored, segment_of};
ghost use Rattle.pool.specs.Holding.{holding};
ghost use Rattle.pool.specs.Laws;
ghost use Rattle.pool.specs.Laws.{all_placed};

use crate::Pool;
use crate::blocks::{Blocks, Link, blocks_for};
use crate::numbers::*;
use crate::stored::Stored;
use store::checks::{check_memory, check_octets, check_slot, check_vacant};
use store::numbers::*;
use store::{Lengths, Place, Segment, Store, StoreFault};

impl Pool {
    // A pool that holds nothing.
    pub fn new() -> Pool
        ensures { holding result ≡ nothing }
    {
        let vacant: Option<Stored> = None;
        Pool {
            places: [vacant; PLACES],
            chains: Blocks::new(),
            free: Link::to(0),
            held: 0,
            used: [0; SLOTS],
        }
    }

    // What stands at an index of the table.
    fn stored_at(&self, index: usize) -> Option<Stored>
        requires { index < place_count }
        ensures { result ≡ stored self.now.places index }
    {
        self.places[index]
    }

    // What is held at a place, if anything is.
    #[tactic(auto, using(crate::proofs::Found::found_at))]
    fn find(&self, place: Place) -> Result<Option<Stored>, StoreFault>
        ensures { result_map_both (option_map (segment_of (parts self.now.chains) (links self.now.chains))) (λ f. f) result ≡ at_place pool_shape place.slot place.number (Ok (holding self.now place.slot place.number)) }
    {
        let i = place.index(SLOTS)?;
        Ok(self.stored_at(i))
    }

    // What is held at a place, where nothing is refused.
    // Kept: one line over what this store has of its own, as in the berths.
    fn look_up(&self, place: Place) -> Result<Stored, StoreFault>
        ensures { result_map_both (segment_of (parts self.now.chains) (links self.now.chains)) (λ f. f) result ≡ look_up pool_shape (holding self.now) place.slot place.number }
    {
        self.find(place)?.ok_or(StoreFault::NotHeld)
    }

    // Refuses more units than are free.
    fn check_room(&self, cost: usize) -> Result<(), StoreFault>
        ensures { result ≡ (if nat_lt (units_free pool_shape (holding self.now)) cost then Err (NoUnits cost (units_free pool_shape (holding self.now))) else Ok tt) }
    {
        let free = BLOCKS - self.units_held();
        if cost > free {
            return Err(StoreFault::NoUnits { cost, free });
        }
        Ok(())
    }

    // Puts a segment into the first free blocks.
    // Kept: that the slot is there is asked of private functions alone, which have it from `Place::index` or `check_slot`.
    fn fill(&mut self, slot: usize, number: usize, segment: Segment<&[u8]>)
        requires low { slot < slot_count }
        requires few { number < number_count }
        requires short { count (content segment) ≤ most_octets }
        requires vacant { holding self.old slot number ≡ None }
        requires room { blocks_for (count (content segment)) ≤ units_free pool_shape (holding self.old) }
        ensures { holding self.new ≡ with_segment (holding self.old) slot number (content segment.entry) }
    {
        let count = segment.octet_count();
        let cost = blocks_for(count);
        let mut joined = [0u8; MOST_OCTETS];
        segment.write_to(&mut joined);
        let first = self.free;
        self.free = self.chains.lay(first, &joined[..count]);
        let lengths = segment.lengths();
        self.places[slot * NUMBERS + number] = Some(Stored { lengths, first });
        self.held += cost;
        self.used[slot] += cost;
    }

    // Lets go of what one place holds: its chain is put before the free blocks.
    fn release(&mut self, slot: usize, number: usize)
        requires low { slot < slot_count }
        requires few { number < number_count }
        ensures { holding self.new ≡ replaced (holding self.old) slot number None }
    {
        let i = slot * NUMBERS + number;
        let Some(stored) = self.stored_at(i) else {
            return;
        };
        let cost = blocks_for(stored.lengths.count());
        self.chains.link_end(stored.first, cost, self.free);
        self.free = stored.first;
        self.places[i] = None;
        self.held -= cost;
        self.used[slot] -= cost;
    }

    // Lets go of what a slot holds.
    fn clear(&mut self, slot: usize)
        requires { slot < slot_count }
        ensures { holding self.new ≡ without_slot (holding self.old) slot }
    {
        // Kept: the number is what each step is given.
        for number in 0..NUMBERS {
            self.release(slot, number);
        }
    }
}

impl Store for Pool {
    ghost held = { holding };

    ghost shape = { λ _. pool_shape };

    ghost lawful = { λ s. Laws.lawful };

    ghost within = { λ s. s.within };

    ghost placed = { λ s slot number. all_placed (parts s.chains) (links s.chains) s.places slot number };

    #[tactic(auto, using(crate::proofs::Found::taken_at, crate::proofs::Found::vacant_at))]
    fn put(&mut self, place: Place, segment: Segment<&[u8]>) -> Result<(), StoreFault> {
        let i = place.index(SLOTS)?;
        let count = segment.octet_count();
        check_octets(count)?;
        check_vacant(self.stored_at(i).is_some())?;
        self.check_room(blocks_for(count))?;
        self.fill(place.slot, usize::from(place.number), segment);
        Ok(())
    }

    // Kept: `drop_slot`, `drop_all`, `units_of` and `is_held` are a few lines over what this store has of its own, as in the berths.
    fn drop_slot(&mut self, slot: usize) -> Result<(), StoreFault> {
        check_slot(SLOTS, slot)?;
        self.clear(slot);
        Ok(())
    }

    fn drop_all(&mut self) {
        // Kept: the slot is what each step is given.
        for slot in 0..SLOTS {
            self.clear(slot);
        }
    }

    fn slots(&self) -> usize {
        SLOTS
    }

    fn total(&self) -> usize {
        BLOCKS
    }

    fn cost(&self, octets: usize) -> Result<usize, StoreFault> {
        check_octets(octets)?;
        Ok(blocks_for(octets))
    }

    fn units_held(&self) -> usize {
        self.held
    }

    fn units_of(&self, slot: usize) -> Result<usize, StoreFault> {
        check_slot(SLOTS, slot)?;
        Ok(self.used[slot])
    }

    fn is_held(&self, place: Place) -> Result<bool, StoreFault> {
        Ok(self.find(place)?.is_some())
    }

    #[tactic(auto, using(crate::proofs::Held::lengths_laid))]
    fn lengths(&self, place: Place) -> Result<Lengths, StoreFault> {
        Ok(self.look_up(place)?.lengths)
    }

    #[tactic(auto, using(crate::proofs::Found::standing_gathered))]
    fn equals(&self, place: Place, segment: Segment<&[u8]>) -> Result<bool, StoreFault> {
        let stored = self.look_up(place)?;
        let count = stored.lengths.count();
        let mut joined = [0u8; MOST_OCTETS];
        self.chains.gather(stored.first, &mut joined[..count]);
        Ok(stored.lengths.equals(&joined, segment))
    }

    #[tactic(auto, using(crate::proofs::Held::count_laid, crate::proofs::Found::copied_gathered))]
    fn copy_out(&self, place: Place, memory: &mut [u8]) -> Result<(), StoreFault> {
        let stored = self.look_up(place)?;
        let count = stored.lengths.count();
        check_memory(memory, count)?;
        self.chains.gather(stored.first, &mut memory[..count]);
        Ok(())
    }
}
