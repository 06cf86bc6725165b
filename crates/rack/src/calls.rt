// The calls of the rack.
ghost use Rattle.std.specs.Prelude.{◌≡◌, ◌≤◌, true, List, [], length};
ghost use Rattle.std.specs.List.{slice_get};
ghost use Rattle.std.specs.Option.{option_map};
ghost use Rattle.octets.specs.Octets.{written};
ghost use Rattle.warning.specs.Contents.{octets};
ghost use Rattle.warning.specs.Meaning.{said};
ghost use Rattle.warning.specs.Notice.{outline};
ghost use Rattle.warning.specs.Numbers.{most_octets};
ghost use Rattle.warning.specs.Rules.{is_warning};
ghost use Rattle.rack.specs.Numbers.{rack_room};
ghost use Rattle.rack.specs.Holding.{lies, holding};
ghost use Rattle.rack.specs.Laws;
ghost use Rattle.rack.specs.Laws.{costs_within, warnings_held};

use crate::numbers::*;
use crate::{Place, Rack};
use octets::put;
use outlet::standing::{check_buffer, lay, octet_count};
use outlet::{Outlet, OutletFault};
use warning::numbers::*;
use warning::{Outline, Pair, Warning, WarningFault};

impl Place {
    // A place before its first warning.
    fn new() -> Place {
        Place {
            outline: Outline::Primary {
                pair: Pair {
                    identifier: 0,
                    serial: 0,
                },
                warning_type: 0,
                security: None,
            },
            octets: [0; MOST_OCTETS],
        }
    }

    // Keeps a warning here.
    fn keep(&mut self, w: Warning<&[u8]>)
        requires { is_warning (outline (said w)) ≡ true }
        ensures { lies self.new ≡ said w.entry }
    {
        lay(&mut self.octets, w);
        self.outline = w.outline();
    }

    // Copies the octets of the warning here to the start of the buffer.
    fn copy(&self, buffer: &mut [u8])
        requires { most_octets ≤ length buffer.old }
        ensures { buffer.new ≡ written 0 (octets (lies self.now)) buffer.old }
    {
        let count = octet_count(self.outline);
        put(buffer, 0, &self.octets[..count]);
    }
}

impl Rack {
    // A rack that holds nothing.
    pub fn new() -> Rack
        ensures { holding result ≡ [] }
    {
        Rack {
            places: [Place::new(); PLACES],
            oldest: 0,
            count: 0,
        }
    }

    // The place of the oldest warning, if there is one.
    fn first_place(&self) -> Option<&Place>
        ensures { option_map (λ place. lies place.now) result ≡ slice_get (holding self.now) 0 }
    {
        if self.count == 0 {
            None
        } else {
            Some(&self.places[self.oldest])
        }
    }
}

impl Outlet for Rack {
    ghost warnings = { holding };

    ghost room = { λ _. rack_room };

    ghost lawful = { λ s. Laws.lawful };

    ghost within = { costs_within };

    ghost right = { warnings_held };

    fn give(&mut self, w: Warning<&[u8]>) -> Result<(), OutletFault> {
        w.judge()?;
        let free = self.free();
        if free < COST {
            return Err(OutletFault::Full { cost: COST, free });
        }
        let i = (self.oldest + self.count) % PLACES;
        let places = &mut self.places;
        places[i].keep(w);
        self.count += 1;
        Ok(())
    }

    fn take(&mut self, buffer: &mut [u8]) -> Result<Outline, OutletFault> {
        check_buffer(buffer)?;
        let place = self.first_place().ok_or(OutletFault::Empty)?;
        let outline = place.outline;
        place.copy(buffer);
        self.oldest = (self.oldest + 1) % PLACES;
        self.count -= 1;
        Ok(outline)
    }

    fn first(&self) -> Option<Outline> {
        self.first_place().map(|place| place.outline)
    }

    fn free(&self) -> usize {
        PLACES - self.count
    }

    fn cost(&self, outline: Outline) -> Result<usize, WarningFault> {
        outline.judge()?;
        Ok(COST)
    }
}
