// A berth: memory for one segment.
ghost use Rattle.std.specs.Prelude.{◌≡◌, ◌≤◌, length};
ghost use Rattle.std.specs.Option.{option_map, unwrap_or};
ghost use Rattle.store.specs.Meaning.{count_of};
ghost use Rattle.store.specs.Numbers.{most_octets};
ghost use Rattle.berths.specs.Numbers.{berth_octets};

use crate::numbers::*;
use store::{Lengths, Segment};

// The lengths of the segment that is held, and its octets: message, then area.
// Kept: a store has no heap, so the octets are fixed memory with the lengths beside.
#[derive(Clone, Copy)]
pub struct Berth {
    lengths: Option<Lengths>,
    octets: [u8; BERTH_OCTETS],
    ghost full: { length octets ≡ berth_octets },
    ghost short: { unwrap_or (option_map count_of lengths) 0 ≤ most_octets },
}

impl Berth {
    ghost use Rattle.std.specs.Prelude.{Some, None};
    ghost use Rattle.store.specs.Meaning.{content, count};
    ghost use Rattle.berths.specs.Berthed.{lies, taken};

    // A berth that holds nothing.
    pub fn vacant() -> Berth
        ensures { lies result ≡ None }
    {
        Berth {
            lengths: None,
            octets: [0; BERTH_OCTETS],
        }
    }

    // Whether a segment is held.
    pub fn is_taken(&self) -> bool
        ensures { result ≡ taken self.now }
    {
        self.lengths.is_some()
    }

    // The segment that is held, if there is one.
    pub fn segment(&self) -> Option<Segment<&[u8]>>
        ensures { option_map content result ≡ lies self.now }
    {
        self.lengths.map(|lengths| lengths.segment_in(&self.octets))
    }

    // Holds a segment from now on.
    pub fn lay(&mut self, segment: Segment<&[u8]>)
        requires { count (content segment) ≤ most_octets }
        ensures { lies self.new ≡ Some (content segment.entry) }
    {
        self.lengths = Some(segment.lengths());
        segment.write_to(&mut self.octets);
    }

    // Holds nothing from now on.
    pub fn clear(&mut self)
        ensures { lies self.new ≡ None }
    {
        self.lengths = None;
    }
}
