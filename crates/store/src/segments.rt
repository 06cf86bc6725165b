// Segments in memory: the message stands first, and then the area.
ghost use Rattle.std.specs.Prelude.{◌≡◌, ◌≤◌, length};
ghost use Rattle.store.specs.Meaning.{content, count, count_of, lengths_of, same, spread, standing};

use crate::{Lengths, Segment};
use octets::put;

impl Segment<&[u8]> {
    // Message and area octets together.
    pub fn octet_count(self) -> usize
        ensures { result ≡ count (content self.entry) }
    {
        self.message.len() + self.area.unwrap_or(&[]).len()
    }

    // Kept: two parts and one use; a map that takes a closure would be longer.
    pub fn lengths(self) -> Lengths
        ensures { result ≡ lengths_of (content self.entry) }
    {
        Segment {
            message: self.message.len(),
            area: self.area.map(|octets| octets.len()),
        }
    }

    // Writes the segment to the start of the memory, where it has to fit.
    pub fn write_to(self, memory: &mut [u8])
        requires { count (content self) ≤ length memory.old }
        ensures { memory.new ≡ spread (content self.entry) memory.old }
    {
        let next = put(memory, 0, self.message);
        put(memory, next, self.area.unwrap_or(&[]));
    }
}

impl Lengths {
    // Message and area octets together.
    pub fn count(self) -> usize
        requires { count_of self ≤ 256 }
        ensures { result ≡ count_of self }
    {
        self.message + self.area.unwrap_or(0)
    }

    // The segment of these lengths that stands at the start of the octets.
    pub fn segment_in(self, octets: &[u8]) -> Segment<&[u8]>
        requires { count_of self ≤ length octets.now }
        ensures { content result ≡ standing self octets.now }
    {
        Segment {
            message: &octets[..self.message],
            area: self
                .area
                .map(|length| &octets[self.message..self.message + length]),
        }
    }

    // Whether the segment of these lengths that stands at the start of the
    // octets equals the given one.
    pub fn equals(self, octets: &[u8], segment: Segment<&[u8]>) -> bool
        requires { count_of self ≤ length octets.now }
        ensures { result ≡ same (standing self octets.now) (content segment.entry) }
    {
        self.segment_in(octets) == segment
    }
}
