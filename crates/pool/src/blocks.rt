// Blocks of octets, linked into chains.
ghost use Rattle.std.specs.Prelude.{◌≡◌, ◌<◌, length};
ghost use Rattle.pool.specs.Numbers.{block_count, block_octets, blocks_for};

use crate::numbers::*;
use octets::put;
use std::array;

// The number of a block.
#[derive(Clone, Copy)]
pub(crate) struct Link {
    block: u16,
    ghost there: { block < block_count },
}

// Octets of a segment, and the link to the block after them in the chain.
#[derive(Clone, Copy)]
struct Block {
    octets: [u8; BLOCK_OCTETS],
    next: Link,
    ghost long: { length octets ≡ block_octets },
}

// All blocks of a pool.
// Kept: links by index, in fixed memory, are a rule of the project: a store has no heap.
#[derive(Drop)]
pub(crate) struct Blocks {
    blocks: [Block; BLOCKS],
    ghost all: { length blocks ≡ block_count },
}

// The blocks for so many octets.
pub(crate) fn blocks_for(octets: usize) -> usize
    ensures { result ≡ blocks_for octets }
{
    octets.div_ceil(BLOCK_OCTETS).max(1)
}

impl Link {
    pub(crate) fn to(block: usize) -> Link
        requires { block < block_count }
        ensures { result.block ≡ block }
    {
        Link {
            block: block as u16,
        }
    }

    fn index(self) -> usize
        ensures { result ≡ self.block }
    {
        usize::from(self.block)
    }
}

impl Block {
    ghost use Rattle.std.specs.Prelude.{◌≤◌};
    ghost use Rattle.octets.specs.Octets.{written};

    // Writes octets at the start of the block.
    fn write(&mut self, part: &[u8])
        requires { length part.now ≤ block_octets }
        ensures octets { self.new.octets ≡ written 0 part.now self.old.octets }
        ensures next { self.new.next ≡ self.old.next }
    {
        put(&mut self.octets, 0, part);
    }
}

impl Blocks {
    ghost use Rattle.std.specs.Prelude.{ℕ, ◌+◌, ◌-◌, ◌≤◌, ◌%◌, take, slice_index, slice_set};
    ghost use Rattle.octets.specs.Octets.{written};
    ghost use Rattle.pool.specs.Chains.{links, parts, block, walk, gathered, Straight, Laid};

    // Blocks that are linked one after the other.
    pub(crate) fn new() -> Blocks
        ensures { (b : ℕ) → b + 1 < block_count → slice_index (links result) b ≡ b + 1 }
    {
        Blocks {
            blocks: array::from_fn(
                |b: usize| -> Block
                    requires { b < block_count }
                    ensures { result.next.block ≡ (b + 1) % block_count }
                {
                    Block {
                        octets: [0; BLOCK_OCTETS],
                        next: Link::to((b + 1) % BLOCKS),
                    }
                },
            ),
        }
    }

    // The block that is reached from the first one after so many links.
    fn follow(&self, first: Link, count: usize) -> Link
        ensures { result.block ≡ walk (links self.now) first.block count }
    {
        let mut link = first;
        for _ in 0..count {
            link = self.blocks[link.index()].next;
        }
        link
    }

    // Links the last block of a chain to another block.
    pub(crate) fn link_end(&mut self, first: Link, count: usize, to: Link)
        requires { 1 ≤ count }
        ensures linked { links self.new ≡ slice_set (links self.old) (walk (links self.old) first.block (count - 1)) to.block }
        ensures same { parts self.new ≡ parts self.old }
    {
        let last = self.follow(first, count - 1);
        self.blocks[last.index()].next = to;
    }

    // Writes octets at the start of a block, and answers its link.
    fn write(&mut self, link: Link, part: &[u8]) -> Link
        requires { length part.now ≤ block_octets }
        ensures next { result.block ≡ slice_index (links self.old) link.block }
        ensures same { links self.new ≡ links self.old }
        ensures octets { parts self.new ≡ slice_set (parts self.old) link.block (written 0 part.now (block (parts self.old) link.block)) }
    {
        let blocks = &mut self.blocks;
        let block = &mut blocks[link.index()];
        block.write(part);
        block.next
    }

    // Puts a segment's octets into the first blocks of a chain, and answers
    // the link to the block after them.
    pub(crate) fn lay(&mut self, first: Link, segment: &[u8]) -> Link
        requires { Straight (links self.old) first.block (blocks_for (length segment.now)) }
        ensures rest { result.block ≡ walk (links self.old) first.block (blocks_for (length segment.now)) }
        ensures same { links self.new ≡ links self.old }
        ensures laid { Laid (parts self.old) (parts self.new) (links self.old) first.block segment.now (blocks_for (length segment.now)) }
    {
        let mut link = first;
        for part in segment.chunks(BLOCK_OCTETS) {
            link = self.write(link, part);
        }
        // a segment without octets has a block too
        if segment.is_empty() {
            return self.follow(first, 1);
        }
        link
    }

    // Fills the memory with the first octets of a chain.
    pub(crate) fn gather(&self, first: Link, memory: &mut [u8])
        ensures { memory.new ≡ take (length memory.old) (gathered (parts self.now) (links self.now) first.block (blocks_for (length memory.old))) }
    {
        let count = memory.len();
        let mut link = first;
        // Kept: by index, since after `chunks_mut` nothing is known of the octets.
        for i in 0..count.div_ceil(BLOCK_OCTETS) {
            let block = &self.blocks[link.index()];
            let start = i * BLOCK_OCTETS;
            let size = BLOCK_OCTETS.min(count - start);
            put(memory, start, &block.octets[..size]);
            link = block.next;
        }
    }
}
