// A store whose segments lie in chains of small blocks, which all slots share.
#![tactic(auto)]

ghost use Rattle.std.specs.Prelude.{◌≡◌, ◌≤◌, length};
ghost use Rattle.store.specs.Meaning.{Counted};
ghost use Rattle.pool.specs.Numbers.{slot_count, place_count, block_count, blocks_for};
ghost use Rattle.pool.specs.Chains.{links, parts, held_in, in_use, head, size, Apart};

use crate::blocks::{Blocks, Link};
use crate::numbers::*;
use crate::stored::Stored;

mod blocks;
mod calls;
pub mod numbers;
mod stored;

// What stands at each place, the blocks of all places, the first free block,
// and the blocks in use, of all slots and of each. The free blocks are a chain.
#[derive(Drop)]
pub struct Pool {
    places: [Option<Stored>; PLACES],
    chains: Blocks,
    free: Link,
    held: usize,
    used: [usize; SLOTS],
    ghost all: { length places ≡ place_count },
    ghost slots: { length used ≡ slot_count },
    ghost kept: { held ≡ in_use (parts chains) (links chains) places },
    ghost within: { in_use (parts chains) (links chains) places ≤ block_count },
    ghost apart: { Apart (links chains) (head places free.block) (size places (in_use (parts chains) (links chains) places)) },
    ghost counted: { Counted blocks_for (held_in (parts chains) (links chains) places) used },
}
