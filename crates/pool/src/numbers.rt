// The numbers of the pool, each in this one place.
// specs/Numbers.antt has the same for the contracts.

pub const SLOTS: usize = 9;

// 64 places to a slot.
pub const PLACES: usize = 576;

pub const BLOCKS: usize = 512;

pub const BLOCK_OCTETS: usize = 32;
