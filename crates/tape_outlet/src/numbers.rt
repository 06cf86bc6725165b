// The numbers of the tape outlet, each in this one place.
// specs/Numbers.antt has the same for the contracts.

// The octets of its memory.
pub const TAPE_OCTETS: usize = 32_768;
