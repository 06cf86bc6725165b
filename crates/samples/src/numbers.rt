// The numbers of the samples, each in this one place.

// What each octet of a memory is before a call writes there.
pub const UNTOUCHED: u8 = 238;

// How far the seeds of message and area are apart.
pub const AREA_SEED: usize = 100;
