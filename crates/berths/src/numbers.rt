// The numbers of the berths, each in this one place.
// specs/Numbers.antt has the same for the contracts.

pub const SLOTS: usize = 3;

// 64 berths to a slot.
pub const BERTHS: usize = 192;

// The octets of a berth, of which a segment fills at most 256.
pub const BERTH_OCTETS: usize = 260;
