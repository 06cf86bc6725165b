// The numbers of the rack, each in this one place.
// specs/Numbers.antt has the same for the contracts.

pub const PLACES: usize = 3;

// The units that a warning costs, whatever its octets.
pub const COST: usize = 1;
