// The numbers of the lists, each in this one place.
// specs/Numbers.antt has the same for the contracts.

// How many warnings can be open.
pub const OPEN_CAPACITY: usize = 8;

// How many primaries can be remembered, and how many of them for one network.
pub const REMEMBERED_CAPACITY: usize = 12;

pub const MOST_OF_NETWORK: usize = 2;

// The seconds after which an entry goes.
pub const EXPIRY_PERIOD: u32 = 10_800;
