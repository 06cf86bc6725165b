// The numbers of the rules, each in this one place.
// specs/Numbers.antt has the same for the contracts.

// The segment numbers of a slot: 0 to 63.
pub const NUMBERS: usize = 64;

// Message and area octets of one segment together.
pub const MOST_OCTETS: usize = 256;
