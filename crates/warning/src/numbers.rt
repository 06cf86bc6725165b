// The numbers of the rules, each in this one place.
// specs/Numbers.antt has the same for the contracts.

// The blocks whose warnings are messages: the secondary notification of ETWS,
// which has no area, and the notifications of CMAS in LTE and in NR cells.
pub const ETWS_SECONDARY: u8 = 11;

pub const CMAS_LTE: u8 = 12;

pub const CMAS_NR: u8 = 8;

// Message and area octets of one warning together.
pub const MOST_OCTETS: usize = 16_384;

// The octets of security information, where a primary has any.
pub const SECURITY_OCTETS: usize = 50;

// The octets that name the radio of a cell.
pub const RADIO_LTE: u8 = 4;

pub const RADIO_NR: u8 = 5;

// A mobile country code has at most three digits.
pub const MOST_MCC: u16 = 999;
