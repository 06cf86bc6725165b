// The numbers of the tape format, each in this one place.
// specs/Numbers.antt has the same for the contracts.

// The command octets.
pub const PRIMARY: u8 = 0x50;

pub const MESSAGE: u8 = 0x4D;

pub const DATA: u8 = 0x44;

// The octets of a primary command and of a message command.
pub const PRIMARY_OCTETS: usize = 58;

pub const MESSAGE_OCTETS: usize = 12;

// The octets that a data command carries, and those that it takes.
pub const DATA_OCTETS: usize = 32;

pub const DATA_COMMAND_OCTETS: usize = 34;

// The longest entry: a message command and 513 data commands.
pub const LONGEST_ENTRY: usize = 17_454;
