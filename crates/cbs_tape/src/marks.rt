//! The first bytes of entries.

/// Nothing was written here. So a file of zeros has no entry.
pub const UNWRITTEN: u8 = 0;

/// Units in a row: how many follows, as a number. It is written of more than [`LONGEST_SHORT_ROW`].
pub const ROW: u8 = 1;

/// Ticks that passed: how many follows, as a number.
pub const TICKS: u8 = 2;

/// A server that was closed: the server follows, as a byte.
pub const CLOSE: u8 = 3;

/// The end of a tape that has each step.
pub const END: u8 = 4;

/// A job that server 0 accepted: its units follow, as a number. The bytes after this one are for the other servers.
pub const JOB: u8 = 64;

/// A charge of server 0: its ticks follow, as a number. The bytes after this one are for the other servers.
pub const CHARGE: u8 = 128;

/// No units: a row of 1 to 64 of them is this byte and as many more.
pub const SHORT_ROW: u8 = 191;

/// The longest row that is one byte.
pub const LONGEST_SHORT_ROW: u64 = 64;

/// How many servers there may be: each byte of a job or a charge names one of them.
pub const SERVERS: u8 = 64;

/// A number of 2 bytes follows. A number below this byte is a byte itself.
pub const TWO_BYTES: u8 = 253;

/// A number of 4 bytes follows.
pub const FOUR_BYTES: u8 = 254;

/// A number of 8 bytes follows.
pub const EIGHT_BYTES: u8 = 255;
