//! A limit that several crates share. This is the lowest crate that can define it.

/// The greatest number of messages for which a ring may be opened.
pub const MAX_RING: u64 = 1024;
