//! The entries of a tape.

/// An entry of a tape: a step that was made, or units in a row.
#[derive(Clone, Copy, Debug, PartialEq, Eq)]
pub enum Entry {
    /// A server accepted a job.
    Accepted {
        /// The server, below 64.
        server: u8,
        /// The units of the job.
        units: u32,
    },
    /// This many units ran, one after another: at least one.
    Units(u64),
    /// This many ticks passed.
    Advanced(u64),
    /// A server was charged for its last unit.
    Charged {
        /// The server, below 64.
        server: u8,
        /// The ticks that it was charged.
        ticks: u64,
    },
    /// This server, below 64, was closed.
    Closed(u8),
}

/// How the bytes of a tape end.
#[derive(Clone, Copy, Debug, PartialEq, Eq)]
pub enum Ending {
    /// By the mark of the end: the tape has each step that it was told.
    Marked,
    /// Without that mark, after an entry or within one: it may have been told more.
    Cut,
    /// By bytes that are no entry.
    Unknown,
}
