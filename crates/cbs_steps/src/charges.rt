//! The ticks that a server was charged.

/// The ticks that a server was charged for units that took longer than one tick.
#[derive(Clone, Copy, Debug, PartialEq, Eq)]
pub struct Charges {
    /// All ticks charged.
    pub total: u64,
    /// The most ticks charged for one unit.
    pub most: u64,
}
