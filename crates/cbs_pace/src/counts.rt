//! What was seen.

/// What was seen of a house by the readings of a clock. A count that would be more than `u64::MAX`
/// stays at `u64::MAX`.
#[repr(C)]
#[derive(Clone, Copy, Debug, PartialEq, Eq)]
pub struct Counts {
    /// How many units were done.
    pub units: u64,
    /// How many of them took longer than a tick.
    pub overruns: u64,
    /// The time that the longest of them took, in nanoseconds.
    pub longest: u64,
    /// How many ticks were charged for overruns.
    pub charged: u64,
    /// By how many whole ticks the house's clock was behind when this was noted last.
    pub behind: u64,
    /// The most whole ticks by which it was behind when this was noted.
    pub most_behind: u64,
}
