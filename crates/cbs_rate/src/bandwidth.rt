//! Parts of the processor's time.

/// A part of the processor's time: `ticks` in every `of` ticks. The fraction may be reducible.
#[derive(Clone, Copy, Debug, PartialEq, Eq)]
pub struct Bandwidth {
    /// The ticks that may be taken.
    pub ticks: u64,
    /// The ticks in which they may be taken, 1 or more.
    pub of: u64,
}
