//! Fractions of the processor's time.

/// A part of the processor's time, exactly: `part` of `whole`. The fraction may be reducible.
#[derive(Clone, Copy, Debug, PartialEq, Eq)]
pub struct Ratio {
    /// The part.
    pub part: u128,
    /// The whole that it is a part of, 1 or more.
    pub whole: u128,
}
