//! The pace of a house: which of its ticks have come, by a clock that is read to it, and what a
//! unit is charged for the time that it took. No clock is read here, and nobody sleeps.
//!
//! Times and readings are in nanoseconds.
#![tactic(auto)]

mod counts;
mod pace;
mod rounding;
mod theorem;
mod tick;
mod watch;

pub use counts::Counts;
pub use pace::Pace;
pub use rounding::Rounding;
pub use theorem::all_paid;
pub use tick::Tick;
pub use watch::Watch;
