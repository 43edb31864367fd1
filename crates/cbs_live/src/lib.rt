//! Live figures of a house: of the jobs and the units of each server as the house runs, in a memory
//! that stays the same.
//!
//! Times are in nanoseconds, by the host's clock. Ticks are those of the house's clock.
#![tactic(auto)]

mod figures;
mod late;
mod spread;

pub use figures::{Ended, Figures};
pub use late::Told;
pub use spread::Spread;
