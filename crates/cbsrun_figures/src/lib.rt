//! The figures of a run: what each server was asked for and ran, how long its jobs took, and how many of them were
//! late.
#![tactic(auto)]

mod early;
mod figures;
mod job;
mod jobs;
mod ranks;
mod report;
mod sums;
mod tally;
mod throttled_ticks;

pub use figures::{Figures, Ranks};
pub use jobs::exceeds;
pub use report::Report;
