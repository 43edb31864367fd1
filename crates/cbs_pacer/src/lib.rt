//! A house in real time, by a clock that is read to it: what its host is to do next. No clock is
//! read here, and nobody sleeps.
//!
//! Times and readings are in nanoseconds.
#![tactic(auto)]

mod asking;
mod next;
mod pacer;
mod theorem;

pub use cbs_pace::{Counts, Pace, Rounding, Tick};
pub use next::Next;
pub use pacer::Pacer;
pub use theorem::all_in_time;
