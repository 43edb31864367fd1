//! Times with a unit, as `33.3 ms` and `30 Hz`, in whole ticks.
#![tactic(auto)]

mod decimal;
mod ticks;
mod unit;

pub use ticks::{LONGEST_TICK, MOST_TICKS, Rounding, tick_of, ticks_of};
