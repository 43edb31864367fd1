//! Recorded runs: what a core does that makes the steps of a tape.
#![tactic(auto)]

mod held;
mod theorem;

pub use held::{advance_told, charge_told, close_told, finish_told, run_told, submit_told};
pub use theorem::all_as_it_was;
