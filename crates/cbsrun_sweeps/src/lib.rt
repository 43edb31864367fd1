//! Many runs of a load, with one seed after another: what they tell of each server.
#![tactic(auto)]

mod server;
mod sweep;

pub use server::{ServerSweep, Worst};
pub use sweep::{MOST_RUNS, Sweep, sweep_of};
