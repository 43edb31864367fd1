//! The core of a Constant Bandwidth Server executor: servers with their jobs, the choice among them
//! by earliest deadline, and the clock.
#![tactic(auto)]

mod executor;
mod last_unit;
mod past;
mod server;
mod servers;
mod waits;

pub use cbs_rules::LIMIT;
pub use cbs_steps::{
    Charges, CoreError, Ran, Reply, ServerView, Step, StepsRefused, SubmitRefused,
};
pub use executor::{Core, MAX_BACKLOG};
pub use last_unit::LastUnit;
pub use past::{NotAState, Past};
