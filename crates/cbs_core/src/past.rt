//! What a server keeps through a run, but for its unfinished jobs.

use cbs_rules::ServerState;
use cbs_steps::Charges;

/// What a server keeps through a run, but for its unfinished jobs.
#[derive(Clone, Copy)]
pub struct Past {
    /// Its reservation, budget, deadline, mark and overrun.
    pub state: ServerState,
    /// What it was charged.
    pub charges: Charges,
    /// Whether it was closed.
    pub closed: bool,
    /// How many of its jobs are finished.
    pub finished: u64,
}

/// The refusal of a state that no core has in the midst of a run.
#[derive(Clone, Copy, Debug, PartialEq, Eq)]
pub struct NotAState;
