//! The steps of an executor.

use cbs_job::{Task, Work};
use std::alloc::{Allocator, Global};

/// One step: a request to the core.
#[derive(Drop)]
pub enum Step<W: Work> {
    /// A submit of a job to a server.
    Submit(u16, Task<W>),
    /// A run of one unit of one job, which takes one tick.
    Run,
    /// An advance of the clock by this many ticks.
    Advance(u64),
    /// The close of a server, which then accepts no further job.
    Close(u16),
    /// A charge of a server for the ticks that its last unit took after its first tick. As many ticks pass.
    Charge(u16, u64),
}

/// Steps that were refused because the executor was out of memory, handed back.
#[derive(Drop)]
pub struct StepsRefused<W: Work, A: Allocator = Global> {
    /// The steps, as they were given.
    pub steps: Vec<Step<W>, A>,
}
