//! The replies to steps.

use crate::error::CoreError;
use cbs_job::{Completion, Task, Work};

/// A job that was not accepted, handed back.
#[derive(Drop)]
pub struct SubmitRefused<W: Work> {
    /// The reason of the refusal.
    pub error: CoreError,
    /// The job, as it was given.
    pub task: Task<W>,
}

/// The result of a run step.
#[derive(Clone, Copy, Debug, PartialEq, Eq)]
pub enum Ran {
    /// No server is ready. Nothing changed.
    Idle,
    /// The clock stands at its end. Nothing changed.
    ClockEnd,
    /// One unit of job `seq` of `server`, not its last.
    Unit {
        /// The chosen server.
        server: u16,
        /// The job's number among the accepted jobs of its server, from 0.
        seq: u64,
    },
    /// The last unit of a job.
    Done(Completion),
}

/// The reply to a step.
#[derive(Drop)]
pub enum Reply<W: Work> {
    /// The submit was accepted, as the job of this number.
    Accepted(u64),
    /// The submit was refused.
    NotAccepted(SubmitRefused<W>),
    /// The result of a run step.
    Ran(Ran),
    /// The ticks passed.
    Advanced,
    /// The server is closed from then on.
    Closed,
    /// The server was charged, and the ticks passed.
    Charged,
    /// The advance, the close or the charge was refused.
    Refused(CoreError),
}
