//! Work that may be submitted.

ghost use Rattle.std.specs.Prelude.{◌≡◌, ◌<◌, ◌≤◌, IfOk, IfErr};
ghost use Rattle.cbs_rate.specs.Refusals.{HandsBackBy};
ghost use Rattle.cbs_rate.specs.Limits.{most_units};

use crate::running::Running;
use crate::work::Work;
use std::marker::Model;
use thiserror::Error;

/// The most units that a job may have.
pub const MAX_UNITS: u32 = 1_000_000;

/// Work with 1 to [`MAX_UNITS`] units left that was not started: it has no `step`.
#[derive(Drop)]
pub struct Task<W: Work> {
    work: W,
}

impl<W: Work> Model for Task<W> {
    ghost Value = { W };

    ghost view = { λ t. t.work };

    ghost invariant = { λ t. (0 < W.meaning.left t.work) × (W.meaning.left t.work ≤ most_units) };
}

/// The reason why work makes no task.
#[derive(Clone, Copy, Debug, PartialEq, Eq, Error)]
pub enum TaskError {
    /// No unit is left: there is nothing to run.
    #[error("the job is empty: a job has at least 1 unit")]
    EmptyJob = 1,
    /// More than [`MAX_UNITS`] units are left.
    #[error("the job is too long: a job has at most 1000000 units")]
    TooLong = 2,
}

impl TaskError {
    ghost use Rattle.cbs_job.specs.Tasks.{task_error_number, task_error_name};

    /// Returns the error's number, from 1.
    pub fn number(self) -> u8
        ensures { result ≡ task_error_number self }
    {
        self as u8
    }

    /// Returns the error's name: that of its variant.
    pub fn name(self) -> &'static str
        ensures { result.now ≡ task_error_name self }
    {
        match self {
            TaskError::EmptyJob => "EmptyJob",
            TaskError::TooLong => "TooLong",
        }
    }
}

/// Work that made no task, handed back.
#[derive(Drop)]
pub struct TaskRefused<W: Work> {
    /// The reason of the refusal.
    pub error: TaskError,
    /// The work, as it was given.
    pub work: W,
}

impl<W: Work> Task<W> {
    ghost use Rattle.cbs_job.specs.Tasks.{task_refusal};

    /// Returns the task of some work.
    ///
    /// Refuses work with no unit left by [`TaskError::EmptyJob`], and work with more than [`MAX_UNITS`] units left by
    /// [`TaskError::TooLong`]. A refusal hands the work back as it was.
    pub fn new(work: W) -> Result<Task<W>, TaskRefused<W>>
        ensures ok { IfOk result (λ task. task ≡ work) }
        ensures back { IfErr result (λ refused. refused.work ≡ work) }
        ensures refusal { HandsBackBy (λ refused.
            refused.error) result (task_refusal (W.meaning.left work)) }
    {
        let left = work.left();
        if left == 0 {
            return Err(TaskRefused {
                error: TaskError::EmptyJob,
                work,
            });
        }
        if left > MAX_UNITS {
            return Err(TaskRefused {
                error: TaskError::TooLong,
                work,
            });
        }
        Ok(Task { work })
    }

    /// Returns how many units are left: 1 to [`MAX_UNITS`].
    pub fn left(&self) -> u32
        ensures value { result ≡ W.meaning.left self.now }
        ensures some { 0 < result }
        ensures few { result ≤ most_units }
    {
        self.work.left()
    }

    /// Starts the task: returns the same work, which may now be stepped.
    pub fn start(self) -> Running<W>
        ensures work { result ≡ self }
        ensures some { 0 < W.meaning.left self }
    {
        Running::of(self.work)
    }
}
