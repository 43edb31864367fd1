//! The reasons why the core refuses.

ghost use Rattle.std.specs.Prelude.{◌≡◌};

use thiserror::Error;

/// The reason why the core refuses a call.
#[derive(Clone, Copy, Debug, PartialEq, Eq, Error)]
pub enum CoreError {
    /// The backlog is not within 1 to 4096 jobs.
    #[error("the backlog is not within 1 to 4096 jobs")]
    BadBacklog = 1,
    /// An allocation was refused.
    #[error("out of memory")]
    OutOfMemory = 2,
    /// No server has that number.
    #[error("there is no such server")]
    NoSuchServer = 3,
    /// The server was closed.
    #[error("the server is closed")]
    Closed = 4,
    /// The server has as many unfinished jobs as it may have.
    #[error("the backlog of the server is full")]
    BacklogFull = 5,
    /// The clock would pass [`LIMIT`](cbs_rules::LIMIT).
    #[error("the clock would pass 1000000000000 ticks")]
    ClockEnd = 6,
    /// The server did not run the last unit, or a tick has passed since that was not charged for the unit.
    #[error("the server did not run the last unit, or other ticks have passed since")]
    NotRunning = 7,
}

impl CoreError {
    ghost use Rattle.cbs_steps.specs.Errors.{core_error_number, core_error_name};

    /// Returns the error's number, from 1.
    pub fn number(self) -> u8
        ensures { result ≡ core_error_number self }
    {
        self as u8
    }

    /// Returns the error's name: that of its variant.
    pub fn name(self) -> &'static str
        ensures { result.now ≡ core_error_name self }
    {
        match self {
            CoreError::BadBacklog => "BadBacklog",
            CoreError::OutOfMemory => "OutOfMemory",
            CoreError::NoSuchServer => "NoSuchServer",
            CoreError::Closed => "Closed",
            CoreError::BacklogFull => "BacklogFull",
            CoreError::ClockEnd => "ClockEnd",
            CoreError::NotRunning => "NotRunning",
        }
    }
}
