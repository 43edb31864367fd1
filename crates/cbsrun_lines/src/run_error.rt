//! The reasons why a run ends early.

ghost use Rattle.std.specs.Prelude.{◌≡◌};
ghost use Rattle.cbsrun_lines.specs.declared.run_error.RunError.TheVariants.{OutOfMemory, WriteFault};

use std::alloc::AllocError;
use std::io;
use thiserror::Error;

/// The reason why a run ends early.
#[derive(Clone, Copy, Debug, PartialEq, Eq, Error)]
pub enum RunError {
    /// An allocation was refused: for the command line, the core or the house, a job, a result or a line.
    #[error("out of memory while running")]
    OutOfMemory = 1,
    /// A write failed, or took no byte.
    #[error("the output could not be written")]
    WriteFault = 2,
    /// The clock came to its end, and a job was unfinished.
    #[error("the clock came to its end with a job unfinished")]
    ClockEnd = 3,
    /// The clients did not send all jobs in the rounds that they are given.
    #[error("the clients did not send all in the rounds that they are given")]
    Stalled = 4,
}

impl RunError {
    ghost use Rattle.cbsrun_lines.specs.Writers.{run_error_number, run_error_name};

    /// Returns the error's number, from 1.
    pub fn number(self) -> u8
        ensures { result ≡ run_error_number self }
    {
        self as u8
    }

    /// Returns the error's name, as the program prints it.
    pub fn name(self) -> &'static str
        ensures { result.now ≡ run_error_name self }
    {
        match self {
            RunError::OutOfMemory => "OutOfMemory",
            RunError::WriteFault => "WriteFault",
            RunError::ClockEnd => "ClockEnd",
            RunError::Stalled => "Stalled",
        }
    }
}

impl From<AllocError> for RunError {
    ghost from_gives = { λ _ e. e ≡ OutOfMemory };

    fn from(_error: AllocError) -> RunError {
        RunError::OutOfMemory
    }
}

impl From<io::Error> for RunError {
    ghost from_gives = { λ _ e. e ≡ WriteFault };

    fn from(_error: io::Error) -> RunError {
        RunError::WriteFault
    }
}
