//! The reasons why a collector refuses.

ghost use Rattle.std.specs.Prelude.{◌≡◌};

use thiserror::Error;

/// The reason why a collector refuses a call.
#[derive(Clone, Copy, Debug, PartialEq, Eq, Error)]
pub enum CollectError {
    /// No server has that number.
    #[error("there is no such server")]
    Stranger = 1,
    /// The job's result was taken before.
    #[error("the result of the job was taken before")]
    Double = 2,
    /// The job is not the next one, or was not announced.
    #[error("the completion comes too early")]
    Early = 3,
    /// An allocation was refused.
    #[error("out of memory")]
    OutOfMemory = 4,
}

impl CollectError {
    ghost use Rattle.cbs_results.specs.Errors.{collect_error_number, collect_error_name};

    /// Returns the error's number, from 1.
    pub fn number(self) -> u8
        ensures { result ≡ collect_error_number self }
    {
        self as u8
    }

    /// Returns the error's name: that of its variant.
    pub fn name(self) -> &'static str
        ensures { result.now ≡ collect_error_name self }
    {
        match self {
            CollectError::Stranger => "Stranger",
            CollectError::Double => "Double",
            CollectError::Early => "Early",
            CollectError::OutOfMemory => "OutOfMemory",
        }
    }
}
