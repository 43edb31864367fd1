//! Why there is no record of a run.

ghost use Rattle.std.specs.Prelude.{◌≡◌};
ghost use Rattle.cbsrun_run_records.specs.declared.not_recorded.NotRecorded.TheVariants.{OutOfMemory as NoMemory};

use std::alloc::AllocError;
use thiserror::Error;

/// The reason why there is no record of a run.
#[derive(Clone, Copy, Debug, PartialEq, Eq, Error)]
pub enum NotRecorded {
    /// There is no memory.
    #[error("out of memory")]
    OutOfMemory,
    /// The record would be longer than the program reads.
    #[error("its record would be longer than cbsrun reads")]
    TooLong,
    /// The record does not spell the run. No run is known of which this is so.
    #[error("its record cannot be spelled")]
    SpellsAnother,
}

impl From<AllocError> for NotRecorded {
    ghost from_gives = { λ _ e. e ≡ NoMemory };

    fn from(_error: AllocError) -> NotRecorded {
        NotRecorded::OutOfMemory
    }
}
