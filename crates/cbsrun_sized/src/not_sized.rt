//! Why a sketch could not be sized.

ghost use Rattle.std.specs.Prelude.{◌≡◌};
ghost use Rattle.cbsrun_sized.specs.declared.not_sized.NotSized.TheVariants.{OutOfMemory as NoMemory};

use cbsrun_toml_tables::FileFault;
use std::alloc::AllocError;

/// The reason why a sketch could not be sized.
#[derive(Drop)]
pub enum NotSized {
    /// There is no memory.
    OutOfMemory,
    /// The server has no reservation yet, and none that is looked at promises its jobs in time.
    NothingProposed {
        /// The number of the server.
        server: u16,
    },
    /// The load with all reservations is not admitted, as its text and the fault of that text say.
    NotAdmitted {
        /// The load file.
        text: String,
        /// Its fault.
        fault: FileFault,
    },
    /// The server has a reservation, which does not promise its jobs in time.
    NotPromised {
        /// The number of the server.
        server: u16,
    },
    /// The load file does not spell the sketch with all reservations. No sketch is known of which this is so.
    SpellsAnother,
}

impl From<AllocError> for NotSized {
    ghost from_gives = { λ _ not_sized. not_sized ≡ NoMemory };

    fn from(_error: AllocError) -> NotSized {
        NotSized::OutOfMemory
    }
}
