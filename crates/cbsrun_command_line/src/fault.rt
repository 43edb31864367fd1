//! Why the words of a command line make no request.

ghost use Rattle.std.specs.Prelude.{◌≡◌};
ghost use Rattle.cbsrun_command_line.specs.Faults.{words_fault_number, words_fault_name};
ghost use Rattle.cbsrun_command_line.specs.declared.fault.WordsFault.TheVariants.{OutOfMemory};

use std::alloc::AllocError;

/// The reason why the words make no request, with the text to print.
#[derive(Drop)]
pub enum WordsFault {
    /// The words are wrong. The text says what is wrong, and which words are right.
    Usage(String),
    /// The words ask for the help or the version. The text is the one asked for.
    Help(String),
    /// There was no memory to read the words.
    OutOfMemory,
}

impl WordsFault {
    /// Returns the fault's number, from 1.
    pub fn number(&self) -> u8
        ensures { result ≡ words_fault_number self.now }
    {
        match self {
            WordsFault::Usage(_) => 1,
            WordsFault::Help(_) => 2,
            WordsFault::OutOfMemory => 3,
        }
    }

    /// Returns the fault's name.
    pub fn name(&self) -> &'static str
        ensures { result.now ≡ words_fault_name self.now }
    {
        match self {
            WordsFault::Usage(_) => "Usage",
            WordsFault::Help(_) => "Help",
            WordsFault::OutOfMemory => "OutOfMemory",
        }
    }
}

impl From<AllocError> for WordsFault {
    ghost from_gives = { λ _ e. e ≡ OutOfMemory };

    fn from(_error: AllocError) -> WordsFault {
        WordsFault::OutOfMemory
    }
}
