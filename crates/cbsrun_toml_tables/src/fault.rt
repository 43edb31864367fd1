//! The faults of a file, and their places.

ghost use Rattle.std.specs.Prelude.{◌≡◌};
ghost use Rattle.cbsrun_toml_tables.specs.Faults.{file_kind_number, file_kind_name};
ghost use Rattle.cbsrun_toml_tables.specs.declared.fault.FileKind.TheVariants.{OutOfMemory};

use std::alloc::{AllocError, AllocFailed};
use std::fmt;
use thiserror::Error;

/// The kind of a file's fault.
#[derive(Clone, Copy, Debug, PartialEq, Eq, Error)]
pub enum FileKind {
    /// The bytes are no TOML document, or no UTF-8.
    #[error("this is no TOML document")]
    NotToml = 1,
    /// A table has a key that it may not have.
    #[error("a key is not one of this table's keys")]
    UnknownKey = 2,
    /// A table lacks a key.
    #[error("a key of this table is missing")]
    MissingKey = 3,
    /// A value is of another type than its key needs.
    #[error("a value has the wrong type")]
    WrongType = 4,
    /// A value is not in its key's range.
    #[error("a value is out of range")]
    OutOfRange = 5,
    /// The plan does not take the server.
    #[error("the plan does not take this server: too many, too fine periods, or over the bound")]
    NotAdmitted = 6,
    /// There was no memory to read the file.
    #[error("out of memory")]
    OutOfMemory = 7,
}

impl FileKind {
    /// Returns the kind's number, from 1.
    pub fn number(self) -> u8
        ensures { result ≡ file_kind_number self }
    {
        self as u8
    }

    /// Returns the kind's name, as the program prints it.
    pub fn name(self) -> &'static str
        ensures { result.now ≡ file_kind_name self }
    {
        match self {
            FileKind::NotToml => "NotToml",
            FileKind::UnknownKey => "UnknownKey",
            FileKind::MissingKey => "MissingKey",
            FileKind::WrongType => "WrongType",
            FileKind::OutOfRange => "OutOfRange",
            FileKind::NotAdmitted => "NotAdmitted",
            FileKind::OutOfMemory => "OutOfMemory",
        }
    }
}

impl From<AllocError> for FileKind {
    ghost from_gives = { λ _ e. e ≡ OutOfMemory };

    fn from(_error: AllocError) -> FileKind {
        FileKind::OutOfMemory
    }
}

impl<T: Drop> From<AllocFailed<T>> for FileKind {
    ghost from_gives = { λ _ e. e ≡ OutOfMemory };

    fn from(_error: AllocFailed<T>) -> FileKind {
        FileKind::OutOfMemory
    }
}

/// The table of a file in which a fault stands.
#[derive(Clone, Copy, Debug, PartialEq, Eq)]
pub enum Place {
    /// The top table.
    Top,
    /// The entry of `server` with this number, from 0.
    Server(u64),
    /// The entry of `step` with this number, from 0.
    Step(u64),
    /// The entry of `source` with this number, from 0.
    Source(u64),
}

impl fmt::Display for Place {
    ghost use Rattle.std.specs.Prelude.{Some};
    ghost use Rattle.cbsrun_toml_tables.specs.Faults.{place_text};

    ghost output = { λ p. Some (place_text p) };

    fn fmt<W: fmt::Write>(&self, f: &mut fmt::Formatter<W>) -> fmt::Result {
        match self {
            Place::Top => write!(f, "top"),
            Place::Server(i) => write!(f, "server {i}"),
            Place::Step(i) => write!(f, "step {i}"),
            Place::Source(i) => write!(f, "source {i}"),
        }
    }
}

/// The first fault of a file. The place of out of memory is always the top.
#[derive(Clone, Copy, Debug, PartialEq, Eq, Error)]
#[error("{kind}, at {place}")]
pub struct FileFault {
    /// The kind of the fault.
    pub kind: FileKind,
    /// The table in which the fault stands.
    pub place: Place,
}
