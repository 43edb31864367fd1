//! The texts of errors.

use super::says;
use cbsrun_commands::{ReadError, RunError};
use cbsrun_tasks::FileKind;

/// The text of each fault of a file.
static OF_FILES: [(FileKind, &str); 7] = [
    (FileKind::NotToml, "this is no TOML document"),
    (
        FileKind::UnknownKey,
        "a key is not one of this table's keys",
    ),
    (FileKind::MissingKey, "a key of this table is missing"),
    (FileKind::WrongType, "a value has the wrong type"),
    (FileKind::OutOfRange, "a value is out of range"),
    (
        FileKind::NotAdmitted,
        "the plan does not take this server: too many, too fine periods, or over the bound",
    ),
    (FileKind::OutOfMemory, "out of memory"),
];

#[test]
fn files_say_what_is_wrong(rt: HostRuntime) {
    for (kind, text) in &OF_FILES {
        says(&rt, rt.alloc(), kind, text);
    }
}

/// The text of each error of a read.
static OF_READS: [(ReadError, &str); 3] = [
    (ReadError::OutOfMemory, "out of memory while reading"),
    (ReadError::ReadFault, "a read failed"),
    (ReadError::TooLarge, "there are more than 16777216 bytes"),
];

/// The text of each error of a run.
static OF_RUNS: [(RunError, &str); 4] = [
    (RunError::OutOfMemory, "out of memory while running"),
    (RunError::WriteFault, "the output could not be written"),
    (
        RunError::ClockEnd,
        "the clock came to its end with a job unfinished",
    ),
    (
        RunError::Stalled,
        "the clients did not send all in the rounds that they are given",
    ),
];

#[test]
fn reads_and_runs_say_what_is_wrong(rt: HostRuntime) {
    for (error, text) in &OF_READS {
        says(&rt, rt.alloc(), error, text);
    }
    for (error, text) in &OF_RUNS {
        says(&rt, rt.alloc(), error, text);
    }
}
