//! The numbers, names and texts of errors.

use super::{same, says};
use cbs_core::CoreError;

/// The number, the name and the text of each error.
static ERRORS: [(CoreError, u8, &str, &str); 7] = [
    (
        CoreError::BadBacklog,
        1,
        "BadBacklog",
        "the backlog is not within 1 to 4096 jobs",
    ),
    (CoreError::OutOfMemory, 2, "OutOfMemory", "out of memory"),
    (
        CoreError::NoSuchServer,
        3,
        "NoSuchServer",
        "there is no such server",
    ),
    (CoreError::Closed, 4, "Closed", "the server is closed"),
    (
        CoreError::BacklogFull,
        5,
        "BacklogFull",
        "the backlog of the server is full",
    ),
    (
        CoreError::ClockEnd,
        6,
        "ClockEnd",
        "the clock would pass 1000000000000 ticks",
    ),
    (
        CoreError::NotRunning,
        7,
        "NotRunning",
        "the server did not run the last unit, or other ticks have passed since",
    ),
];

#[test]
fn errors_say_what_is_wrong(rt: HostRuntime) {
    for &(error, number, name, text) in &ERRORS {
        same(&rt, name, (error.number(), error.name()), (number, name));
        says(&rt, rt.alloc(), &error, text);
    }
}
