//! Tests of the texts of the errors.

use super::{same, says};
use cbs_house::{CollectError, HouseError, SendError};

/// The number, the name and the text of each error of a house.
static OF_HOUSES: [(HouseError, u8, &str, &str); 7] = [
    (
        HouseError::BadBacklog,
        1,
        "BadBacklog",
        "the backlog is not within 1 to 4096 jobs",
    ),
    (
        HouseError::BadRing,
        2,
        "BadRing",
        "the ring is not within 1 to 1024 messages",
    ),
    (HouseError::OutOfMemory, 3, "OutOfMemory", "out of memory"),
    (
        HouseError::NoSuchServer,
        4,
        "NoSuchServer",
        "there is no such server",
    ),
    (
        HouseError::ClockEnd,
        5,
        "ClockEnd",
        "the clock would pass its end, 1000000000000 ticks, or stands there with a job unfinished",
    ),
    (
        HouseError::Stalled,
        6,
        "Stalled",
        "the clients did not send all in the rounds that they are given",
    ),
    (
        HouseError::NotRunning,
        7,
        "NotRunning",
        "the server did not run the last unit, or other ticks have passed since",
    ),
];

#[test]
fn a_house_says_what_is_wrong(rt: HostRuntime) {
    for &(error, number, name, text) in &OF_HOUSES {
        same(&rt, name, (error.number(), error.name()), (number, name));
        says(&rt, rt.alloc(), &error, text);
    }
}

#[test]
fn clients_say_what_is_wrong(rt: HostRuntime) {
    let alloc = rt.alloc();
    says(&rt, alloc, &SendError::Ended, "the client has ended");
    says(&rt, alloc, &SendError::RingFull, "the ring is full");
}

/// The text of each error of a collector.
static OF_COLLECTORS: [(CollectError, &str); 4] = [
    (CollectError::Stranger, "there is no such server"),
    (
        CollectError::Double,
        "the result of the job was taken before",
    ),
    (CollectError::Early, "the completion comes too early"),
    (CollectError::OutOfMemory, "out of memory"),
];

#[test]
fn collectors_say_what_is_wrong(rt: HostRuntime) {
    for &(error, text) in &OF_COLLECTORS {
        says(&rt, rt.alloc(), &error, text);
    }
}
