//! Tests of messages on their way from a client to the results.

ghost use Rattle.cbs_clients.specs.Houses.{rings_of};
ghost use Rattle.cbs_clients.specs.Clients.{IsOpened};

use super::rows::{Case, Phase, Row, plays_all, plays_in_heap};
use super::{same, setup_of};
use cbs_core::{Ran, ServerView};
use cbs_house::{Client, House, HouseError, Poll, SendError, open_house};
use cbs_job::SumJob;
use cbs_rules::{LIMIT, Mode};
use std::alloc::{Allocator, Global};
use std::process::Abort;

/// Returns a house of one server with this reservation, and its client.
pub fn one_client<R: Abort, A: Allocator + Copy>(
    rt: &R,
    alloc: A,
    mode: Mode,
    rate: (u64, u64),
    limits: (u64, u64),
) -> (House<SumJob, A>, Client<SumJob, A>)
    ensures { IsOpened (rings_of result.0) result.1 }
{
    let (budget, period) = rate;
    let (backlog, ring) = limits;
    let (plan, modes) = setup_of(rt, &[(mode, budget, period)]);
    let opened = open_house(alloc, plan, modes, backlog, ring);
    let Ok((house, mut clients)) = opened else {
        panic!(rt; "a house");
    };
    let Some(client) = clients.pop() else {
        panic!(rt; "a client");
    };
    (house, client)
}

/// The calls before the first poll.
const SENT: [Row; 7] = [
    Row::Send(&[5], 0),
    Row::Send(&[7], 1),
    Row::End(Ok(())),
    Row::Refused(8, SendError::Ended),
    Row::End(Err(SendError::Ended)),
    Row::Client(0, 2, true),
    Row::Settle(3),
];

/// The polls that take what was sent.
const TAKEN: [Row; 3] = [
    Row::Poll(0, Poll::Took(0)),
    Row::Poll(0, Poll::Took(1)),
    Row::Poll(0, Poll::Closed),
];

/// The view of a server that was closed with two jobs, when both are finished.
const CLOSED: ServerView = ServerView {
    budget: 2,
    deadline: 10,
    throttled: false,
    closed: true,
    accepted: 2,
    finished: 2,
};

/// The calls after everything was taken.
const DRAINED: [Row; 10] = [
    Row::Poll(0, Poll::Nothing),
    Row::Settle(0),
    Row::Drain(Ok(())),
    Row::Results(0, Ok(&[5, 7])),
    Row::Now(2),
    Row::View(0, Ok(CLOSED)),
    Row::IdleSpan(Some(LIMIT - 2)),
    Row::Run(Ran::Idle),
    Row::Advance(3, Ok(())),
    Row::Now(5),
];

/// Only the polls that take a message need memory.
static PHASES: [Phase; 3] = [
    Phase {
        name: "messages are sent",
        full: true,
        rows: &SENT,
    },
    Phase {
        name: "messages are taken in order",
        full: false,
        rows: &TAKEN,
    },
    Phase {
        name: "what was taken is done",
        full: true,
        rows: &DRAINED,
    },
];

#[test]
fn messages_are_taken_in_order(rt: HostRuntime) {
    plays_in_heap(&rt, rt.alloc(), Mode::Soft, &PHASES);
}

/// The view of a throttled server with a tick in every 1000000000, when its job of three units is finished.
const WAITED: ServerView = ServerView {
    budget: 0,
    deadline: 3_000_000_000,
    throttled: true,
    closed: false,
    accepted: 1,
    finished: 1,
};

/// The view of such a server when the clock has ended before its job.
const UNFINISHED: ServerView = ServerView {
    budget: 1,
    deadline: 1_001_000_000_000,
    throttled: false,
    closed: false,
    accepted: 1,
    finished: 0,
};

static CASES: [Case; 6] = [
    Case {
        name: "a client sees the free slots of its ring",
        mode: Mode::Soft,
        rate: (2, 5),
        limits: (1, 4),
        rows: &[
            Row::Free(4),
            Row::Send(&[5], 0),
            Row::End(Ok(())),
            Row::Free(2),
            Row::Poll(0, Poll::Took(0)),
            Row::Free(3),
        ],
    },
    Case {
        name: "a poll beside the client takes what it sent",
        mode: Mode::Soft,
        rate: (2, 5),
        limits: (1, 4),
        rows: &[
            Row::Send(&[5], 0),
            Row::Send(&[7], 1),
            Row::End(Ok(())),
            Row::PollBeside(Poll::Took(0)),
            Row::PollBeside(Poll::Full),
            Row::Drain(Ok(())),
            Row::PollBeside(Poll::Took(1)),
            Row::Drain(Ok(())),
            Row::PollBeside(Poll::Closed),
            Row::PollBeside(Poll::Nothing),
            Row::Results(0, Ok(&[5, 7])),
        ],
    },
    Case {
        name: "a full ring and a full backlog lose nothing",
        mode: Mode::Soft,
        rate: (2, 5),
        limits: (1, 1),
        rows: &[
            Row::Send(&[1], 0),
            Row::Refused(2, SendError::RingFull),
            Row::End(Err(SendError::RingFull)),
            Row::Settle(1),
            Row::Poll(0, Poll::Took(0)),
            Row::Settle(0),
            Row::Send(&[2], 1),
            Row::Poll(0, Poll::Full),
            Row::Settle(1),
            Row::Done(0, 0, 1),
            Row::Poll(0, Poll::Took(1)),
            Row::Poll(3, Poll::NoSuchServer),
            Row::View(3, Err(HouseError::NoSuchServer)),
            Row::Results(3, Err(HouseError::NoSuchServer)),
        ],
    },
    Case {
        name: "an end waits behind a full backlog",
        mode: Mode::Soft,
        rate: (2, 5),
        limits: (1, 2),
        rows: &[
            Row::Send(&[1], 0),
            Row::End(Ok(())),
            Row::Settle(2),
            Row::Poll(0, Poll::Took(0)),
            Row::Poll(0, Poll::Full),
            Row::Settle(1),
            Row::Done(0, 0, 1),
            Row::Poll(0, Poll::Closed),
            Row::Poll(0, Poll::Nothing),
            Row::Refused(2, SendError::Ended),
        ],
    },
    Case {
        name: "a drain waits for replenishments",
        mode: Mode::Throttled,
        rate: (1, 1_000_000_000),
        limits: (4, 4),
        rows: &[
            Row::Send(&[1, 1, 1], 0),
            Row::Poll(0, Poll::Took(0)),
            Row::Drain(Ok(())),
            Row::Now(2_000_000_001),
            Row::Results(0, Ok(&[3])),
            Row::View(0, Ok(WAITED)),
            Row::Advance(1, Ok(())),
        ],
    },
    Case {
        name: "the clock ends with a job unfinished",
        mode: Mode::Throttled,
        rate: (1, 1_000_000_000),
        limits: (4, 4),
        rows: &[
            Row::Send(&[1; 1001], 0),
            Row::Poll(0, Poll::Took(0)),
            Row::Drain(Err(HouseError::ClockEnd)),
            Row::Now(1_000_000_000_000),
            Row::Results(0, Ok(&[])),
            Row::View(0, Ok(UNFINISHED)),
            Row::Advance(1, Err(HouseError::ClockEnd)),
        ],
    },
];

#[test]
fn each_message_is_taken_or_waits(rt: HostRuntime) {
    plays_all(&rt, rt.alloc(), &CASES);
}

/// Checks that a house with these limits is refused by this error.
fn is_refused(rt: &impl Abort, alloc: Global, backlog: u64, ring: u64, error: HouseError) {
    let (plan, modes) = setup_of(rt, &[(Mode::Soft, 2, 5)]);
    let Err(refused) = open_house::<SumJob, _>(alloc, plan, modes, backlog, ring) else {
        panic!(rt; "refused");
    };
    same(rt, "refused", refused, error);
}

/// A backlog and a number of slots of a ring, and the error by which a house with them is refused.
static LIMITS: [(u64, u64, HouseError); 4] = [
    (0, 0, HouseError::BadBacklog),
    (4097, 4, HouseError::BadBacklog),
    (4, 0, HouseError::BadRing),
    (4, 1025, HouseError::BadRing),
];

#[test]
fn limits_are_tested_in_their_order(rt: HostRuntime) {
    for &(backlog, ring, error) in &LIMITS {
        is_refused(&rt, rt.alloc(), backlog, ring, error);
    }
}
