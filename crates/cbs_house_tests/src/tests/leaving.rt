//! Tests of clients and houses that are dropped.

use super::calls::{gave, sends};
use super::closing::{Late, runs_with_late_clients, two_clients, unit_of};
use super::polling::one_client;
use super::rows::{Opened, Row, does_all};
use super::{same, sums_of};
use cbs_core::ServerView;
use cbs_house::{Client, Feed, NoSink, Poll, SendError};
use cbs_job::SumJob;
use cbs_rules::Mode;
use std::alloc::Global;
use std::process::Abort;
use std::thread::Threads;
use std::time::Clock;

/// A client that is dropped: the calls of the client and its house before, and the calls of the house after.
#[derive(Clone, Copy)]
struct Leaving {
    name: &'static str,
    mode: Mode,
    /// The number of slots of the ring.
    ring: u64,
    before: &'static [Row],
    after: &'static [Row],
}

/// The view of a server that was closed with no job.
const UNUSED: ServerView = ServerView {
    budget: 0,
    deadline: 0,
    throttled: false,
    closed: true,
    accepted: 0,
    finished: 0,
};

/// The only end is taken, and the results are kept.
const CLOSED_WITH_5_AND_7: [Row; 6] = [
    Row::Poll(0, Poll::Took(0)),
    Row::Poll(0, Poll::Took(1)),
    Row::Poll(0, Poll::Closed),
    Row::Poll(0, Poll::Nothing),
    Row::Drain(Ok(())),
    Row::Results(0, Ok(&[5, 7])),
];

static CASES: [Leaving; 6] = [
    Leaving {
        name: "the server of a dropped client closes after all that the client sent",
        mode: Mode::Soft,
        ring: 4,
        before: &[Row::Send(&[5], 0), Row::Send(&[7], 1)],
        after: &CLOSED_WITH_5_AND_7,
    },
    Leaving {
        name: "a client that is dropped at a full ring ends",
        mode: Mode::Throttled,
        ring: 2,
        before: &[
            Row::Free(2),
            Row::Send(&[5], 0),
            Row::Send(&[7], 1),
            Row::Free(0),
            Row::Waiting(2),
            Row::Refused(9, SendError::RingFull),
            Row::End(Err(SendError::RingFull)),
            Row::Settle(2),
        ],
        after: &CLOSED_WITH_5_AND_7,
    },
    Leaving {
        name: "a client that ended in the last slot is dropped",
        mode: Mode::Soft,
        ring: 3,
        before: &[
            Row::Send(&[5], 0),
            Row::Send(&[7], 1),
            Row::End(Ok(())),
            Row::Free(0),
            Row::Waiting(3),
            Row::Settle(3),
        ],
        after: &CLOSED_WITH_5_AND_7,
    },
    Leaving {
        name: "a client that sent nothing is dropped",
        mode: Mode::Soft,
        ring: 1,
        before: &[Row::Waiting(0), Row::HouseIsGone(false)],
        after: &[
            Row::Turn(1, 0),
            Row::View(0, Ok(UNUSED)),
            Row::Poll(0, Poll::Nothing),
            Row::Turn(0, 0),
            Row::Now(0),
        ],
    },
    Leaving {
        name: "a client that has filled its ring twice is dropped",
        mode: Mode::Soft,
        ring: 1,
        before: &[
            Row::Send(&[5], 0),
            Row::Refused(7, SendError::RingFull),
            Row::Poll(0, Poll::Took(0)),
            Row::HouseIsGone(false),
            Row::Waiting(0),
            Row::Free(1),
            Row::Send(&[7], 1),
            Row::Waiting(1),
            Row::Free(0),
        ],
        after: &[
            Row::Poll(0, Poll::Took(1)),
            Row::Poll(0, Poll::Closed),
            Row::Drain(Ok(())),
            Row::Results(0, Ok(&[5, 7])),
        ],
    },
    Leaving {
        name: "a client whose server is closed already is dropped",
        mode: Mode::Soft,
        ring: 1,
        before: &[Row::End(Ok(())), Row::Poll(0, Poll::Closed), Row::Free(1)],
        after: &[
            Row::Poll(0, Poll::Nothing),
            Row::Turn(0, 0),
            Row::View(0, Ok(UNUSED)),
        ],
    },
];

#[test]
fn each_dropped_client_ends_once(rt: HostRuntime) {
    let alloc = rt.alloc();
    for case in &CASES {
        let mut opened = Opened::new(&rt, alloc, case.mode, (2, 5), (4, case.ring));
        opened.plays(&rt, alloc, case.name, case.before);
        let mut house = opened.without_client();
        does_all(&rt, case.name, &mut house, case.after);
    }
}

/// The rows after a feed was dropped with two jobs unsent.
static UNSENT: [Row; 4] = [
    Row::Poll(0, Poll::Took(0)),
    Row::Poll(0, Poll::Closed),
    Row::Drain(Ok(())),
    Row::Results(0, Ok(&[5])),
];

#[test]
fn a_dropped_feed_ends_with_jobs_unsent(rt: HostRuntime) {
    let alloc = rt.alloc();
    let (mut house, mut client) = one_client(&rt, alloc, Mode::Soft, (2, 5), (4, 4));
    sends(&rt, alloc, ("a client", 0), &mut client, &[5], 0);
    drop(Feed::new(client, sums_of(&rt, alloc, &[&[7], &[9]])));
    does_all(&rt, "a dropped feed", &mut house, &UNSENT);
}

/// Checks whether the client's house is gone, how many jobs the client sent, and how many slots are free.
fn sees(rt: &impl Abort, client: &mut Client<SumJob>, gone: bool, sent: u64, free: u64) {
    let seen = (client.house_is_gone(), client.sent(), client.free());
    same(rt, "gone, sent, free", seen, (gone, sent, free));
}

#[test]
fn a_client_sees_that_its_house_is_gone(rt: HostRuntime) {
    let alloc = rt.alloc();
    let (house, mut client) = one_client(&rt, alloc, Mode::Soft, (2, 5), (4, 2));
    sees(&rt, &mut client, false, 0, 2);
    sends(&rt, alloc, ("a client", 0), &mut client, &[5], 0);
    sees(&rt, &mut client, false, 1, 1);
    drop(house);
    sees(&rt, &mut client, true, 1, 1);
    same(&rt, "end", client.end(), Ok(()));
    sees(&rt, &mut client, true, 1, 0);
    same(&rt, "end", client.end(), Err(SendError::Ended));
}

/// Lets each client fill its ring, and drops it. Returns whether all jobs were sent.
pub fn sends_and_leaves(alloc: Global, clients: &mut Vec<Client<SumJob>>) -> bool {
    let mut all_sent = true;
    while let Some(mut client) = clients.pop() {
        all_sent &= sends_unit(alloc, &mut client, 5) && sends_unit(alloc, &mut client, 7);
    }
    all_sent
}

/// Sends a job of one unit. Returns whether it was sent.
fn sends_unit(alloc: Global, client: &mut Client<SumJob>, number: u32) -> bool {
    match unit_of(alloc, number) {
        Some(task) => client.send(task).is_ok(),
        None => false,
    }
}

/// Opens a house whose servers have this mode. Runs it, and lets its clients leave when it has long been running.
fn closes_at_last<R: Threads + Clock + Sync + Abort>(rt: &R, alloc: Global, mode: Mode) {
    let (mut house, mut clients) = two_clients(rt, alloc, mode);
    runs_with_late_clients(
        rt,
        alloc,
        &mut house,
        (Late::Leave, &mut clients),
        &mut NoSink,
    );
    gave(rt, &house, 0, &[5, 7]);
    gave(rt, &house, 1, &[5, 7]);
}

#[test]
fn a_house_closes_when_its_clients_leave(rt: HostRuntime) {
    for mode in [Mode::Soft, Mode::Throttled] {
        closes_at_last(&rt, rt.alloc(), mode);
    }
}
