//! Tests of results that are handed out.

use super::rows::{Case, Opened, Phase, Row, plays_all, plays_in_heap};
use cbs_core::ServerView;
use cbs_house::{HouseError, Poll};
use cbs_rules::Mode;
use linked_list_allocator::LocalHeap;
use std::alloc::Global;
use std::process::Abort;

/// The view of a server that was closed with three jobs, when all are finished.
const CLOSED: ServerView = ServerView {
    budget: 1,
    deadline: 10,
    throttled: false,
    closed: true,
    accepted: 3,
    finished: 3,
};

static CASES: [Case; 1] = [Case {
    name: "results are handed out once and in order",
    mode: Mode::Soft,
    rate: (2, 5),
    limits: (4, 4),
    rows: &[
        Row::TakeResults(0, Ok(&[])),
        Row::Send(&[5], 0),
        Row::Poll(0, Poll::Took(0)),
        Row::Send(&[7], 1),
        Row::Poll(0, Poll::Took(1)),
        Row::Done(0, 0, 5),
        Row::TakeResults(0, Ok(&[5])),
        Row::TakeResults(0, Ok(&[])),
        Row::TakeResults(1, Err(HouseError::NoSuchServer)),
        Row::TakeResults(u16::MAX, Err(HouseError::NoSuchServer)),
        Row::Results(0, Ok(&[])),
        Row::Send(&[9], 2),
        Row::Poll(0, Poll::Took(2)),
        Row::End(Ok(())),
        Row::Poll(0, Poll::Closed),
        Row::Drain(Ok(())),
        Row::Results(0, Ok(&[7, 9])),
        Row::TakeResults(0, Ok(&[7, 9])),
        Row::View(0, Ok(CLOSED)),
        Row::Poll(0, Poll::Nothing),
        Row::TakeResults(0, Ok(&[])),
    ],
}];

#[test]
fn results_are_handed_out_once_and_in_order(rt: HostRuntime) {
    plays_all(&rt, rt.alloc(), &CASES);
}

/// Four jobs are taken, and the first is finished.
const HELD: [Row; 9] = [
    Row::Send(&[3], 0),
    Row::Poll(0, Poll::Took(0)),
    Row::Send(&[3], 1),
    Row::Poll(0, Poll::Took(1)),
    Row::Send(&[3], 2),
    Row::Poll(0, Poll::Took(2)),
    Row::Send(&[3], 3),
    Row::Poll(0, Poll::Took(3)),
    Row::Done(0, 0, 3),
];

/// The results handed out while no memory can be had.
const REFUSED: [Row; 3] = [
    Row::TakeResults(0, Err(HouseError::OutOfMemory)),
    Row::TakeResults(1, Err(HouseError::NoSuchServer)),
    Row::Results(0, Ok(&[3])),
];

/// The results handed out when memory can be had again.
const HANDED: [Row; 1] = [Row::TakeResults(0, Ok(&[3]))];

/// The other three jobs are finished, while no memory can be had.
const FINISHED: [Row; 3] = [
    Row::Done(0, 1, 3),
    Row::Drain(Ok(())),
    // No job is held, so no memory is needed.
    Row::TakeResults(0, Ok(&[3, 3, 3])),
];

static PHASES: [Phase; 4] = [
    Phase {
        name: "jobs are held",
        full: false,
        rows: &HELD,
    },
    Phase {
        name: "no memory is found",
        full: true,
        rows: &REFUSED,
    },
    Phase {
        name: "memory is found",
        full: false,
        rows: &HANDED,
    },
    Phase {
        name: "jobs held keep their places",
        full: true,
        rows: &FINISHED,
    },
];

#[test]
fn jobs_held_keep_the_places_of_their_results(rt: HostRuntime) {
    plays_in_heap(&rt, rt.alloc(), Mode::Soft, &PHASES);
}

/// Makes a round of a service: two jobs come, and the results of both are handed out, one after the other.
fn serves_two(rt: &impl Abort, alloc: Global, opened: &mut Opened<&LocalHeap>, round: u32) {
    let first = 2 * u64::from(round);
    let result = u64::from(round);
    let rows = [
        Row::SendOne(round, first),
        Row::Poll(0, Poll::Took(first)),
        Row::SendOne(1, first + 1),
        Row::Poll(0, Poll::Took(first + 1)),
        Row::Done(0, first, result),
        Row::TakeResult(result),
        Row::Drain(Ok(())),
        Row::TakeResult(1),
    ];
    opened.plays(rt, alloc, "a round", &rows);
}

#[test]
fn a_service_goes_on_in_bounded_memory(rt: HostRuntime) {
    let alloc = rt.alloc();
    let heap = LocalHeap::new(alloc, 1 << 14).expect(&rt, "a heap");
    let mut opened = Opened::new(&rt, &heap, Mode::Soft, (2, 5), (4, 4));
    // The results of all rounds take 16000 bytes, twice the size of the heap.
    for round in 0..1000 {
        serves_two(&rt, alloc, &mut opened, round);
    }
}
