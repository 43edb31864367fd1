//! Tests of who runs, and of how long no server does.

use super::core_of;
use super::rows::{Case, Row, plays, plays_all};
use cbs_core::{Ran, ServerView};
use cbs_rules::Mode;
use std::alloc::Global;
use std::process::Abort;

static CASES: [Case; 4] = [
    Case {
        name: "the idle span ends where somebody is ready",
        servers: &[(Mode::Soft, 2, 5), (Mode::Soft, 2, 5)],
        backlog: 4,
        rows: &[
            Row::IdleSpan(Some(1_000_000_000_000)),
            Row::Submit(0, &[7], 0),
            Row::Submit(1, &[9], 0),
            Row::IdleSpan(None),
        ],
    },
    Case {
        name: "the earliest deadline runs",
        servers: &[(Mode::Soft, 2, 5), (Mode::Soft, 3, 5)],
        backlog: 4,
        rows: &[
            Row::Submit(0, &[1, 1, 1], 0),
            Row::Submit(1, &[1, 1, 1, 1], 0),
            Row::Ready(Some(0)),
            Row::Unit(0),
            Row::State(0, 1, 5, false),
            Row::Ready(Some(0)),
            Row::Unit(0),
            Row::State(0, 2, 10, false),
            Row::Ready(Some(1)),
            Row::Unit(1),
            Row::State(1, 2, 5, false),
            Row::Ready(Some(1)),
            Row::Unit(1),
            Row::State(1, 1, 5, false),
            Row::Ready(Some(1)),
            Row::Unit(1),
            Row::State(1, 3, 10, false),
            Row::Ready(Some(0)),
            Row::Done(0, 0, 3),
            Row::State(0, 1, 10, false),
            Row::Ready(Some(1)),
            Row::Done(1, 0, 4),
            Row::State(1, 2, 10, false),
            Row::Now(7),
        ],
    },
    Case {
        name: "three throttled servers take turns",
        servers: &[
            (Mode::Throttled, 1, 6),
            (Mode::Throttled, 1, 3),
            (Mode::Throttled, 1, 2),
        ],
        backlog: 4,
        rows: &[
            Row::Submit(0, &[1, 1], 0),
            Row::Submit(1, &[1, 1], 0),
            Row::Submit(2, &[1, 1], 0),
            Row::Unit(2),
            Row::State(2, 0, 2, true),
            Row::Unit(1),
            Row::State(1, 0, 3, true),
            Row::Done(2, 0, 2),
            Row::State(2, 0, 4, true),
            Row::Unit(0),
            Row::State(0, 0, 6, true),
            Row::Done(1, 0, 2),
            Row::State(1, 0, 6, true),
            Row::Run(Ran::Idle),
            Row::State(1, 0, 6, true),
            Row::IdleSpan(Some(1)),
            Row::Advance(1, Ok(())),
            Row::Done(0, 0, 2),
            Row::Now(7),
            Row::State(0, 0, 12, true),
        ],
    },
    Case {
        name: "jobs of two servers keep their order",
        servers: &[(Mode::Soft, 2, 5), (Mode::Soft, 2, 5)],
        backlog: 4,
        rows: &[
            Row::Submit(0, &[1], 0),
            Row::State(0, 2, 5, false),
            Row::Now(0),
            Row::Submit(1, &[2], 0),
            Row::State(1, 2, 5, false),
            Row::Now(0),
            Row::Submit(0, &[3], 1),
            Row::State(0, 2, 5, false),
            Row::Now(0),
            Row::Done(0, 0, 1),
            Row::State(0, 1, 5, false),
            Row::Now(1),
            // The slot of the finished job is free for the next one.
            Row::Submit(0, &[4], 2),
            Row::State(0, 1, 5, false),
            Row::Now(1),
            Row::Submit(1, &[5], 1),
            Row::State(1, 2, 5, false),
            Row::Now(1),
            Row::Done(0, 1, 3),
            Row::State(0, 2, 10, false),
            Row::Now(2),
            Row::Done(1, 0, 2),
            Row::State(1, 1, 5, false),
            Row::Now(3),
            Row::Done(1, 1, 5),
            Row::State(1, 2, 10, false),
            Row::Now(4),
            Row::Done(0, 2, 4),
            Row::State(0, 1, 10, false),
            Row::Now(5),
        ],
    },
];

#[test]
fn who_runs_is_as_by_hand(rt: HostRuntime) {
    plays_all(&rt, rt.alloc(), &CASES);
}

/// A throttled server with 2 ticks in every 5, with one unit of its job left and no budget.
static EXHAUSTED: [Row; 11] = [
    Row::Submit(0, &[1, 2, 3], 0),
    Row::Unit(0),
    Row::State(0, 1, 5, false),
    Row::Now(1),
    Row::Unit(0),
    Row::State(0, 0, 5, true),
    Row::Now(2),
    Row::Run(Ran::Idle),
    Row::State(0, 0, 5, true),
    Row::Now(2),
    Row::IdleSpan(Some(3)),
];

static JUMP: [Row; 1] = [Row::Advance(7, Ok(()))];

static TICKS: [Row; 7] = [Row::Advance(1, Ok(())); 7];

/// The server's view at tick 9.
const AT_9: ServerView = ServerView {
    budget: 2,
    deadline: 10,
    throttled: false,
    closed: false,
    accepted: 1,
    finished: 0,
};

/// The server goes on with its next deadline.
static REPLENISHED: [Row; 5] = [
    Row::View(0, Ok(AT_9)),
    Row::Now(9),
    Row::Done(0, 0, 6),
    Row::Now(10),
    Row::State(0, 1, 10, false),
];

/// Takes a server from exhausted to replenished by these advances.
fn waits_by(rt: &impl Abort, alloc: Global, name: &str, advances: &[Row]) {
    let mut core = core_of(rt, alloc, Mode::Throttled, &[(2, 5)], 4);
    plays(rt, alloc, name, &mut core, &EXHAUSTED);
    plays(rt, alloc, name, &mut core, advances);
    plays(rt, alloc, name, &mut core, &REPLENISHED);
}

#[test]
fn a_jump_is_its_ticks(rt: HostRuntime) {
    waits_by(&rt, rt.alloc(), "a jump", &JUMP);
    waits_by(&rt, rt.alloc(), "ticks", &TICKS);
}
