//! Tests of each call while memory is available.

use super::rows::{Case, Row, plays, plays_all};
use super::{core_of, filled, plan_of, same};
use cbs_core::{Core, CoreError, MAX_BACKLOG, Ran, ServerView};
use cbs_job::SumJob;
use cbs_rules::{Mode, Modes};
use linked_list_allocator::LocalHeap;
use std::alloc::Global;
use std::process::Abort;

static CASES: [Case; 3] = [
    Case {
        name: "a refused job comes back",
        servers: &[(Mode::Soft, 2, 5)],
        backlog: 1,
        rows: &[
            Row::Submit(0, &[4], 0),
            Row::Refused(0, 5, CoreError::BacklogFull),
            Row::Close(0, Ok(())),
            Row::Refused(0, 6, CoreError::Closed),
            Row::Done(0, 0, 4),
            Row::State(0, 1, 5, false),
            Row::Close(0, Err(CoreError::Closed)),
            Row::Now(1),
        ],
    },
    Case {
        name: "a closed server takes no job while one is unfinished",
        servers: &[(Mode::Soft, 2, 5)],
        backlog: 2,
        rows: &[
            Row::Submit(0, &[4], 0),
            Row::Close(0, Ok(())),
            Row::Refused(0, 5, CoreError::Closed),
            Row::Done(0, 0, 4),
            Row::Refused(0, 6, CoreError::Closed),
        ],
    },
    Case {
        name: "the clock ends",
        servers: &[(Mode::Soft, 2, 5)],
        backlog: 4,
        rows: &[
            Row::Advance(1_000_000_000_001, Err(CoreError::ClockEnd)),
            Row::Advance(1_000_000_000_000, Ok(())),
            Row::IdleSpan(Some(0)),
            Row::Run(Ran::Idle),
            Row::Advance(1, Err(CoreError::ClockEnd)),
            Row::Advance(0, Ok(())),
            Row::Submit(0, &[1], 0),
            Row::Run(Ran::ClockEnd),
            Row::Now(1_000_000_000_000),
            Row::State(0, 2, 1_000_000_000_005, false),
        ],
    },
];

#[test]
fn each_call_answers_as_by_hand(rt: HostRuntime) {
    plays_all(&rt, rt.alloc(), &CASES);
}

/// The view of a server that was closed with a job.
const CLOSED: ServerView = ServerView {
    budget: 2,
    deadline: 5,
    throttled: false,
    closed: true,
    accepted: 1,
    finished: 0,
};

/// Each call but a run, on a server that has room for a job.
static WITH_ROOM: [Row; 11] = [
    Row::MakeRoom(1, Err(CoreError::NoSuchServer)),
    Row::Ready(None),
    Row::Submit(0, &[4], 0),
    Row::Ready(Some(0)),
    Row::MakeRoom(0, Err(CoreError::BacklogFull)),
    Row::Close(0, Ok(())),
    Row::MakeRoom(0, Err(CoreError::Closed)),
    Row::Refused(1, 5, CoreError::NoSuchServer),
    Row::Close(1, Err(CoreError::NoSuchServer)),
    Row::View(1, Err(CoreError::NoSuchServer)),
    Row::View(0, Ok(CLOSED)),
];

#[test]
fn each_call_on_a_core_with_one_server(rt: HostRuntime) {
    let alloc = rt.alloc();
    let heap = LocalHeap::new(alloc, 1 << 13).expect(&rt, "a heap");
    let mut core = core_of(&rt, &heap, Mode::Soft, &[(2, 5)], 1);
    same(&rt, "make_room", core.make_room(0), Ok(()));
    // From here on no memory can be had, and none is needed.
    let ballast = filled(&rt, alloc, &heap);
    plays(&rt, alloc, "with room", &mut core, &WITH_ROOM);
    drop(ballast);
}

/// Backlogs, and why a core with such a backlog is refused, if it is.
static BACKLOGS: [(u64, Option<CoreError>); 4] = [
    (0, Some(CoreError::BadBacklog)),
    (1, None),
    (4096, None),
    (4097, Some(CoreError::BadBacklog)),
];

/// Returns why a core with this backlog is refused, or `None` if it is made.
fn refusal(rt: &impl Abort, alloc: Global, backlog: u64) -> Option<CoreError> {
    let plan = plan_of(rt, &[(2, 5)]);
    let modes = Modes::uniform(Mode::Soft, plan.len() as u16);
    Core::<SumJob>::new(alloc, plan, modes, backlog).err()
}

#[test]
fn a_backlog_is_1_to_4096(rt: HostRuntime) {
    for &(backlog, error) in &BACKLOGS {
        same(&rt, "refusal", refusal(&rt, rt.alloc(), backlog), error);
    }
    same(&rt, "MAX_BACKLOG", MAX_BACKLOG, 4096);
}
