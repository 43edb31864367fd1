//! Tests of jobs that end early.

use super::rows::{Case, Row, plays_all};
use cbs_core::{CoreError, LIMIT, Ran, ServerView};
use cbs_rules::Mode;

static ENDED: [Case; 4] = [
    Case {
        name: "the job leaves its queue, and no budget or deadline changes",
        servers: &[(Mode::Soft, 2, 4), (Mode::Soft, 1, 4)],
        backlog: 4,
        rows: &[
            Row::Submit(0, &[1, 2, 3, 4, 5], 0),
            Row::Submit(0, &[7], 1),
            Row::Submit(1, &[9], 0),
            Row::Unit(0),
            Row::Unit(0),
            Row::Charge(0, 3, Ok(())),
            Row::State(0, 1, 12, false),
            Row::Finish(0, Ok((0, 3))),
            Row::View(
                0,
                Ok(ServerView {
                    budget: 1,
                    deadline: 12,
                    throttled: false,
                    closed: false,
                    accepted: 2,
                    finished: 1,
                }),
            ),
            Row::Now(5),
            Row::Running(Some(0)),
            // The unit may still be charged, and the next job of the server is not begun.
            Row::Charge(0, 1, Ok(())),
            Row::Charges(0, Ok((4, 4))),
            Row::State(0, 2, 16, false),
            Row::Finish(0, Err(CoreError::NotRunning)),
            Row::Done(1, 0, 9),
            Row::Done(0, 1, 7),
        ],
    },
    Case {
        name: "a server whose only job ended is not ready",
        servers: &[(Mode::Soft, 2, 4), (Mode::Soft, 1, 8)],
        backlog: 4,
        rows: &[
            Row::Submit(0, &[1, 2], 0),
            Row::Submit(1, &[5, 6], 0),
            Row::Unit(0),
            Row::Ready(Some(0)),
            Row::Finish(0, Ok((0, 1))),
            Row::Ready(Some(1)),
            Row::Promised(0, None),
            Row::Promised(1, Some(16)),
        ],
    },
    Case {
        name: "a throttled server whose only job ended wakes nobody",
        servers: &[(Mode::Throttled, 1, 4), (Mode::Throttled, 1, 6)],
        backlog: 4,
        rows: &[
            Row::Submit(0, &[5, 6], 0),
            Row::Submit(1, &[8, 9], 0),
            Row::Unit(0),
            Row::Finish(0, Ok((0, 5))),
            Row::Unit(1),
            Row::IdleSpan(Some(4)),
            Row::Finish(1, Ok((0, 8))),
            Row::IdleSpan(Some(LIMIT - 2)),
            Row::Submit(0, &[8], 1),
            Row::IdleSpan(Some(2)),
            Row::Advance(2, Ok(())),
            Row::Done(0, 1, 8),
        ],
    },
    Case {
        name: "what does nothing, and what others do, may stand between the unit and the end",
        servers: &[(Mode::Throttled, 1, 4), (Mode::Soft, 1, 4)],
        backlog: 1,
        rows: &[
            Row::Submit(0, &[5, 6], 0),
            Row::Unit(0),
            Row::Run(Ran::Idle),
            Row::Refused(0, 7, CoreError::BacklogFull),
            Row::Advance(0, Ok(())),
            Row::Submit(1, &[3], 0),
            Row::Close(0, Ok(())),
            Row::Finish(1, Err(CoreError::NotRunning)),
            Row::Finish(0, Ok((0, 5))),
            Row::Done(1, 0, 3),
        ],
    },
];

#[test]
fn a_job_ends_early(rt: HostRuntime) {
    plays_all(&rt, rt.alloc(), &ENDED);
}

static REFUSED: [Case; 4] = [
    Case {
        name: "no unit ran",
        servers: &[(Mode::Soft, 2, 4)],
        backlog: 4,
        rows: &[
            Row::Submit(0, &[1, 2], 0),
            Row::Finish(0, Err(CoreError::NotRunning)),
            Row::Finish(1, Err(CoreError::NoSuchServer)),
        ],
    },
    Case {
        name: "the unit was the last of its job",
        servers: &[(Mode::Soft, 2, 4)],
        backlog: 4,
        rows: &[
            Row::Submit(0, &[1], 0),
            Row::Submit(0, &[2, 3], 1),
            Row::Done(0, 0, 1),
            Row::Finish(0, Err(CoreError::NotRunning)),
            Row::Promised(0, Some(8)),
        ],
    },
    Case {
        name: "a tick has passed",
        servers: &[(Mode::Soft, 2, 4)],
        backlog: 4,
        rows: &[
            Row::Submit(0, &[1, 2], 0),
            Row::Unit(0),
            Row::Advance(1, Ok(())),
            Row::Finish(0, Err(CoreError::NotRunning)),
            Row::Done(0, 0, 3),
        ],
    },
    Case {
        name: "the server accepted a job since",
        servers: &[(Mode::Soft, 2, 4)],
        backlog: 4,
        rows: &[
            Row::Submit(0, &[1, 2], 0),
            Row::Unit(0),
            Row::Submit(0, &[4], 1),
            Row::Finish(0, Err(CoreError::NotRunning)),
            Row::Done(0, 0, 3),
            Row::Done(0, 1, 4),
        ],
    },
];

#[test]
fn an_early_end_is_refused(rt: HostRuntime) {
    plays_all(&rt, rt.alloc(), &REFUSED);
}
