//! Tests of the tick by which the jobs of a server are finished, as promised after each step.

use super::rows::{Case, Row, plays_all};
use cbs_rules::Mode;

static CASES: [Case; 5] = [
    Case {
        name: "nothing is promised where nothing is owed",
        servers: &[(Mode::Soft, 2, 5)],
        backlog: 4,
        rows: &[
            Row::Promised(0, None),
            Row::Promised(1, None),
            Row::Promised(u16::MAX, None),
            Row::Submit(0, &[7], 0),
            Row::Promised(0, Some(5)),
            Row::Promised(1, None),
            Row::Done(0, 0, 7),
            Row::Promised(0, None),
        ],
    },
    Case {
        name: "two soft servers that take every tick keep their promises",
        servers: &[(Mode::Soft, 3, 5), (Mode::Soft, 2, 5)],
        backlog: 4,
        rows: &[
            Row::Submit(0, &[1, 1, 1, 1, 1, 1, 1, 1, 1], 0),
            Row::Promised(0, Some(15)),
            Row::Submit(1, &[1, 1], 0),
            Row::Promised(1, Some(5)),
            Row::Promised(0, Some(15)),
            Row::Unit(0),
            Row::Promised(0, Some(15)),
            Row::Unit(0),
            Row::Promised(0, Some(15)),
            Row::Unit(0),
            Row::Promised(0, Some(15)),
            Row::Unit(1),
            Row::Promised(1, Some(5)),
            Row::Done(1, 0, 2),
            Row::Now(5),
            Row::Promised(1, None),
            Row::Unit(0),
            Row::Promised(0, Some(15)),
            Row::Unit(0),
            Row::Promised(0, Some(15)),
            Row::Unit(0),
            Row::Promised(0, Some(15)),
            Row::Unit(0),
            Row::Promised(0, Some(15)),
            Row::Unit(0),
            Row::Promised(0, Some(15)),
            Row::Done(0, 0, 9),
            Row::Now(11),
            Row::Promised(0, None),
        ],
    },
    Case {
        name: "a throttled server keeps its promise after its wait",
        servers: &[(Mode::Throttled, 2, 5)],
        backlog: 4,
        rows: &[
            Row::Submit(0, &[1, 1, 1], 0),
            Row::Promised(0, Some(10)),
            Row::Unit(0),
            Row::Promised(0, Some(10)),
            Row::Unit(0),
            Row::Promised(0, Some(10)),
            Row::Advance(3, Ok(())),
            Row::Promised(0, Some(10)),
            Row::Done(0, 0, 3),
            Row::Now(6),
            Row::Promised(0, None),
        ],
    },
    Case {
        name: "a job more is promised for behind those before",
        servers: &[(Mode::Soft, 2, 5)],
        backlog: 4,
        rows: &[
            Row::Submit(0, &[1, 1, 1], 0),
            Row::Promised(0, Some(10)),
            Row::Unit(0),
            Row::Promised(0, Some(10)),
            Row::Submit(0, &[1, 1, 1, 1], 1),
            Row::Promised(0, Some(20)),
            Row::Unit(0),
            Row::Promised(0, Some(20)),
            Row::Done(0, 0, 3),
            Row::Promised(0, Some(20)),
        ],
    },
    Case {
        // The advance takes the server's time from tick 0 on: the server is ready, and late from tick 10 on. It is
        // replenished once for each deadline that has come, and runs at ticks 20 and 21.
        name: "a promise is not kept after an advance that took the server's time",
        servers: &[(Mode::Throttled, 1, 10)],
        backlog: 4,
        rows: &[
            Row::Submit(0, &[1, 1], 0),
            Row::Promised(0, Some(20)),
            Row::Advance(20, Ok(())),
            Row::Now(20),
            Row::Promised(0, Some(20)),
            Row::Unit(0),
            Row::Now(21),
            Row::Promised(0, Some(20)),
            Row::Done(0, 0, 2),
            Row::Now(22),
        ],
    },
];

#[test]
fn each_promise_is_told_by_hand(rt: HostRuntime) {
    plays_all(&rt, rt.alloc(), &CASES);
}
