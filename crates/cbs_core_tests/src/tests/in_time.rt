//! Tests that no server is late, by every view after every step.

use super::rows::{Case, Row, new_core, play, plays};
use super::{core_of, same, same_at};
use cbs_core::Core;
use cbs_job::SumJob;
use cbs_rules::Mode;
use std::alloc::Global;
use std::process::Abort;

/// Returns how many servers are late: ready, with a deadline that has come.
fn late(core: &Core<SumJob>) -> u16 {
    let now = u128::from(core.now());
    let mut late = 0u16;
    for server in 0..core.servers() {
        if let Ok(view) = core.view(server) {
            let ready = view.finished < view.accepted && !view.throttled;
            late = late.wrapping_add(u16::from(ready && view.deadline <= now));
        }
    }
    late
}

/// Makes the calls of a case, and checks after each that no server is late.
fn plays_in_time(rt: &impl Abort, alloc: Global, case: &Case) {
    let mut core = new_core(rt, alloc, case);
    for (place, &row) in case.rows.iter().enumerate() {
        let at = (case.name, place);
        play(rt, alloc, at, &mut core, row);
        same_at(rt, at, "late servers", late(&core), 0);
    }
}

static CASES: [Case; 4] = [
    Case {
        name: "two soft servers take every tick",
        servers: &[(Mode::Soft, 2, 5), (Mode::Soft, 3, 5)],
        backlog: 4,
        rows: &[
            Row::Submit(0, &[1, 1, 1], 0),
            Row::Submit(1, &[1, 1, 1, 1], 0),
            Row::Unit(0),
            Row::Unit(0),
            Row::Unit(1),
            Row::Unit(1),
            Row::Unit(1),
            Row::Done(0, 0, 3),
            Row::Done(1, 0, 4),
        ],
    },
    Case {
        name: "throttled servers are waited for",
        servers: &[
            (Mode::Throttled, 1, 6),
            (Mode::Throttled, 1, 3),
            (Mode::Throttled, 1, 2),
        ],
        backlog: 4,
        rows: &[
            Row::Submit(0, &[1, 1], 0),
            Row::Submit(1, &[1, 1], 0),
            Row::Submit(2, &[1, 1], 0),
            Row::Unit(2),
            Row::Unit(1),
            Row::Done(2, 0, 2),
            Row::Unit(0),
            Row::Done(1, 0, 2),
            Row::IdleSpan(Some(1)),
            Row::Advance(1, Ok(())),
            Row::Done(0, 0, 2),
            Row::Now(7),
        ],
    },
    Case {
        name: "modes are mixed",
        servers: &[(Mode::Soft, 2, 5), (Mode::Throttled, 2, 5)],
        backlog: 4,
        rows: &[
            Row::Submit(0, &[1, 1, 1], 0),
            Row::Submit(1, &[1, 1, 1], 0),
            Row::Unit(0),
            Row::Unit(0),
            Row::Unit(1),
            Row::Unit(1),
            Row::Done(0, 0, 3),
            Row::Done(1, 0, 3),
        ],
    },
    Case {
        name: "a job that renews its server is finished a period later",
        servers: &[(Mode::Soft, 3, 5), (Mode::Soft, 2, 5)],
        backlog: 4,
        rows: &[
            Row::Submit(0, &[1, 1, 1, 1, 1, 1, 1, 1, 1], 0),
            Row::Submit(1, &[1, 1], 0),
            Row::Unit(0),
            Row::Unit(0),
            Row::Unit(0),
            Row::Unit(1),
            Row::Done(1, 0, 2),
            Row::State(1, 2, 10, false),
            Row::Now(5),
        ],
    },
];

#[test]
fn nobody_is_late(rt: HostRuntime) {
    for case in &CASES {
        plays_in_time(&rt, rt.alloc(), case);
    }
}

/// The deadline of a server with a job passes without a unit.
static NOT_QUIET: [Row; 3] = [
    Row::Submit(0, &[1, 1], 0),
    Row::Advance(20, Ok(())),
    Row::State(0, 1, 10, false),
];

#[test]
fn an_advance_that_is_not_quiet_makes_a_server_late(rt: HostRuntime) {
    let alloc = rt.alloc();
    let mut core = core_of(&rt, alloc, Mode::Throttled, &[(1, 10)], 4);
    plays(&rt, alloc, "not quiet", &mut core, &NOT_QUIET);
    same(&rt, "late servers", late(&core), 1);
}
