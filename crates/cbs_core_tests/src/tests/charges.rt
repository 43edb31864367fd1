//! Tests of charges, and of the state that they leave.

use super::core_of;
use super::rows::{Case, Row, plays, plays_all};
use cbs_core::{CoreError, Ran};
use cbs_rules::Mode;

static PAID: [Case; 6] = [
    Case {
        name: "a charge below the budget is taken from it",
        servers: &[(Mode::Soft, 4, 9), (Mode::Throttled, 4, 9)],
        backlog: 4,
        rows: &[
            Row::Submit(0, &[1, 1], 0),
            Row::Submit(1, &[1, 1], 0),
            Row::Unit(0),
            Row::Charge(0, 2, Ok(())),
            Row::State(0, 1, 9, false),
            Row::Now(3),
            Row::Done(0, 0, 2),
            Row::State(0, 4, 18, false),
            Row::Unit(1),
            Row::Charge(1, 1, Ok(())),
            Row::State(1, 2, 9, false),
            Row::Now(6),
            Row::Charges(0, Ok((2, 2))),
            Row::Charges(1, Ok((1, 1))),
        ],
    },
    Case {
        name: "a soft server is postponed by whole periods",
        servers: &[(Mode::Soft, 2, 5)],
        backlog: 4,
        rows: &[
            Row::Submit(0, &[1, 1, 1], 0),
            Row::Unit(0),
            Row::State(0, 1, 5, false),
            Row::Running(Some(0)),
            // 2 ticks beyond the budget: one whole budget is used up, and then a new one comes.
            Row::Charge(0, 3, Ok(())),
            Row::State(0, 2, 15, false),
            Row::Now(4),
            Row::Charges(0, Ok((3, 3))),
            Row::Unit(0),
            Row::State(0, 1, 15, false),
            // As much as the budget: the server is exhausted.
            Row::Charge(0, 1, Ok(())),
            Row::State(0, 2, 20, false),
            Row::Now(6),
            Row::Charges(0, Ok((4, 3))),
            Row::Done(0, 0, 3),
            Row::State(0, 1, 20, false),
            // 4 ticks beyond: two whole budgets. The server is idle, and pays nevertheless.
            Row::Charge(0, 5, Ok(())),
            Row::State(0, 2, 35, false),
            Row::Now(12),
            Row::Charges(0, Ok((9, 5))),
            Row::Ready(None),
            // 2 * 5 is less than (35 - 12) * 2.
            Row::Submit(0, &[7], 1),
            Row::State(0, 2, 35, false),
        ],
    },
    Case {
        name: "an overrun is taken from the replenishment",
        servers: &[(Mode::Throttled, 2, 5)],
        backlog: 4,
        rows: &[
            Row::Submit(0, &[1, 1, 1], 0),
            Row::Unit(0),
            Row::State(0, 1, 5, false),
            // One tick beyond the budget.
            Row::Charge(0, 2, Ok(())),
            Row::State(0, 0, 5, true),
            Row::Now(3),
            Row::Charges(0, Ok((2, 2))),
            Row::Ready(None),
            Row::Run(Ran::Idle),
            Row::IdleSpan(Some(2)),
            Row::Advance(2, Ok(())),
            Row::State(0, 1, 10, false),
            Row::Unit(0),
            Row::State(0, 0, 10, true),
            // The unit exhausted the server. 4 ticks beyond are two whole budgets, and no overrun.
            Row::Charge(0, 4, Ok(())),
            Row::State(0, 0, 20, true),
            Row::Now(10),
            Row::Charges(0, Ok((6, 4))),
            Row::IdleSpan(Some(10)),
            Row::Advance(10, Ok(())),
            Row::State(0, 2, 25, false),
            Row::Done(0, 0, 3),
            Row::State(0, 1, 25, false),
            Row::Now(21),
        ],
    },
    Case {
        name: "a throttled server waits a period for each whole budget",
        servers: &[(Mode::Throttled, 2, 5)],
        backlog: 4,
        rows: &[
            Row::Submit(0, &[1, 1], 0),
            Row::Unit(0),
            // 3 ticks beyond: one whole budget, and an overrun of 1.
            Row::Charge(0, 4, Ok(())),
            Row::State(0, 0, 10, true),
            Row::Now(5),
            Row::Ready(None),
            Row::IdleSpan(Some(5)),
            Row::Advance(5, Ok(())),
            Row::State(0, 1, 15, false),
            Row::Done(0, 0, 2),
            Row::State(0, 0, 15, true),
            Row::Now(11),
        ],
    },
    Case {
        name: "a server whose deadline comes within its charge is replenished",
        servers: &[(Mode::Throttled, 2, 2)],
        backlog: 4,
        rows: &[
            Row::Submit(0, &[1, 1, 1], 0),
            Row::Unit(0),
            Row::Charge(0, 2, Ok(())),
            // The server had an overrun of 1 at deadline 2.
            Row::State(0, 1, 4, false),
            Row::Now(3),
            Row::Ready(Some(0)),
            Row::Running(Some(0)),
        ],
    },
    Case {
        name: "the greatest charge",
        servers: &[(Mode::Soft, 1, 1_000_000_000)],
        backlog: 4,
        rows: &[
            Row::Submit(0, &[1, 1], 0),
            Row::Unit(0),
            Row::State(0, 1, 2_000_000_000, false),
            Row::Charge(0, 999_999_999_999, Ok(())),
            Row::State(0, 1, 1_000_000_000_001_000_000_000, false),
            Row::Now(1_000_000_000_000),
            Row::Charges(0, Ok((999_999_999_999, 999_999_999_999))),
            Row::Run(Ran::ClockEnd),
        ],
    },
];

#[test]
fn a_server_pays_for_its_charges(rt: HostRuntime) {
    plays_all(&rt, rt.alloc(), &PAID);
}

static PARTS: [Case; 4] = [
    Case {
        name: "two charges of a soft server are one of both",
        servers: &[(Mode::Soft, 2, 5)],
        backlog: 4,
        rows: &[
            Row::Submit(0, &[1, 1, 1], 0),
            Row::Unit(0),
            Row::Charge(0, 1, Ok(())),
            Row::State(0, 2, 10, false),
            Row::Charges(0, Ok((1, 1))),
            Row::Charge(0, 2, Ok(())),
            Row::State(0, 2, 15, false),
            Row::Charges(0, Ok((3, 3))),
            Row::Now(4),
            // The next unit is charged separately.
            Row::Unit(0),
            Row::Charge(0, 2, Ok(())),
            Row::State(0, 1, 20, false),
            Row::Charges(0, Ok((5, 3))),
            Row::Now(7),
        ],
    },
    Case {
        name: "two charges of a throttled server are one of both",
        servers: &[(Mode::Throttled, 2, 5)],
        backlog: 4,
        rows: &[
            Row::Submit(0, &[1, 1], 0),
            Row::Unit(0),
            Row::Charge(0, 2, Ok(())),
            Row::State(0, 0, 5, true),
            // The 2 ticks and the overrun of 1.
            Row::Charge(0, 2, Ok(())),
            Row::State(0, 0, 10, true),
            Row::Charges(0, Ok((4, 4))),
            Row::Now(5),
            Row::Advance(5, Ok(())),
            Row::State(0, 1, 15, false),
        ],
    },
    Case {
        name: "what takes no tick may stand between a unit and its charges",
        servers: &[(Mode::Throttled, 2, 5)],
        backlog: 4,
        rows: &[
            Row::Submit(0, &[1, 1], 0),
            Row::Unit(0),
            Row::Advance(0, Ok(())),
            Row::Charge(0, 1, Ok(())),
            Row::Run(Ran::Idle),
            Row::Submit(0, &[7], 1),
            Row::Close(0, Ok(())),
            Row::Refused(0, 8, CoreError::Closed),
            Row::Running(Some(0)),
            Row::Charge(0, 1, Ok(())),
            Row::State(0, 0, 5, true),
            Row::Charges(0, Ok((2, 2))),
            Row::Now(3),
            Row::Advance(2, Ok(())),
            Row::State(0, 1, 10, false),
            Row::Running(None),
            Row::Charge(0, 1, Err(CoreError::NotRunning)),
            Row::Done(0, 0, 2),
            Row::Running(Some(0)),
        ],
    },
    Case {
        name: "a charge of 0 changes nothing",
        servers: &[(Mode::Throttled, 2, 5)],
        backlog: 4,
        rows: &[
            Row::Submit(0, &[1, 1, 1], 0),
            Row::Unit(0),
            Row::Charge(0, 0, Ok(())),
            Row::State(0, 1, 5, false),
            Row::Charges(0, Ok((0, 0))),
            Row::Now(1),
            Row::Running(Some(0)),
            Row::Unit(0),
            Row::Charge(0, 0, Ok(())),
            Row::State(0, 0, 5, true),
            Row::Charges(0, Ok((0, 0))),
            Row::Now(2),
        ],
    },
];

#[test]
fn a_unit_is_charged_in_parts(rt: HostRuntime) {
    plays_all(&rt, rt.alloc(), &PARTS);
}

static CHOSEN: [Case; 4] = [
    Case {
        name: "who runs next is chosen by the deadlines that charges leave",
        servers: &[(Mode::Soft, 2, 5), (Mode::Throttled, 2, 5)],
        backlog: 4,
        rows: &[
            Row::Submit(0, &[1, 1, 1], 0),
            Row::Submit(1, &[1, 1, 1], 0),
            Row::Unit(0),
            Row::Ready(Some(0)),
            Row::Charge(0, 1, Ok(())),
            Row::State(0, 2, 10, false),
            Row::Ready(Some(1)),
            Row::Unit(1),
            Row::State(1, 1, 5, false),
            Row::Running(Some(1)),
            Row::Ready(Some(1)),
            Row::Charge(1, 1, Ok(())),
            Row::State(1, 0, 5, true),
            Row::Now(4),
            Row::Ready(Some(0)),
            Row::Unit(0),
            Row::State(0, 1, 10, false),
            Row::State(1, 2, 10, false),
            Row::Ready(Some(0)),
        ],
    },
    Case {
        name: "the ticks of a charge replenish the others",
        servers: &[(Mode::Throttled, 1, 4), (Mode::Throttled, 1, 4)],
        backlog: 4,
        rows: &[
            Row::Submit(0, &[1, 1], 0),
            Row::Submit(1, &[1, 1], 0),
            Row::Unit(0),
            Row::State(0, 0, 4, true),
            Row::Unit(1),
            Row::State(1, 0, 4, true),
            Row::Ready(None),
            Row::Charge(1, 3, Ok(())),
            Row::Now(5),
            Row::State(0, 1, 8, false),
            Row::State(1, 0, 16, true),
            Row::Charges(0, Ok((0, 0))),
            Row::Charges(1, Ok((3, 3))),
            Row::Ready(Some(0)),
            Row::Done(0, 0, 2),
            Row::Running(Some(0)),
            Row::Now(6),
        ],
    },
    Case {
        name: "a charge may make another server late",
        servers: &[
            (Mode::Throttled, 1, 4),
            (Mode::Soft, 1, 4),
            (Mode::Throttled, 1, 4),
        ],
        backlog: 4,
        rows: &[
            Row::Submit(0, &[1], 0),
            Row::Submit(1, &[1], 0),
            Row::Submit(2, &[1], 0),
            Row::Done(0, 0, 1),
            Row::Charge(0, 2, Ok(())),
            Row::State(0, 0, 12, true),
            Row::Done(1, 0, 1),
            Row::Charge(1, 4, Ok(())),
            Row::State(1, 1, 24, false),
            Row::Now(8),
            Row::State(2, 1, 4, false),
            Row::Ready(Some(2)),
            Row::Done(2, 0, 1),
        ],
    },
    Case {
        // Without the overrun the promise would still be 10, but the job is done at 11.
        name: "a promise counts the overrun",
        servers: &[(Mode::Throttled, 2, 5)],
        backlog: 4,
        rows: &[
            Row::Submit(0, &[1, 1, 1], 0),
            Row::Promised(0, Some(10)),
            Row::Unit(0),
            Row::Promised(0, Some(10)),
            Row::Charge(0, 2, Ok(())),
            Row::Promised(0, Some(15)),
            Row::Advance(2, Ok(())),
            Row::Promised(0, Some(15)),
            Row::Unit(0),
            Row::State(0, 0, 10, true),
            Row::Promised(0, Some(15)),
            Row::Advance(4, Ok(())),
            Row::State(0, 2, 15, false),
            Row::Promised(0, Some(15)),
            Row::Done(0, 0, 3),
            Row::Now(11),
        ],
    },
];

/// A job of one unit that is done at tick 3 beside a busy server.
static DONE_AT_3: [Row; 6] = [
    Row::Submit(0, &[1, 1, 1, 1], 0),
    Row::Submit(1, &[1], 0),
    Row::Unit(0),
    Row::Unit(0),
    Row::Done(1, 0, 1),
    Row::State(1, 1, 4, false),
];

/// The unit is charged before the server's next job comes: 2 * 4 is as much as (8 - 4) * 2.
static CHARGED_BEFORE: [Row; 4] = [
    Row::Charge(1, 1, Ok(())),
    Row::State(1, 2, 8, false),
    Row::Submit(1, &[1, 1], 1),
    Row::State(1, 2, 8, false),
];

/// The unit is charged after the next job has come, which renews the server: 1 * 4 is more than (4 - 3) * 2.
static CHARGED_AFTER: [Row; 4] = [
    Row::Submit(1, &[1, 1], 1),
    Row::State(1, 2, 7, false),
    Row::Charge(1, 1, Ok(())),
    Row::State(1, 1, 7, false),
];

/// The most charged for one unit is the same both ways.
static CHARGED_ONCE: [Row; 2] = [Row::Charges(1, Ok((1, 1))), Row::Now(4)];

#[test]
fn a_late_charge_is_paid_from_the_renewed_budget(rt: HostRuntime) {
    let alloc = rt.alloc();
    for (name, rows) in [
        ("charged before", &CHARGED_BEFORE),
        ("charged after", &CHARGED_AFTER),
    ] {
        let mut core = core_of(&rt, alloc, Mode::Soft, &[(1, 2), (2, 4)], 4);
        for rows in [&DONE_AT_3[..], &rows[..], &CHARGED_ONCE[..]] {
            plays(&rt, alloc, name, &mut core, rows);
        }
    }
}

#[test]
fn charges_change_who_runs_and_when(rt: HostRuntime) {
    plays_all(&rt, rt.alloc(), &CHOSEN);
}

static REFUSED: [Case; 3] = [
    Case {
        name: "where nobody ran",
        servers: &[(Mode::Soft, 2, 5), (Mode::Throttled, 2, 5)],
        backlog: 4,
        rows: &[
            Row::Running(None),
            Row::Charge(0, 1, Err(CoreError::NotRunning)),
            Row::Charge(0, 0, Err(CoreError::NotRunning)),
            Row::Charge(1, 1, Err(CoreError::NotRunning)),
            Row::Charge(2, 1, Err(CoreError::NoSuchServer)),
            Row::Charge(2, 0, Err(CoreError::NoSuchServer)),
            Row::Charge(u16::MAX, u64::MAX, Err(CoreError::NoSuchServer)),
            Row::Charge(0, u64::MAX, Err(CoreError::NotRunning)),
            Row::Submit(0, &[1, 1], 0),
            Row::Charge(0, 1, Err(CoreError::NotRunning)),
            Row::State(0, 2, 5, false),
            Row::State(1, 0, 0, false),
            Row::Charges(0, Ok((0, 0))),
            Row::Charges(1, Ok((0, 0))),
            Row::Charges(2, Err(CoreError::NoSuchServer)),
            Row::Charges(u16::MAX, Err(CoreError::NoSuchServer)),
            Row::Now(0),
        ],
    },
    Case {
        name: "where another server ran, or a tick has passed",
        servers: &[(Mode::Soft, 2, 5), (Mode::Soft, 2, 5)],
        backlog: 4,
        rows: &[
            Row::Submit(0, &[1], 0),
            Row::Submit(1, &[1, 1], 0),
            Row::Done(0, 0, 1),
            Row::Charge(1, 1, Err(CoreError::NotRunning)),
            Row::Charge(1, u64::MAX, Err(CoreError::NotRunning)),
            Row::Charge(2, 1, Err(CoreError::NoSuchServer)),
            Row::State(0, 1, 5, false),
            Row::State(1, 2, 5, false),
            Row::Now(1),
            Row::Unit(1),
            Row::Charge(0, 1, Err(CoreError::NotRunning)),
            Row::Advance(1_000_000_000_000, Err(CoreError::ClockEnd)),
            Row::Running(Some(1)),
            Row::Advance(1, Ok(())),
            Row::Running(None),
            Row::Charge(1, 1, Err(CoreError::NotRunning)),
            Row::Charge(1, 0, Err(CoreError::NotRunning)),
            Row::Charge(1, u64::MAX, Err(CoreError::NotRunning)),
            Row::State(0, 1, 5, false),
            Row::State(1, 1, 5, false),
            Row::Charges(0, Ok((0, 0))),
            Row::Charges(1, Ok((0, 0))),
            Row::Now(3),
        ],
    },
    Case {
        name: "where the clock would pass its end",
        servers: &[(Mode::Soft, 2, 5)],
        backlog: 4,
        rows: &[
            Row::Advance(999_999_999_998, Ok(())),
            Row::Submit(0, &[1, 1], 0),
            Row::Unit(0),
            Row::State(0, 1, 1_000_000_000_003, false),
            Row::Charge(0, 2, Err(CoreError::ClockEnd)),
            Row::Charge(0, u64::MAX, Err(CoreError::ClockEnd)),
            Row::State(0, 1, 1_000_000_000_003, false),
            Row::Charges(0, Ok((0, 0))),
            Row::Now(999_999_999_999),
            Row::Charge(0, 1, Ok(())),
            Row::State(0, 2, 1_000_000_000_008, false),
            Row::Now(1_000_000_000_000),
            Row::Charge(0, 1, Err(CoreError::ClockEnd)),
            Row::Charge(0, 0, Ok(())),
            Row::Run(Ran::ClockEnd),
            Row::Running(Some(0)),
            Row::Charges(0, Ok((1, 1))),
            Row::State(0, 2, 1_000_000_000_008, false),
        ],
    },
];

#[test]
fn a_refused_charge_changes_nothing(rt: HostRuntime) {
    plays_all(&rt, rt.alloc(), &REFUSED);
}
