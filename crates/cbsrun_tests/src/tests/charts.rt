//! The chart of a few steps that are made by hand.

use super::{same, same_stretches};
use cbs_job::Completion;
use cbs_rate::{Bound, Plan, Reservation};
use cbs_steps::{CoreError, Ran, ServerView};
use cbsrun_chart::{Chart, ChartView, Counts, Kind, Window, WindowError};
use cbsrun_events::{Arrival, Event, Seen, View};
use std::alloc::Global;
use std::test::Fail;

/// The view of a throttled server with 2 ticks in every 10, after its first job came.
const CAME: ServerView = ServerView {
    budget: 2,
    deadline: 11,
    throttled: false,
    closed: false,
    accepted: 1,
    finished: 0,
};

/// Its view once the budget is used up.
const THROTTLED: ServerView = ServerView {
    budget: 0,
    throttled: true,
    ..CAME
};

/// Its view after the last unit of its job.
const DONE: ServerView = ServerView {
    budget: 1,
    deadline: 21,
    finished: 1,
    ..CAME
};

/// A job of three units, which is to be finished within 8 ticks.
const JOB: Arrival = Arrival {
    server: 0,
    came: 1,
    units: 3,
    within: Some(8),
};

/// The job that is refused.
const REFUSED: Arrival = Arrival { came: 4, ..JOB };

/// A unit of the job, and its last one.
const UNIT: Event = Event::Ran(Ran::Unit { server: 0, seq: 0 });

const LAST: Event = Event::Ran(Ran::Done(Completion {
    server: 0,
    seq: 0,
    result: 0,
}));

/// The steps, each with the clock and the view of the server after it.
static STEPS: [(u64, Event, Option<ServerView>); 9] = [
    (1, Event::Advanced(1), None),
    (
        1,
        Event::Accepted {
            job: JOB,
            number: 0,
            promised: None,
        },
        Some(CAME),
    ),
    (2, UNIT, Some(ServerView { budget: 1, ..CAME })),
    (3, UNIT, Some(THROTTLED)),
    (
        4,
        Event::NotAccepted {
            job: REFUSED,
            error: CoreError::BacklogFull,
        },
        Some(THROTTLED),
    ),
    (11, Event::Advanced(8), None),
    (12, LAST, Some(DONE)),
    (
        14,
        Event::Charged {
            server: 0,
            ticks: 2,
        },
        Some(ServerView {
            budget: 0,
            throttled: true,
            ..DONE
        }),
    ),
    (25, Event::Advanced(11), None),
];

/// What the server does.
static SPANS: [(Kind, u64, u64); 5] = [
    (Kind::Runs(0), 2, 3),
    (Kind::Throttled, 3, 11),
    (Kind::Runs(0), 11, 12),
    (Kind::Charged, 12, 14),
    (Kind::Resting, 14, 20),
];

/// When a release is refused, and when a job is late.
static REFUSALS: [(Kind, u64, u64); 1] = [(Kind::Refused, 4, 5)];

static LATE: [(Kind, u64, u64); 1] = [(Kind::Late, 9, 14)];

/// Returns the chart of the steps.
fn chart_of_steps(alloc: Global) -> Result<Chart, Fail> {
    let mut plan = Plan::new(Bound::new(1, 1)?);
    plan.admit(Reservation::new(2, 10)?)?;
    let window = Window::new(2, 20)?;
    let mut chart = ChartView::new(alloc, window, &plan)?;
    for &(clock, event, view) in &STEPS {
        chart.see(&mut (), Seen { clock, event, view })?;
    }
    Ok(chart.into_chart(alloc, 25)?)
}

#[test]
fn a_chart_by_hand(rt: HostRuntime) -> Result<(), Fail> {
    let chart = chart_of_steps(rt.alloc())?;
    assert!(rt; chart.servers.len() == 1);
    let server = &chart.servers[0];
    same_stretches(&rt, "spans", &server.spans, &SPANS);
    same_stretches(&rt, "refused", &server.refused, &REFUSALS);
    same(&rt, "refusals", server.refusals, 1);
    same_stretches(&rt, "late", &server.late, &LATE);
    // The job came before the window.
    same(&rt, "arrivals", server.arrivals.len(), 0);
    // The job ends with the charge for its last unit.
    same(&rt, "completions", server.completions.as_slice(), &[14]);
    same(&rt, "deadlines", server.deadlines.as_slice(), &[11]);
    same(&rt, "opening", server.opening, 1);
    same(&rt, "runs", Counts::of(&server.spans, 2, 20).runs, 2);
    Ok(())
}

/// The view of a soft server with its first job, and of the throttled one with a second job after [`DONE`].
const FIRST: ServerView = ServerView {
    budget: 1,
    deadline: 10,
    throttled: false,
    closed: false,
    accepted: 1,
    finished: 0,
};

const SECOND: ServerView = ServerView {
    budget: 0,
    throttled: true,
    accepted: 2,
    ..DONE
};

/// A unit of a third server is charged 6 ticks. Meanwhile a job comes for the soft server, which is its first, and one
/// for the throttled server, which has none.
static CHARGED_STEPS: [(u64, Event, Option<ServerView>); 5] = [
    (
        12,
        LAST,
        Some(ServerView {
            budget: 0,
            throttled: true,
            ..DONE
        }),
    ),
    (
        19,
        Event::Charged {
            server: 2,
            ticks: 6,
        },
        Some(FIRST),
    ),
    (
        19,
        Event::Accepted {
            job: Arrival { came: 15, ..JOB },
            number: 1,
            promised: None,
        },
        Some(SECOND),
    ),
    (
        19,
        Event::Accepted {
            job: Arrival {
                server: 1,
                came: 16,
                ..JOB
            },
            number: 0,
            promised: None,
        },
        Some(FIRST),
    ),
    (
        20,
        Event::Ran(Ran::Unit { server: 1, seq: 0 }),
        Some(ServerView { budget: 0, ..FIRST }),
    ),
];

/// What the throttled and the soft server do. Each has its job from when it came, and not only after the charge.
static HELD: [(Kind, u64, u64); 4] = [
    (Kind::Runs(0), 11, 12),
    (Kind::Resting, 12, 15),
    (Kind::Throttled, 15, 21),
    (Kind::Waits, 21, 24),
];

static WAITED: [(Kind, u64, u64); 3] = [
    (Kind::Waits, 16, 19),
    (Kind::Runs(0), 19, 20),
    (Kind::Waits, 20, 24),
];

#[test]
fn a_job_waits_from_when_it_came_in_anothers_charge(rt: HostRuntime) -> Result<(), Fail> {
    let mut plan = Plan::new(Bound::new(1, 1)?);
    for _server in 0..3 {
        plan.admit(Reservation::new(2, 10)?)?;
    }
    let mut view = ChartView::new(rt.alloc(), Window::new(2, 24)?, &plan)?;
    for &(clock, event, shows) in &CHARGED_STEPS {
        view.see(
            &mut (),
            Seen {
                clock,
                event,
                view: shows,
            },
        )?;
    }
    let chart = view.into_chart(rt.alloc(), 25)?;
    assert!(rt; chart.servers.len() == 3);
    same_stretches(&rt, "throttled", &chart.servers[0].spans, &HELD);
    same_stretches(&rt, "soft", &chart.servers[1].spans, &WAITED);
    Ok(())
}

#[test]
fn windows_have_limits(rt: HostRuntime) {
    same(
        &rt,
        "no tick",
        Window::new(5, 5).err(),
        Some(WindowError::Empty),
    );
    same(
        &rt,
        "too many",
        Window::new(0, 20_001).err(),
        Some(WindowError::TooLong),
    );
    assert!(rt; Window::new(7, 20_007).is_ok());
}
