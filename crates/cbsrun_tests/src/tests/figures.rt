//! The figures of steps that are made by hand.

use super::same;
use cbs_job::Completion;
use cbs_rate::{Bound, Plan, Reservation};
use cbs_steps::{CoreError, Ran, ServerView};
use cbsrun_events::{Arrival, Event, Seen, View};
use cbsrun_figures::{Figures, Ranks, Report};
use std::alloc::Global;
use std::process::Abort;

/// Returns a plan of servers with these budgets and periods.
fn plan_of(rt: &impl Abort, servers: &[(u64, u64)]) -> Plan {
    let mut plan = Plan::new(Bound::new(1, 1).ok().expect(rt, "bound"));
    for (budget, period) in servers {
        let reservation = Reservation::new(*budget, *period)
            .ok()
            .expect(rt, "reservation");
        plan.admit(reservation).ok().expect(rt, "admitted");
    }
    plan
}

/// Returns the view of a server.
fn view(
    budget: u64,
    deadline: u128,
    throttled: bool,
    accepted: u64,
    finished: u64,
) -> Option<ServerView> {
    Some(ServerView {
        budget,
        deadline,
        throttled,
        closed: false,
        accepted,
        finished,
    })
}

/// Returns a job that comes.
fn job(server: u16, came: u64, units: u32, within: Option<u64>) -> Arrival {
    Arrival {
        server,
        came,
        units,
        within,
    }
}

/// Returns the event of a job that is accepted.
fn accepted(job: Arrival, number: u64, promised: u128) -> Event {
    Event::Accepted {
        job,
        number,
        promised: Some(promised),
    }
}

/// Returns the event of a unit that is not its job's last.
fn unit(server: u16, seq: u64) -> Event {
    Event::Ran(Ran::Unit { server, seq })
}

/// Returns the event of a unit that is its job's last.
fn last(server: u16, seq: u64) -> Event {
    Event::Ran(Ran::Done(Completion {
        server,
        seq,
        result: 0,
    }))
}

/// Returns the figures of the server with this number.
fn at(rt: &impl Abort, figures: &[Figures], server: usize) -> Figures {
    *figures.get(server).expect(rt, "server")
}

/// Returns the figures of a plan's servers up to the tick `now`, after these steps. Also returns in how many ticks
/// nobody ran.
fn figures_of(
    rt: &impl Abort,
    alloc: Global,
    plan: &Plan,
    steps: &[(u64, Event, Option<ServerView>)],
    now: u64,
) -> (Vec<Figures>, u64) {
    let mut report = Report::new(alloc, plan).ok().expect(rt, "memory");
    for (clock, event, view) in steps {
        let seen = Seen {
            clock: *clock,
            event: *event,
            view: *view,
        };
        report.see(&mut (), seen).ok().expect(rt, "memory");
    }
    let idle = report.idle();
    let figures = report.figures(alloc, now).ok().expect(rt, "memory");
    (figures, idle)
}

/// A charge of the server 0.
fn charge(ticks: u64) -> Event {
    Event::Charged { server: 0, ticks }
}

/// Eight steps of one server: a job that is late, one that is refused, a charge, and a job that is not finished.
fn late_refused_and_charged() -> [(u64, Event, Option<ServerView>); 8] {
    [
        (
            0,
            accepted(job(0, 0, 3, Some(5)), 0, 10),
            view(2, 5, false, 1, 0),
        ),
        (1, unit(0, 0), view(1, 5, false, 1, 0)),
        (2, unit(0, 0), view(2, 10, false, 1, 0)),
        (
            2,
            Event::NotAccepted {
                job: job(0, 2, 4, Some(5)),
                error: CoreError::BacklogFull,
            },
            view(2, 10, false, 1, 0),
        ),
        (5, charge(3), view(1, 15, false, 1, 0)),
        (6, last(0, 0), view(2, 20, false, 1, 1)),
        (10, Event::Advanced(4), None),
        (
            10,
            accepted(job(0, 10, 1, Some(2)), 1, 20),
            view(2, 15, false, 2, 1),
        ),
    ]
}

#[test]
fn a_late_job_a_refused_one_and_a_charge_are_told(rt: HostRuntime) {
    let alloc = rt.alloc();
    let steps = late_refused_and_charged();
    let (figures, idle) = figures_of(&rt, alloc, &plan_of(&rt, &[(2, 5)]), &steps, 12);
    assert!(rt; idle == 4);
    assert!(rt; figures.len() == 1);
    assert!(rt;
        at(&rt, &figures, 0)
            == Figures {
                refused: 1,
                finished: 1,
                unfinished: 1,
                late_finished: 1,
                late_unfinished: 1,
                greatest_backlog: 1,
                asked: 8,
                run: 3,
                used_up: 2,
                throttled: 0,
                charged: 3,
                greatest_charge: 3,
                responses: Some(Ranks {
                    least: 6,
                    median: 6,
                    p95: 6,
                    p99: 6,
                    greatest: 6
                }),
                response_total: 6,
                early_count: 1,
                early_total: 4,
                early_least: Some(4),
            }
    );
}

/// Tests how long the jobs of server 0 took at least and at most, how many were late, and the least of the ticks by
/// which they were early. Each step is given with the clock after it.
fn ends(
    rt: &impl Abort,
    alloc: Global,
    label: &str,
    steps: &[(u64, Event)],
    (least, greatest): (u64, u64),
    late: u64,
    early: u128,
) {
    let plan = plan_of(rt, &[(5, 10), (2, 6)]);
    let mut report = Report::new(alloc, &plan).ok().expect(rt, "memory");
    for &(clock, event) in steps {
        let seen = Seen {
            clock,
            event,
            view: None,
        };
        report.see(&mut (), seen).ok().expect(rt, "memory");
    }
    let figures = report.figures(alloc, 60).ok().expect(rt, "memory");
    let first = at(rt, &figures, 0);
    let responses = first.responses.expect(rt, "responses");
    same(
        rt,
        label,
        (responses.least, responses.greatest),
        (least, greatest),
    );
    same(rt, label, first.late_finished, late);
    same(rt, label, first.early_least, Some(early));
}

#[test]
fn a_job_ends_with_the_last_charge_for_its_last_unit(rt: HostRuntime) {
    let alloc = rt.alloc();
    let came = accepted(job(0, 0, 1, Some(4)), 0, 10);
    let once = [(0, came), (1, last(0, 0)), (5, charge(4))];
    ends(&rt, alloc, "one charge", &once, (5, 5), 1, 5);
    let cut = [(0, came), (1, last(0, 0)), (4, charge(3))];
    ends(&rt, alloc, "in time", &cut, (4, 4), 0, 6);
    let parts = [(0, came), (1, last(0, 0)), (3, charge(2)), (5, charge(2))];
    ends(&rt, alloc, "two parts", &parts, (5, 5), 1, 5);
    let next = accepted(job(0, 1, 1, None), 1, 20);
    let between = [(0, came), (1, last(0, 0)), (1, next), (5, charge(4))];
    ends(&rt, alloc, "a submit between", &between, (5, 5), 1, 5);
    let first = [(0, came), (1, unit(0, 0)), (3, charge(2)), (4, last(0, 0))];
    ends(&rt, alloc, "an earlier unit", &first, (4, 4), 0, 6);
    // The second job came at 1, and its unit runs from 1 to 2. Its charge is none of the first one's.
    let backlog = [
        (0, came),
        (1, last(0, 0)),
        (1, next),
        (2, last(0, 1)),
        (8, charge(6)),
    ];
    ends(&rt, alloc, "the last of two", &backlog, (1, 7), 0, 9);
    let others = [
        (0, came),
        (1, last(0, 0)),
        (3, charge(2)),
        (4, last(1, 0)),
        (
            9,
            Event::Charged {
                server: 1,
                ticks: 5,
            },
        ),
    ];
    ends(&rt, alloc, "another server", &others, (3, 3), 0, 7);
}

#[test]
fn a_throttled_server_waits_until_its_deadline_or_the_end(rt: HostRuntime) {
    let alloc = rt.alloc();
    let steps = [
        (
            0,
            accepted(job(1, 0, 3, None), 0, 12),
            view(1, 4, false, 1, 0),
        ),
        (1, unit(1, 0), view(0, 4, true, 1, 0)),
        (
            2,
            accepted(job(1, 2, 1, None), 1, 16),
            view(0, 4, true, 2, 0),
        ),
        (4, Event::Advanced(2), None),
        (5, unit(1, 0), view(0, 8, true, 2, 0)),
    ];
    let (figures, idle) = figures_of(&rt, alloc, &plan_of(&rt, &[(1, 2), (1, 4)]), &steps, 6);
    assert!(rt; idle == 2);
    assert!(rt; at(&rt, &figures, 0).responses == None);
    assert!(rt; at(&rt, &figures, 1).throttled == 4);
    assert!(rt; at(&rt, &figures, 1).used_up == 2);
    assert!(rt; at(&rt, &figures, 1).greatest_backlog == 2);
    assert!(rt; at(&rt, &figures, 1).unfinished == 2);
    assert!(rt; at(&rt, &figures, 1).late_unfinished == 0);
    assert!(rt; at(&rt, &figures, 1).early_least == None);
}

#[test]
fn percentiles_are_by_nearest_rank(rt: HostRuntime) {
    let alloc = rt.alloc();
    let mut report = Report::new(alloc, &plan_of(&rt, &[(1, 1)]))
        .ok()
        .expect(&rt, "memory");
    // 150 jobs that take 150, 149, .. 1 ticks, each finished at tick 150.
    for number in 0..150 {
        let came = job(0, number, 1, None);
        for event in [accepted(came, number, 200), last(0, number)] {
            let seen = Seen {
                clock: 150,
                event,
                view: None,
            };
            report.see(&mut (), seen).ok().expect(&rt, "memory");
        }
    }
    let figures = report.figures(alloc, 150).ok().expect(&rt, "memory");
    assert!(rt;
        at(&rt, &figures, 0).responses
            == Some(Ranks {
                least: 1,
                median: 75,
                p95: 143,
                p99: 149,
                greatest: 150,
            })
    );
    assert!(rt; at(&rt, &figures, 0).response_total == 11325);
    assert!(rt; at(&rt, &figures, 0).early_total == 7500);
}
