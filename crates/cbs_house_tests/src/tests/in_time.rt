//! Tests that no server is late in a house, and that each job is done when it was promised, after every step.

use super::rows::{Row, does};
use super::{house_of, same_at, sum_of};
use cbs_house::{Client, House, Poll};
use cbs_job::SumJob;
use cbs_rules::Mode;
use std::alloc::Global;
use std::process::Abort;

/// A call of a house or of one of its clients, with its result.
#[derive(Clone, Copy)]
enum Step {
    /// A job of these numbers that is sent to a server, with this number, and taken. Its promise is this tick.
    Take(u16, &'static [u32], u64, u128),
    /// A call of the house alone.
    Row(Row),
}

/// Steps of a new house with rings of one slot.
#[derive(Clone, Copy)]
struct Case {
    name: &'static str,
    /// The mode, the budget and the period of each server.
    servers: &'static [(Mode, u64, u64)],
    backlog: u64,
    steps: &'static [Step],
}

/// Checks that no server is late: ready, with a deadline that has come.
fn nobody_late(rt: &impl Abort, at: (&str, usize), house: &House<SumJob>) {
    let now = u128::from(house.now());
    for server in 0..house.servers() {
        if let Ok(view) = house.view(server) {
            let ready = view.finished < view.accepted && !view.throttled;
            let late = ready && view.deadline <= now;
            same_at(rt, at, "server, late", (server, late), (server, false));
        }
    }
}

/// Sends a job of these numbers to a server, and takes it. Checks its number and the tick that is promised.
fn takes(
    rt: &impl Abort,
    alloc: Global,
    at: (&str, usize),
    house: &mut House<SumJob>,
    client: &mut Client<SumJob>,
    (server, numbers, number, tick): (u16, &[u32], u64, u128),
) {
    let sent = client.send(sum_of(rt, alloc, numbers)).ok();
    let polled = house.poll(server);
    let taken = (sent, polled, house.promised(server));
    let wanted = (Some(number), Poll::Took(number), Some(tick));
    same_at(rt, at, "send, poll, promised", taken, wanted);
}

/// Makes the calls of a case, and checks after each the result, and that no server is late.
fn plays(rt: &impl Abort, alloc: Global, case: &Case) {
    let (mut house, mut clients) = house_of(rt, alloc, case.servers, (case.backlog, 1));
    for (place, &step) in case.steps.iter().enumerate() {
        let at = (case.name, place);
        match step {
            Step::Take(server, numbers, number, tick) => {
                let client = clients.get_mut(usize::from(server)).expect(rt, "a client");
                let job = (server, numbers, number, tick);
                takes(rt, alloc, at, &mut house, client, job);
            }
            Step::Row(row) => does(rt, at, &mut house, row),
        }
        nobody_late(rt, at, &house);
    }
}

static CASES: [Case; 2] = [
    Case {
        name: "nobody is late in a house of three servers",
        servers: &[
            (Mode::Throttled, 2, 5),
            (Mode::Throttled, 1, 10),
            (Mode::Throttled, 1, 4),
        ],
        backlog: 2,
        steps: &[
            Step::Take(0, &[1, 2, 3], 0, 10),
            Step::Take(2, &[10], 0, 4),
            Step::Take(0, &[4, 9, 2], 1, 15),
            Step::Take(2, &[20, 30], 1, 12),
            Step::Row(Row::Done(2, 0, 10)),
            Step::Row(Row::Now(1)),
            Step::Row(Row::Unit(0, 0)),
            Step::Row(Row::Unit(0, 0)),
            Step::Row(Row::IdleSpan(Some(1))),
            Step::Row(Row::Advance(1, Ok(()))),
            Step::Row(Row::Unit(2, 1)),
            Step::Row(Row::Done(0, 0, 6)),
            Step::Row(Row::Now(6)),
            Step::Row(Row::Unit(0, 1)),
            Step::Row(Row::IdleSpan(Some(1))),
            Step::Row(Row::Advance(1, Ok(()))),
            Step::Row(Row::Done(2, 1, 50)),
            Step::Row(Row::Now(9)),
            Step::Row(Row::IdleSpan(Some(1))),
            Step::Row(Row::Advance(1, Ok(()))),
            Step::Row(Row::Unit(0, 1)),
            Step::Row(Row::Done(0, 1, 15)),
            Step::Row(Row::Now(12)),
            Step::Row(Row::Results(0, Ok(&[6, 15]))),
            Step::Row(Row::Results(1, Ok(&[]))),
            Step::Row(Row::Results(2, Ok(&[10, 50]))),
            Step::Row(Row::Promised(0, None)),
        ],
    },
    Case {
        name: "jobs a period apart are done a period after they came",
        servers: &[(Mode::Throttled, 2, 2)],
        backlog: 1,
        steps: &[
            Step::Take(0, &[1, 1], 0, 2),
            Step::Row(Row::Unit(0, 0)),
            Step::Row(Row::Done(0, 0, 2)),
            Step::Row(Row::Now(2)),
            Step::Take(0, &[3, 4], 1, 4),
            Step::Row(Row::Unit(0, 1)),
            Step::Row(Row::Done(0, 1, 7)),
            Step::Row(Row::Now(4)),
            Step::Row(Row::Results(0, Ok(&[2, 7]))),
        ],
    },
];

#[test]
fn nobody_is_late(rt: HostRuntime) {
    let alloc = rt.alloc();
    for case in &CASES {
        plays(&rt, alloc, case);
    }
}
