//! Rows that were worked out by hand: what is promised for sources, and parts by first fit.

use super::same;
use cbs_guarantee::{NotPromised, Part, Source, SplitError, guaranteed, split};
use cbs_rate::{Bound, Reservation};
use std::alloc::Global;
use std::process::Abort;

fn source(units: u32, every: u64) -> Source {
    Source {
        units,
        every,
        overrun: 0,
    }
}

fn overrunning(units: u32, every: u64, overrun: u32) -> Source {
    Source {
        units,
        every,
        overrun,
    }
}

/// Tests what is promised for the sources of a server. The server has a budget in every period, a delay by the others,
/// and a backlog.
fn promises(
    rt: &impl Abort,
    label: &str,
    (budget, period): (u64, u64),
    sources: &[Source],
    (delay, backlog): (u64, u64),
    wanted: Result<u64, NotPromised>,
) {
    match Reservation::new(budget, period) {
        Ok(server) => same(
            rt,
            label,
            guaranteed(server, sources, delay, backlog),
            wanted,
        ),
        Err(error) => panic!(rt; "{label}: {error:?}"),
    }
}

#[test]
fn one_source_each(rt: HostRuntime) {
    let control = [source(1, 5)];
    let vision = [source(6, 20)];
    let lidar = [source(3, 20)];
    promises(&rt, "control", (1, 5), &control, (0, 1), Ok(5));
    promises(&rt, "vision", (6, 20), &vision, (0, 1), Ok(20));
    // two jobs may be unfinished: one that comes at 20, and the one before, which is finished by 24
    promises(&rt, "late vision", (6, 20), &vision, (4, 2), Ok(24));
    // two budgets of 2 for three units
    promises(&rt, "lidar", (2, 10), &lidar, (0, 1), Ok(20));
    // five units take five budgets of 1, and may come every 4 ticks
    let logging = [source(5, 4)];
    promises(
        &rt,
        "logging",
        (1, 10),
        &logging,
        (0, 9),
        Err(NotPromised::AsksTooMuch),
    );
}

#[test]
fn several_sources(rt: HostRuntime) {
    // 1/2 + 1/2 of the time: 5 and 10 ticks, and in 15 ticks come two jobs of the first and one of the second
    let two = [source(1, 10), source(4, 20)];
    promises(&rt, "two", (2, 5), &two, (0, 3), Ok(15));
    promises(&rt, "delayed", (2, 5), &two, (6, 5), Ok(21));
    promises(
        &rt,
        "backlog",
        (2, 5),
        &two,
        (0, 2),
        Err(NotPromised::BacklogTooSmall { needed: 3 }),
    );
    let more = [source(1, 10), source(4, 19)];
    promises(
        &rt,
        "more",
        (2, 5),
        &more,
        (0, 3),
        Err(NotPromised::AsksTooMuch),
    );
    promises(&rt, "none", (2, 5), &[], (7, 0), Ok(7));
}

#[test]
fn overruns(rt: HostRuntime) {
    // three units of 2 ticks take three budgets of 2
    let one = [overrunning(3, 20, 1)];
    promises(&rt, "one", (2, 5), &one, (0, 1), Ok(15));
    promises(&rt, "just", (2, 5), &one, (5, 1), Ok(20));
    promises(
        &rt,
        "late",
        (2, 5),
        &one,
        (6, 9),
        Err(NotPromised::LateOverrun),
    );
    let two = [overrunning(1, 20, 1), source(1, 20)];
    promises(
        &rt,
        "two",
        (2, 5),
        &two,
        (0, 9),
        Err(NotPromised::SharedOverrun),
    );
}

#[test]
fn limits(rt: HostRuntime) {
    let limits = NotPromised::BeyondLimits;
    promises(&rt, "no unit", (2, 5), &[source(0, 5)], (0, 9), Err(limits));
    promises(&rt, "at once", (2, 5), &[source(1, 0)], (0, 9), Err(limits));
    promises(
        &rt,
        "seldom",
        (2, 5),
        &[source(1, 1_000_000_001)],
        (0, 9),
        Err(limits),
    );
    promises(
        &rt,
        "delay",
        (2, 5),
        &[source(1, 5)],
        (1_000_000_000_001, 9),
        Err(limits),
    );
    let widest = [overrunning(u32::MAX, 1_000_000_000, u32::MAX)];
    promises(
        &rt,
        "widest",
        (1, 1_000_000_000),
        &widest,
        (0, 9),
        Err(NotPromised::AsksTooMuch),
    );
}

/// Returns the servers of each part, for reservations with these budgets and periods.
fn parts_of(
    rt: &impl Abort,
    alloc: Global,
    (num, den): (u64, u64),
    numbers: &[(u64, u64)],
) -> Vec<Part> {
    let bound = Bound::new(num, den).expect(rt, "a bound");
    let mut reservations = Vec::new(alloc);
    for &(budget, period) in numbers {
        let reservation = Reservation::new(budget, period).expect(rt, "a reservation");
        reservations.push(reservation).expect(rt, "memory");
    }
    split(alloc, bound, &reservations).expect(rt, "parts")
}

#[test]
fn first_fit(rt: HostRuntime) {
    // 2 in all: 1/2 and 1/2 fill a part, and 2/5, 3/10, 1/5 and 1/10 the next
    let numbers = [(1, 10), (2, 4), (3, 10), (1, 5), (5, 10), (2, 5)];
    let parts = parts_of(&rt, rt.alloc(), (1, 1), &numbers);
    match &parts[..] {
        [first, second] => {
            same(&rt, "first", first.servers[..] == [1, 4], true);
            same(&rt, "second", second.servers[..] == [5, 2, 3, 0], true);
            same(
                &rt,
                "plan",
                second.plan.get(1),
                Reservation::new(3, 10).ok(),
            );
        }
        _ => panic!(&rt; "{} parts, not 2", parts.len()),
    }
}

#[test]
fn one_over_the_bound(rt: HostRuntime) {
    let bound = Bound::new(1, 2).expect(&rt, "a bound");
    let half = Reservation::new(1, 2).expect(&rt, "a reservation");
    let more = Reservation::new(3, 5).expect(&rt, "a reservation");
    let error = split(rt.alloc(), bound, &[half, more]).err();
    same(
        &rt,
        "over",
        error,
        Some(SplitError::OverBound { server: 1 }),
    );
}
