//! Tests of the rules of one server on worked examples.

use super::{same, same_at};
use cbs_rate::{AdmitError, Bound, MAX_PERIOD, Reservation};
use cbs_rules::{LIMIT, MAX_DEADLINE, Mode, ServerState, Setup};
use std::process::Abort;

/// An event for a server, with the tick at which it happens.
#[derive(Clone, Copy)]
enum Event {
    Arrive(u64),
    Consume,
    Replenish(u64),
}

/// Makes an event happen to a server.
fn happens(rt: &impl Abort, mode: Mode, server: &mut ServerState, event: Event) {
    assert!(rt; server.deadline() <= MAX_DEADLINE);
    match event {
        Event::Arrive(now) => {
            assert!(rt; !server.throttled() && now <= LIMIT);
            server.arrive_idle(mode, now);
        }
        Event::Consume => {
            assert!(rt; !server.throttled() && server.budget() > 0);
            server.consume(mode);
        }
        Event::Replenish(now) => server.replenish(now),
    }
}

/// Checks the budget, the deadline and the flag 'throttled' of a server.
fn shows(rt: &impl Abort, at: (&str, usize), server: &ServerState, wanted: (u64, u128, bool)) {
    let state = (server.budget(), server.deadline(), server.throttled());
    same_at(rt, at, "state", state, wanted);
}

/// The events of a new server. After each stand its budget, its deadline and its flag 'throttled'.
#[derive(Clone, Copy)]
struct Life {
    name: &'static str,
    mode: Mode,
    /// The budget and the period.
    rate: (u64, u64),
    events: &'static [(Event, u64, u128, bool)],
}

/// Takes a new server through the events of a life, and checks its state at first and after each.
fn lives(rt: &impl Abort, life: &Life) {
    let (budget, period) = life.rate;
    let reservation = Reservation::new(budget, period).expect(rt, "a reservation");
    let mut server = ServerState::fresh(reservation);
    shows(rt, ("a new server", 0), &server, (0, 0, false));
    for (place, &(event, budget, deadline, throttled)) in life.events.iter().enumerate() {
        happens(rt, life.mode, &mut server, event);
        shows(
            rt,
            (life.name, place),
            &server,
            (budget, deadline, throttled),
        );
    }
}

static LIVES: [Life; 4] = [
    Life {
        name: "a soft server with 2 ticks in every 4",
        mode: Mode::Soft,
        rate: (2, 4),
        events: &[
            (Event::Arrive(0), 2, 4, false),
            (Event::Consume, 1, 4, false),
            (Event::Replenish(1), 1, 4, false),
            // 1 * 4 is as much as (4 - 2) * 2
            (Event::Arrive(2), 2, 6, false),
            (Event::Consume, 1, 6, false),
            (Event::Consume, 2, 10, false),
            (Event::Replenish(20), 2, 10, false),
            (Event::Arrive(20), 2, 24, false),
            (Event::Consume, 1, 24, false),
            // 1 * 4 is less than (24 - 21) * 2
            (Event::Arrive(21), 1, 24, false),
            (Event::Arrive(24), 2, 28, false),
        ],
    },
    Life {
        name: "a soft server with the longest period",
        mode: Mode::Soft,
        rate: (1, 1_000_000_000),
        events: &[
            (Event::Arrive(0), 1, 1_000_000_000, false),
            (Event::Consume, 1, 2_000_000_000, false),
            (Event::Consume, 1, 3_000_000_000, false),
            (Event::Consume, 1, 4_000_000_000, false),
            (Event::Arrive(1_000_000_000), 1, 4_000_000_000, false),
            // at the end of the clock
            (
                Event::Arrive(1_000_000_000_000),
                1,
                1_001_000_000_000,
                false,
            ),
        ],
    },
    Life {
        name: "a throttled server with 2 ticks in every 4",
        mode: Mode::Throttled,
        rate: (2, 4),
        events: &[
            (Event::Arrive(0), 2, 4, false),
            (Event::Consume, 1, 4, false),
            // 1 * 4 is no more than (4 - 2) * 2
            (Event::Arrive(2), 1, 4, false),
            // 1 * 4 is more than (4 - 3) * 2
            (Event::Arrive(3), 2, 7, false),
            (Event::Consume, 1, 7, false),
            (Event::Consume, 0, 7, true),
            (Event::Replenish(6), 0, 7, true),
            (Event::Replenish(7), 2, 11, false),
            (Event::Replenish(11), 2, 11, false),
            (Event::Arrive(11), 2, 15, false),
            (Event::Consume, 1, 15, false),
            (Event::Consume, 0, 15, true),
            // only one period, however late the replenishment is
            (Event::Replenish(40), 2, 19, false),
            (Event::Replenish(41), 2, 19, false),
            (Event::Consume, 1, 19, false),
            (Event::Consume, 0, 19, true),
            (Event::Replenish(43), 2, 23, false),
        ],
    },
    Life {
        name: "a throttled server with a tick in every 4",
        mode: Mode::Throttled,
        rate: (1, 4),
        events: &[
            (Event::Arrive(0), 1, 4, false),
            (Event::Consume, 0, 4, true),
            (Event::Replenish(4), 1, 8, false),
            // 1 * 4 is no more than (8 - 4) * 1
            (Event::Arrive(4), 1, 8, false),
            (Event::Arrive(5), 1, 9, false),
        ],
    },
];

#[test]
fn each_server_follows_its_rules(rt: HostRuntime) {
    for life in &LIVES {
        lives(&rt, life);
    }
}

#[test]
fn the_limits_are_those_of_a_clock_of_a_million_million_ticks(rt: HostRuntime) {
    same(&rt, "LIMIT", LIMIT, 1_000_000_000_000);
    let latest = u128::from(LIMIT) * u128::from(MAX_PERIOD) + u128::from(LIMIT);
    same(&rt, "MAX_DEADLINE", MAX_DEADLINE, latest);
}

/// Checks what a setup returns for a server.
fn admits(
    rt: &impl Abort,
    setup: &mut Setup,
    (reservation, mode): (Reservation, Mode),
    wanted: Result<u16, AdmitError>,
) {
    same(rt, "admit", setup.admit(reservation, mode), wanted);
}

#[test]
fn a_setup_has_a_mode_for_each_server(rt: HostRuntime) {
    let two_in_four = Reservation::new(2, 4).expect(&rt, "a reservation");
    let one_in_four = Reservation::new(1, 4).expect(&rt, "a reservation");
    let mut setup = Setup::new(Bound::new(3, 4).expect(&rt, "a bound"));
    let over = Err(AdmitError::OverBound);
    admits(&rt, &mut setup, (two_in_four, Mode::Throttled), Ok(0));
    admits(&rt, &mut setup, (two_in_four, Mode::Soft), over);
    admits(&rt, &mut setup, (one_in_four, Mode::Soft), Ok(1));
    same(&rt, "plan", setup.plan().get(1), Some(one_in_four));
    same(&rt, "modes", setup.modes().len(), 2);
    let (plan, modes) = setup.into_parts();
    same(&rt, "plan", plan.len(), 2);
    let each = (modes.get(0), modes.get(1));
    same(
        &rt,
        "modes",
        each,
        (Some(Mode::Throttled), Some(Mode::Soft)),
    );
}

/// A state of a server with 3 in every 10 ticks: its budget, its deadline, whether it is throttled, its overrun, and whether
/// a server may have it.
type Stand = (u64, u128, bool, u64, bool);

/// States, and whether a server may have them.
static STANDS: [Stand; 9] = [
    (0, 0, false, 0, true),
    (1, 0, false, 0, false),
    (3, 20, false, 0, true),
    (4, 20, false, 0, false),
    (0, 20, false, 0, false),
    (0, 20, true, 2, true),
    (0, 20, true, 3, false),
    (1, 20, true, 0, false),
    (2, 20, false, 1, false),
];

#[test]
fn a_server_stands_in_the_midst_of_a_run(rt: HostRuntime) {
    let reservation = Reservation::new(3, 10).expect(&rt, "a reservation");
    for (place, &(budget, deadline, throttled, overrun, may)) in STANDS.iter().enumerate() {
        let server = ServerState::at(reservation, budget, deadline, throttled, overrun);
        same_at(&rt, ("STANDS", place), "at", server.is_some(), may);
    }
    let server = ServerState::at(reservation, 0, 20, true, 2).expect(&rt, "a state");
    same(&rt, "is_of", server.is_of(reservation), true);
    shows(&rt, ("a throttled server", 0), &server, (0, 20, true));
}
