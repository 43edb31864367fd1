//! Tests of reservations and plans on worked examples.

use super::{same, says};
use cbs_rate::{AdmitError, Bound, Plan, RateError, Reservation};
use std::process::Abort;

/// Returns the reservation of `budget` in every `period`, which must exist.
fn reserved(rt: &impl Abort, budget: u64, period: u64) -> Reservation {
    Reservation::new(budget, period).expect(rt, "a reservation")
}

/// Reservations that are asked for in turn in a new plan, each a budget, a period and the answer.
#[derive(Clone, Copy)]
struct Admission {
    bound: (u64, u64),
    asked: &'static [(u64, u64, Result<u16, AdmitError>)],
    /// How many are admitted.
    len: usize,
}

static ADMISSIONS: [Admission; 4] = [
    Admission {
        bound: (1, 1),
        // the least common multiple of the first two periods is 999999997000000002
        asked: &[
            (1, 999_999_999, Ok(0)),
            (1, 999_999_998, Ok(1)),
            (1, 999_999_997, Err(AdmitError::PeriodsTooFine)),
        ],
        len: 2,
    },
    Admission {
        bound: (1, 1),
        asked: &[
            (1, 3, Ok(0)),
            (1, 3, Ok(1)),
            (1, 3, Ok(2)),
            (1, 1_000_000_000, Err(AdmitError::OverBound)),
        ],
        len: 3,
    },
    Admission {
        bound: (1, 3),
        asked: &[(333_333_333, 1_000_000_000, Ok(0))],
        len: 1,
    },
    Admission {
        bound: (1, 3),
        asked: &[
            (333_333_334, 1_000_000_000, Err(AdmitError::OverBound)),
            (1, 3, Ok(0)),
            (1, 1_000_000_000, Err(AdmitError::OverBound)),
        ],
        len: 1,
    },
];

/// Asks a new plan for the reservations of an admission, and checks each answer and the plan behind them.
fn admits(rt: &impl Abort, admission: &Admission) {
    let (num, den) = admission.bound;
    let mut plan = Plan::new(Bound::new(num, den).expect(rt, "a bound"));
    assert!(rt; plan.is_empty());
    for &(budget, period, answer) in admission.asked {
        let reservation = reserved(rt, budget, period);
        let admitted = (budget, period, plan.admit(reservation));
        same(rt, "admit", admitted, (budget, period, answer));
        if let Ok(server) = answer {
            same(rt, "get", plan.get(server), Some(reservation));
        }
    }
    let len = admission.len;
    let held = (plan.len(), plan.is_empty());
    same(rt, "len, is_empty", held, (len, len == 0));
    same(rt, "get beyond the servers", plan.get(64), None);
}

#[test]
fn admits_exactly_up_to_the_limits(rt: HostRuntime) {
    for admission in &ADMISSIONS {
        admits(&rt, admission);
    }
}

#[test]
fn refuses_the_sixty_fifth_server(rt: HostRuntime) {
    let mut plan = Plan::new(Bound::new(1, 1).expect(&rt, "a bound"));
    let reservation = reserved(&rt, 1, 1000);
    for server in 0..64 {
        same(&rt, "admit", plan.admit(reservation), Ok(server));
    }
    let refused = plan.admit(reservation);
    same(&rt, "admit", refused, Err(AdmitError::TooManyServers));
    same(&rt, "len", plan.len(), 64);
}

/// Servers, each a budget and a period, and for each further period the greatest budget that a plan of them still
/// admits.
static LEFT: [(&[(u64, u64)], &[(u64, u64)]); 4] = [
    (&[], &[(0, 0), (1, 0), (10, 9), (1_000_000_001, 0)]),
    // half of the processor is reserved, and two fifths are left
    (
        &[(1, 5), (6, 20)],
        &[
            (2, 0),
            (5, 2),
            (7, 2),
            (10, 4),
            (1_000_000_000, 400_000_000),
        ],
    ),
    // the common multiple would be too great
    (
        &[(1, 999_999_999), (1, 999_999_998)],
        &[(999_999_997, 0), (999_999_998, 899_999_996)],
    ),
    (&[(1, 1000); 64], &[(1000, 0)]),
];

#[test]
fn tells_the_greatest_budget(rt: HostRuntime) {
    for &(servers, rows) in &LEFT {
        leaves(&rt, servers, rows);
    }
}

/// Checks for each period the greatest budget that a plan of these servers still admits under nine tenths.
fn leaves(rt: &impl Abort, servers: &[(u64, u64)], rows: &[(u64, u64)]) {
    let mut plan = Plan::new(Bound::new(9, 10).expect(rt, "a bound"));
    for &(budget, period) in servers {
        let admitted = plan.admit(reserved(rt, budget, period));
        same(rt, "admitted", admitted.is_ok(), true);
    }
    for &(period, budget) in rows {
        let left = (period, plan.greatest_budget(period));
        same(rt, "greatest budget", left, (period, budget));
    }
}

/// Checks that a reservation of `budget` in every `period` is refused by this error.
fn refuses(rt: &impl Abort, budget: u64, period: u64, error: RateError) {
    let made = (budget, period, Reservation::new(budget, period));
    same(rt, "reservation", made, (budget, period, Err(error)));
}

/// Checks that a bound of these two numbers is refused.
fn refuses_bound(rt: &impl Abort, num: u64, den: u64) {
    let made = (num, den, Bound::new(num, den));
    same(rt, "bound", made, (num, den, Err(RateError::BadBound)));
}

#[test]
fn refuses_numbers_outside_the_limits(rt: HostRuntime) {
    refuses(&rt, 0, 5, RateError::ZeroBudget);
    refuses(&rt, 0, 0, RateError::ZeroBudget);
    refuses(&rt, 5, 1_000_000_001, RateError::PeriodTooLong);
    refuses(&rt, 6, 5, RateError::BudgetOverPeriod);
    refuses(&rt, 1, 0, RateError::BudgetOverPeriod);
    let longest = reserved(&rt, 1_000_000_000, 1_000_000_000);
    same(&rt, "budget", longest.budget(), 1_000_000_000);
    same(&rt, "period", longest.period(), 1_000_000_000);
    refuses_bound(&rt, 0, 1);
    refuses_bound(&rt, 2, 1);
    refuses_bound(&rt, 1, 1_000_001);
}

#[test]
fn compares_bandwidths_exactly(rt: HostRuntime) {
    let third = reserved(&rt, 1, 3);
    let less = reserved(&rt, 333_333_333, 1_000_000_000);
    assert!(rt; !third.at_most(&less));
    assert!(rt; less.at_most(&third));
    assert!(rt; third.at_most(&third));
}

/// The number, the name and the text of each error.
static ERRORS: [(RateError, u8, &str, &str); 4] = [
    (
        RateError::ZeroBudget,
        1,
        "ZeroBudget",
        "the budget is 0: a reservation needs a budget of at least 1 tick",
    ),
    (
        RateError::PeriodTooLong,
        2,
        "PeriodTooLong",
        "the period is longer than 1000000000 ticks",
    ),
    (
        RateError::BudgetOverPeriod,
        3,
        "BudgetOverPeriod",
        "the budget is larger than the period",
    ),
    (
        RateError::BadBound,
        4,
        "BadBound",
        "a bound N/D needs 1 <= N <= D <= 1000000",
    ),
];

#[test]
fn errors_say_what_is_wrong(rt: HostRuntime) {
    for &(error, number, name, text) in &ERRORS {
        same(&rt, name, (error.number(), error.name()), (number, name));
        says(&rt, rt.alloc(), &error, text);
    }
}

/// The number, the name and the text of each refusal of a server.
static REFUSALS: [(AdmitError, u8, &str, &str); 3] = [
    (
        AdmitError::TooManyServers,
        1,
        "TooManyServers",
        "the plan has 64 servers already, and takes no more",
    ),
    (
        AdmitError::PeriodsTooFine,
        2,
        "PeriodsTooFine",
        "the least common multiple of all periods would pass 10^18: choose periods that share more factors",
    ),
    (
        AdmitError::OverBound,
        3,
        "OverBound",
        "the total bandwidth would pass the plan's bound: a smaller budget or a longer period may fit",
    ),
];

#[test]
fn refused_admissions_say_what_is_wrong(rt: HostRuntime) {
    for &(error, number, name, text) in &REFUSALS {
        same(&rt, name, (error.number(), error.name()), (number, name));
        says(&rt, rt.alloc(), &error, text);
    }
}
