//! Tests of the figures of servers, by rows that were found by hand.

use super::calls::sends;
use super::{house_of, same, same_at};
use cbs_core::Ran;
use cbs_live::{Ended, Figures, Spread, Told};
use cbs_pacer::{Next, Pacer, Rounding, Tick};
use cbs_rules::Mode;
use std::alloc::Global;
use std::process::Abort;

/// Numbers, and the summary of them.
struct Summary {
    name: &'static str,
    numbers: &'static [u64],
    /// How many they are, their sum, the least, the greatest and the mean.
    told: [u64; 5],
    /// So many of a thousand numbers are at most the other.
    bounds: &'static [(u64, u64)],
    /// A power, and how many are of it.
    powers: &'static [(usize, u64)],
}

static SUMMARIES: [Summary; 4] = [
    Summary {
        name: "none",
        numbers: &[],
        told: [0, 0, 0, 0, 0],
        bounds: &[(0, 0), (1000, 0)],
        powers: &[(0, 0), (64, 0)],
    },
    Summary {
        name: "one",
        numbers: &[6],
        told: [1, 6, 6, 6, 6],
        bounds: &[(0, 0), (1, 6), (1000, 6), (2000, 6)],
        powers: &[(2, 0), (3, 1), (4, 0)],
    },
    Summary {
        name: "both sides of powers",
        numbers: &[8, 3, 0, 2, 1, 7, 4, 1],
        told: [8, 26, 0, 8, 3],
        bounds: &[
            (125, 0),
            (126, 1),
            (375, 1),
            (376, 3),
            (625, 3),
            (875, 7),
            (876, 8),
        ],
        powers: &[(0, 1), (1, 2), (2, 2), (3, 2), (4, 1), (5, 0)],
    },
    Summary {
        name: "the greatest numbers",
        numbers: &[u64::MAX, 1 << 63, (1 << 63) - 1],
        told: [3, u64::MAX, (1 << 63) - 1, u64::MAX, u64::MAX / 3],
        bounds: &[(333, (1 << 63) - 1), (334, u64::MAX)],
        powers: &[(63, 1), (64, 2)],
    },
];

fn summarizes(rt: &impl Abort, row: &Summary) {
    let mut spread = Spread::new();
    for &number in row.numbers {
        spread.add(number);
    }
    let told = [
        spread.count,
        spread.total,
        spread.least,
        spread.greatest,
        spread.mean(),
    ];
    same(rt, row.name, told, row.told);
    for &(per_mille, bound) in row.bounds {
        same(rt, row.name, spread.at_most(per_mille), bound);
    }
    for &(power, numbers) in row.powers {
        assert!(rt; power < 65);
        same(rt, row.name, spread.powers[power], numbers);
    }
}

#[test]
fn numbers_are_summarized(rt: HostRuntime) {
    for row in &SUMMARIES {
        summarizes(&rt, row);
    }
}

/// Of a server with a reservation in a mode, units: the reading at which each is told, how long it takes, and by how many
/// ticks it is late. A tick is 1000 nanoseconds.
struct Late {
    server: (Mode, u64, u64),
    units: &'static [(u64, u64, u64)],
}

static LATE: [Late; 4] = [
    // The second unit uses the budget up, so the server shows the deadline 10 after it. It is charged 8.
    Late {
        server: (Mode::Soft, 2, 5),
        units: &[(0, 1000, 0), (1000, 8500, 5), (10_000, 1000, 0)],
    },
    // The first unit is charged 12, for which twelve periods pay.
    Late {
        server: (Mode::Throttled, 1, 10),
        units: &[(0, 12_500, 3), (130_000, 1000, 0)],
    },
    // The server is replenished at the end of each unit.
    Late {
        server: (Mode::Throttled, 1, 1),
        units: &[(0, 3500, 3), (4000, 1000, 0)],
    },
    Late {
        server: (Mode::Soft, 1, 1),
        units: &[(0, 1600, 1), (2000, 1000, 0)],
    },
];

fn is_late(rt: &impl Abort, alloc: Global, row: &Late, name: (&str, usize)) {
    let (mut house, mut clients) = house_of(rt, alloc, &[row.server], (4, 4));
    let client = clients.get_mut(0).expect(rt, "a client");
    sends(rt, alloc, name, client, &[1, 2, 3, 4], 0);
    let tick = Tick::new(1000).expect(rt, "a tick");
    let mut pacer = Pacer::begin(tick, Rounding::Up, 0, 0);
    let (_, whole, period) = row.server;
    for &(reading, took, late) in row.units {
        let next = pacer.next(&mut house, reading);
        same_at(
            rt,
            name,
            "next",
            next,
            Next::Do(Ran::Unit { server: 0, seq: 0 }),
        );
        let view = house.view(0).ok().expect(rt, "a view");
        let told = Told {
            whole,
            period,
            budget: view.budget,
            deadline: view.deadline,
        };
        let (clock, before) = (house.now(), pacer.counts().charged);
        pacer.done(&mut house, reading.saturating_add(took));
        let charged = pacer.counts().charged.saturating_sub(before);
        same_at(rt, name, "lateness", told.lateness(clock, charged), late);
    }
}

#[test]
fn units_are_late(rt: HostRuntime) {
    for (place, row) in LATE.iter().enumerate() {
        is_late(&rt, rt.alloc(), row, ("late", place));
    }
}

/// A unit that ended at this time, charged 2 ticks and late by 3.
fn ended(time: u64, done: Option<u64>) -> Ended {
    Ended {
        time,
        done,
        charged: 2,
        lateness: 3,
    }
}

// A ring of two places has the times of the last two jobs.
#[test]
fn each_response_is_of_its_job(rt: HostRuntime) {
    let mut came = [0; 2];
    let mut figures = Figures::new();
    figures.note_accepted(&mut came, 1, 100);
    figures.note_ended(&came, ended(150, None));
    same(&rt, "unfinished", figures.responses.count, 0);
    figures.note_ended(&came, ended(170, Some(0)));
    figures.note_accepted(&mut came, 3, 200);
    figures.note_accepted(&mut came, 2, 900);
    same(
        &rt,
        "noted before",
        (figures.accepted, came),
        (3, [200, 200]),
    );
    figures.note_accepted(&mut came, 4, 300);
    same(&rt, "the last two", came, [200, 300]);
    let times = [1, 2, 3, 4].map(|job| figures.accepted_at(&came, job));
    same(&rt, "times", times, [None, Some(200), Some(300), None]);
    figures.note_ended(&came, ended(450, Some(1)));
    figures.note_ended(&came, ended(460, Some(2)));
    figures.note_ended(&came, ended(290, Some(3)));
    let Spread { count, total, .. } = figures.responses;
    same(&rt, "responses", (count, total), (3, 70 + 260));
    same(&rt, "units", (figures.units, figures.charged), (5, 10));
    same(&rt, "lateness", figures.lateness.total, 15);
    figures.ticks = 16;
    same(&rt, "share", figures.share(), 937);
}
