//! Reports of runs, as tables.

use cbs_rate::{Bandwidth, Bound, Reservation};
use cbs_rules::Mode;
use cbsrun_figures::{Figures, Ranks};
use cbsrun_report_text::{RunReport, ServerReport};
use cbsrun_simulate::Range;
use std::alloc::Global;
use std::process::Abort;

/// The figures of a server that was asked for nothing.
pub(crate) const NOTHING: Figures = Figures {
    refused: 0,
    finished: 0,
    unfinished: 0,
    late_finished: 0,
    late_unfinished: 0,
    greatest_backlog: 0,
    asked: 0,
    run: 0,
    used_up: 0,
    throttled: 0,
    charged: 0,
    greatest_charge: 0,
    responses: None,
    response_total: 0,
    early_count: 0,
    early_total: 0,
    early_least: None,
};

/// A server of a report.
#[derive(Clone, Copy)]
pub(crate) struct Row {
    pub(crate) name: &'static str,
    pub(crate) mode: Mode,
    /// The budget and the period.
    pub(crate) rate: (u64, u64),
    /// Within how many ticks its jobs are to be finished: the least number and the greatest.
    pub(crate) within: Option<(u64, u64)>,
    pub(crate) figures: Figures,
}

/// A report of a run.
#[derive(Clone, Copy)]
pub(crate) struct Run {
    pub(crate) file: &'static str,
    pub(crate) seed: Option<u64>,
    pub(crate) clock: u64,
    pub(crate) idle: u64,
    pub(crate) backlog: u64,
    pub(crate) bound: (u64, u64),
    /// The share of the time that is reserved: ticks, of ticks.
    pub(crate) reserved: (u64, u64),
    pub(crate) servers: &'static [Row],
}

/// Returns the report of a server.
fn server_of(rt: &impl Abort, alloc: Global, row: &Row) -> ServerReport {
    let (budget, period) = row.rate;
    let reservation = Reservation::new(budget, period).ok();
    let within = match row.within {
        Some((least, greatest)) => Range::new(least, greatest),
        None => None,
    };
    ServerReport {
        name: String::from_str(alloc, row.name).ok().expect(rt, "memory"),
        mode: row.mode,
        reservation: reservation.expect(rt, "a reservation"),
        within,
        figures: row.figures,
    }
}

/// Returns the reports of servers.
fn servers_of(rt: &impl Abort, alloc: Global, rows: &[Row]) -> Vec<ServerReport> {
    let mut servers = Vec::new(alloc);
    for row in rows {
        servers
            .push(server_of(rt, alloc, row))
            .ok()
            .expect(rt, "memory");
    }
    servers
}

/// Returns the report of a run.
pub(crate) fn report_of(rt: &impl Abort, alloc: Global, run: &Run) -> RunReport {
    let (num, den) = run.bound;
    let (ticks, of) = run.reserved;
    RunReport {
        file: String::from_str(alloc, run.file).ok().expect(rt, "memory"),
        tick: None,
        seed: run.seed,
        clock: run.clock,
        idle: run.idle,
        backlog: run.backlog,
        bound: Bound::new(num, den).ok().expect(rt, "a bound"),
        reserved: Bandwidth { ticks, of },
        servers: servers_of(rt, alloc, run.servers),
    }
}

/// The first server of the robot.
pub(crate) const CONTROL: Row = Row {
    name: "control",
    mode: Mode::Soft,
    rate: (1, 5),
    within: Some((5, 5)),
    figures: Figures {
        finished: 40,
        greatest_backlog: 1,
        asked: 40,
        run: 40,
        used_up: 40,
        responses: Some(Ranks {
            least: 1,
            median: 1,
            p95: 1,
            p99: 1,
            greatest: 1,
        }),
        response_total: 40,
        early_count: 40,
        early_total: 160,
        early_least: Some(4),
        ..NOTHING
    },
};

/// The third server of the robot, which is throttled.
pub(crate) const LIDAR: Row = Row {
    name: "lidar",
    mode: Mode::Throttled,
    rate: (2, 10),
    within: Some((20, 20)),
    figures: Figures {
        finished: 10,
        greatest_backlog: 1,
        asked: 30,
        run: 30,
        used_up: 10,
        throttled: 80,
        responses: Some(Ranks {
            least: 11,
            median: 11,
            p95: 11,
            p99: 11,
            greatest: 11,
        }),
        response_total: 110,
        early_count: 10,
        early_total: 90,
        early_least: Some(9),
        ..NOTHING
    },
};
