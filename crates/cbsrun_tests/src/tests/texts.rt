//! Whole reports, and verdicts.
//!
//! The robot's load and its expected text come from an independent program with another scheduler. More reports stand
//! in `examples/`, and in `tests/reports.txt` at the top of the repository.

use crate::tests::reports::{CONTROL, LIDAR, NOTHING, Row, Run, report_of};
use crate::tests::same;
use cbs_rules::Mode;
use cbsrun_figures::{Figures, Ranks};
use cbsrun_report_text::report_text;
use std::alloc::Global;
use std::process::Abort;

/// Returns the text of the report of a run.
fn text_of(rt: &impl Abort, alloc: Global, run: &Run) -> String {
    let report = report_of(rt, alloc, run);
    assert!(rt; report.servers.len() <= 64);
    report_text(alloc, &report, &[]).ok().expect(rt, "memory")
}

/// The second server of the robot, as it ran beside a logging that is asked for less.
const CALM_VISION: Row = Row {
    name: "vision",
    mode: Mode::Soft,
    rate: (6, 20),
    within: Some((20, 20)),
    figures: Figures {
        finished: 10,
        greatest_backlog: 1,
        asked: 60,
        run: 60,
        used_up: 10,
        responses: Some(Ranks {
            least: 10,
            median: 10,
            p95: 12,
            p99: 12,
            greatest: 12,
        }),
        response_total: 106,
        early_count: 10,
        early_total: 94,
        early_least: Some(8),
        ..NOTHING
    },
};

/// The fourth server of the robot, which is asked for less.
const CALM_LOGGING: Row = Row {
    name: "logging",
    mode: Mode::Soft,
    rate: (1, 10),
    within: Some((20, 20)),
    figures: Figures {
        finished: 10,
        greatest_backlog: 2,
        asked: 15,
        run: 15,
        used_up: 15,
        responses: Some(Ranks {
            least: 1,
            median: 3,
            p95: 11,
            p99: 11,
            greatest: 11,
        }),
        response_total: 43,
        early_count: 10,
        early_total: 149,
        early_least: Some(8),
        ..NOTHING
    },
};

/// A server that refused a job.
const ONE_REFUSED: Row = Row {
    name: "a",
    mode: Mode::Soft,
    rate: (1, 4),
    within: None,
    figures: Figures {
        refused: 1,
        unfinished: 1,
        greatest_backlog: 1,
        asked: 2,
        ..NOTHING
    },
};

/// A server that was charged.
const ARM: Row = Row {
    name: "arm",
    mode: Mode::Soft,
    rate: (2, 10),
    within: Some((10, 20)),
    figures: Figures {
        finished: 10,
        greatest_backlog: 1,
        asked: 20,
        run: 20,
        used_up: 8,
        charged: 10,
        greatest_charge: 3,
        responses: Some(Ranks {
            least: 2,
            median: 4,
            p95: 7,
            p99: 7,
            greatest: 7,
        }),
        response_total: 45,
        early_count: 10,
        early_total: 61,
        early_least: Some(3),
        ..NOTHING
    },
};

/// A server beside it that was asked for nothing.
const LEG: Row = Row {
    name: "leg",
    mode: Mode::Soft,
    rate: (1, 10),
    within: None,
    figures: NOTHING,
};

/// The expected text of the report of a robot whose logging is asked for less.
const IN_TIME: &str = "\
in time: no job late, none refused, of 70

ROBOT.toml, ticks 0 to 200: 145 run (72.5 %), 55 idle

JOBS     released  refused  finished  unfinished  late  backlog
control        40        0        40           0     0   1 of 4
vision         10        0        10           0     0   1 of 4
lidar          10        0        10           0     0   1 of 4
logging        10        0        10           0     0   2 of 4
all            70        0        70           0     0

TICKS     budget  reserved   asked     got  run  used up  throttled
control   1 in 5    20.0 %  20.0 %  20.0 %   40       40          0
vision   6 in 20    30.0 %  30.0 %  30.0 %   60       10          0
lidar    2 in 10    20.0 %  15.0 %  15.0 %   30       10         80
logging  1 in 10    10.0 %   7.5 %   7.5 %   15       15          0
all                 80.0 %  72.5 %  72.5 %  145       75         80

RESPONSE  least  mean  median  95 %  99 %  greatest  within
control       1   1.0       1     1     1         1       5
vision       10  10.6      10    12    12        12      20
lidar        11  11.0      11    11    11        11      20
logging       1   4.3       3    11    11        11      20

EARLY    least  mean
control      4   4.0
vision       8   9.4
lidar        9   9.0
logging      8  14.9
";

/// The expected text of the report of a refused job in no time.
const FULL: &str = "\
not in time: a: 1 of 2 refused

FULL.toml, ticks 0 to 0: 0 run (-), 0 idle

JOBS  released  refused  finished  unfinished  late  backlog
a            2        1!        0           1     -   1 of 1
all          2        1         0           1     0

TICKS  budget  reserved  asked  got  run  used up  throttled
a      1 in 4    25.0 %      -!   -    0        0          0
all              25.0 %      -    -    0        0          0

RESPONSE  least  mean  median  95 %  99 %  greatest  within
a             -     -       -     -     -         -       -

EARLY  least  mean
a          -     -

note: a asked for - of the time and has 25.0 % reserved
      no budget covers that
";

/// The expected text of a report with charges, which have a table.
const CHARGES: &str = "\
in time: no job late, none refused, of 10

HOST.toml, ticks 0 to 100: 20 run (20.0 %), 10 charged, 70 idle

JOBS  released  refused  finished  unfinished  late  backlog
arm         10        0        10           0     0   1 of 2
leg          0        0         0           0     -   0 of 2
all         10        0        10           0     0

TICKS   budget  reserved   asked     got  run  used up  throttled
arm    2 in 10    20.0 %  20.0 %  20.0 %   20        8          0
leg    1 in 10    10.0 %   0.0 %   0.0 %    0        0          0
all               30.0 %  20.0 %  20.0 %   20        8          0

RESPONSE  least  mean  median  95 %  99 %  greatest  within
arm           2   4.5       4     7     7         7  10..20
leg           -     -       -     -     -         -       -

EARLY  least  mean
arm        3   6.1
leg        -     -

CHARGES  ticks  greatest
arm         10         3
leg          0         0
all         10
";

/// Reports, and their texts.
static REPORTS: [(Run, &str); 3] = [
    (
        Run {
            file: "ROBOT.toml",
            seed: Some(7),
            clock: 200,
            idle: 55,
            backlog: 4,
            bound: (1, 1),
            reserved: (4, 5),
            servers: &[CONTROL, CALM_VISION, LIDAR, CALM_LOGGING],
        },
        IN_TIME,
    ),
    (
        Run {
            file: "FULL.toml",
            seed: Some(7),
            clock: 0,
            idle: 0,
            backlog: 1,
            bound: (1, 1),
            reserved: (1, 4),
            servers: &[ONE_REFUSED],
        },
        FULL,
    ),
    (
        Run {
            file: "HOST.toml",
            seed: Some(7),
            clock: 100,
            idle: 70,
            backlog: 2,
            bound: (1, 1),
            reserved: (3, 10),
            servers: &[ARM, LEG],
        },
        CHARGES,
    ),
];

#[test]
fn a_report_is_this_text(rt: HostRuntime) {
    for (run, wanted) in &REPORTS {
        let text = text_of(&rt, rt.alloc(), run);
        same(&rt, run.file, text.as_str(), *wanted);
    }
}

/// A server with a late job that has more reserved than it was asked for.
const LATE_ARM: Row = Row {
    name: "arm",
    mode: Mode::Soft,
    rate: (2, 10),
    within: Some((20, 20)),
    figures: Figures {
        finished: 2,
        late_finished: 1,
        asked: 8,
        run: 8,
        ..NOTHING
    },
};

/// The figures of a server with late jobs.
const LATE: Figures = Figures {
    finished: 5,
    late_finished: 2,
    ..NOTHING
};

/// The figures of a server that refused jobs.
const REFUSED: Figures = Figures {
    refused: 3,
    finished: 7,
    ..NOTHING
};

/// Reports, the beginnings of their texts, and their ends.
static ENDS: [(Run, &str, &str); 3] = [
    (
        Run {
            file: "MANY.toml",
            seed: Some(7),
            clock: 0,
            idle: 0,
            backlog: 4,
            bound: (1, 1),
            reserved: (5, 9),
            servers: &[
                Row {
                    name: "a",
                    mode: Mode::Soft,
                    rate: (1, 9),
                    within: None,
                    figures: NOTHING,
                },
                Row {
                    name: "b",
                    mode: Mode::Soft,
                    rate: (1, 9),
                    within: None,
                    figures: REFUSED,
                },
                Row {
                    name: "c",
                    mode: Mode::Soft,
                    rate: (1, 9),
                    within: None,
                    figures: LATE,
                },
                Row {
                    name: "d",
                    mode: Mode::Soft,
                    rate: (1, 9),
                    within: None,
                    figures: NOTHING,
                },
                Row {
                    name: "e",
                    mode: Mode::Soft,
                    rate: (1, 9),
                    within: None,
                    figures: REFUSED,
                },
            ],
        },
        "not in time: b: 3 of 10 refused, and 2 servers more\n",
        "",
    ),
    (
        Run {
            file: "MANY.toml",
            seed: Some(7),
            clock: 0,
            idle: 0,
            backlog: 4,
            bound: (1, 1),
            reserved: (5, 9),
            servers: &[
                Row {
                    name: "c",
                    mode: Mode::Soft,
                    rate: (1, 9),
                    within: None,
                    figures: LATE,
                },
                Row {
                    name: "d",
                    mode: Mode::Soft,
                    rate: (1, 9),
                    within: None,
                    figures: NOTHING,
                },
                Row {
                    name: "e",
                    mode: Mode::Soft,
                    rate: (1, 9),
                    within: None,
                    figures: REFUSED,
                },
            ],
        },
        "not in time: c: 2 of 5 jobs late, and 1 server more\n",
        "",
    ),
    (
        Run {
            file: "ARM.toml",
            seed: Some(7),
            clock: 1000,
            idle: 992,
            backlog: 4,
            bound: (1, 1),
            reserved: (1, 5),
            servers: &[LATE_ARM],
        },
        "not in time: arm: 1 of 2 jobs late\n\nARM.toml, ticks 0 to 1000: 8 run (0.8 %), 992 idle\n",
        "\n\nnote: arm asked for 0.8 % of the time and has 20.0 % reserved\n      that is enough: its jobs come in bursts, or less time is wanted than they take\n",
    ),
];

#[test]
fn a_report_begins_and_ends_so(rt: HostRuntime) {
    for (run, first, last) in &ENDS {
        let text = text_of(&rt, rt.alloc(), run);
        assert!(rt; text.as_str().starts_with(*first), "{text}");
        assert!(rt; text.as_str().ends_with(*last), "{text}");
    }
}
