//! Reports as JSON. Those of the robot and of no server are in `examples/`, and in `tests/reports.txt` at the top of
//! the repository.

use crate::tests::reports::{NOTHING, Row, Run, report_of};
use crate::tests::same;
use cbs_rules::Mode;
use cbsrun_figures::{Figures, Ranks};
use cbsrun_report_json::report_json;
use std::alloc::{AllocError, Global};

/// Returns a line that is made of these parts.
fn line_of(alloc: Global, parts: &[&str]) -> Result<String, AllocError> {
    let mut line = String::new(alloc);
    for part in parts {
        line.push_str(part)?;
    }
    line.push('\n')?;
    Ok(line)
}

/// A server with charges.
const ARM: Row = Row {
    name: "arm",
    mode: Mode::Throttled,
    rate: (2, 10),
    within: Some((15, 25)),
    figures: Figures {
        refused: 3,
        finished: 10,
        unfinished: 4,
        late_finished: 2,
        late_unfinished: 1,
        greatest_backlog: 5,
        asked: 29,
        run: 20,
        used_up: 8,
        throttled: 6,
        charged: 11,
        greatest_charge: 7,
        responses: Some(Ranks {
            least: 2,
            median: 9,
            p95: 12,
            p99: 13,
            greatest: 14,
        }),
        response_total: 45,
        early_count: 8,
        early_total: 61,
        early_least: Some(0),
    },
};

/// A server with no finished job, and a name with quotes.
const LEG: Row = Row {
    name: "leg \"2\"",
    mode: Mode::Soft,
    rate: (1, 30),
    within: None,
    figures: Figures {
        unfinished: 1,
        greatest_backlog: 1,
        asked: 5,
        ..NOTHING
    },
};

/// A run of both.
static CHARGED_RUN: Run = Run {
    file: "a\tb.toml",
    seed: None,
    clock: 100,
    idle: 69,
    backlog: 12,
    bound: (9, 10),
    reserved: (7, 30),
    servers: &[ARM, LEG],
};

/// The expected text of its report.
const CHARGED: [&str; 12] = [
    r#"{"backlog":12,"bound":[9,10],"clock":100,"file":"a\tb.toml","in_time":false,"#,
    r#""jobs":{"finished":10,"late_finished":2,"late_unfinished":1,"refused":3,"released":18,"unfinished":5},"#,
    r#""report":1,"reserved":[7,30],"seed":null,"#,
    r#""servers":[{"budget":2,"charged_ticks":{"all":11,"greatest":7},"early_ticks":{"least":0,"mean":[61,8]},"#,
    r#""exhaustions":8,"greatest_backlog":5,"#,
    r#""jobs":{"finished":10,"late_finished":2,"late_unfinished":1,"refused":3,"released":17,"unfinished":4},"#,
    r#""mode":"throttled","name":"arm","period":10,"response_ticks":{"greatest":14,"least":2,"mean":[45,10],"median":9,"p95":12,"p99":13},"#,
    r#""throttled_with_job_ticks":6,"units":{"asked":29,"run":20},"within_ticks":{"greatest":25,"least":15}},"#,
    r#"{"budget":1,"charged_ticks":{"all":0,"greatest":0},"early_ticks":null,"exhaustions":0,"greatest_backlog":1,"#,
    r#""jobs":{"finished":0,"late_finished":0,"late_unfinished":0,"refused":0,"released":1,"unfinished":1},"mode":"soft","name":"leg \"2\"","#,
    r#""period":30,"response_ticks":null,"throttled_with_job_ticks":0,"units":{"asked":5,"run":0},"within_ticks":null}],"#,
    r#""tick_nanoseconds":null,"ticks":{"charged":11,"idle":69,"run":20},"unit":"tick"}"#,
];

#[test]
fn a_report_is_this_line(rt: HostRuntime) {
    let alloc = rt.alloc();
    let report = report_of(&rt, alloc, &CHARGED_RUN);
    let text = report_json(alloc, &report).ok().expect(&rt, "memory");
    let wanted = line_of(alloc, &CHARGED).ok().expect(&rt, "memory");
    same(&rt, "JSON", text.as_str(), wanted.as_str());
}

/// The figures of a server whose sums are too great.
const GREAT: Figures = Figures {
    finished: u64::MAX,
    unfinished: 1,
    run: u64::MAX,
    responses: Some(Ranks {
        least: 1,
        median: 2,
        p95: 3,
        p99: 4,
        greatest: 5,
    }),
    response_total: 1 << 100,
    early_count: 2,
    early_total: 1 << 65,
    early_least: Some(1 << 64),
    ..NOTHING
};

/// A run of two such servers.
static TWO_GREAT: Run = Run {
    file: "",
    seed: Some(u64::MAX),
    clock: 0,
    idle: 0,
    backlog: 1,
    bound: (1, 1),
    reserved: (1, 1),
    servers: &[
        Row {
            name: "a",
            mode: Mode::Soft,
            rate: (1, 2),
            within: None,
            figures: GREAT,
        },
        Row {
            name: "b",
            mode: Mode::Soft,
            rate: (1, 2),
            within: None,
            figures: GREAT,
        },
    ],
};

/// Parts of the expected text of its report.
const TOO_GREAT: [&str; 6] = [
    r#""seed":18446744073709551615,"#,
    r#""in_time":true,"#,
    r#""released":18446744073709551615,"unfinished":2},"report""#,
    r#""run":18446744073709551615},"unit""#,
    r#""mean":[18446744073709551615,18446744073709551615],"median":2"#,
    r#""early_ticks":{"least":18446744073709551615,"mean":[18446744073709551615,2]},"#,
];

#[test]
fn sums_that_are_too_great(rt: HostRuntime) {
    let alloc = rt.alloc();
    let report = report_of(&rt, alloc, &TWO_GREAT);
    let text = report_json(alloc, &report).ok().expect(&rt, "memory");
    for part in &TOO_GREAT {
        assert!(rt; text.as_str().contains(*part));
    }
}
