//! The report of a task file, worked out by hand from the file's comments.

use super::same;
use cbsrun_figures::{Figures, Ranks};
use cbsrun_runs::{NoProgress, Replay, report_of};
use cbsrun_tasks::read_file;

/// Two throttled servers. The first has to wait for its deadline. The second refuses a job after its close.
const THROTTLED: &str = r#"
format = 2
bound = [3, 5]
backlog = 2
ring = 4
server = [
  { budget = 2, period = 5, mode = "throttled" },
  { budget = 2, period = 10, mode = "throttled" },
]
step = [
  { op = "submit", server = 0, job = "sum", units = [1, 2, 3, 4] },
  { op = "run" },
  { op = "run" },
  { op = "run" },
  { op = "submit", server = 1, job = "sum", units = [10] },
  { op = "run" },
  { op = "close", server = 1 },
  { op = "submit", server = 1, job = "sum", units = [11] },
  { op = "advance", ticks = 2 },
  { op = "run" },
  { op = "run" },
  { op = "advance", ticks = 3 },
  { op = "submit", server = 0, job = "peak", units = [6] },
  { op = "run" },
]
"#;

/// The figures of the first server. It has a job of 4 units from tick 0 to 7, promised by 10. It has a job of 1 unit
/// from 10 to 11, promised by 15. It is throttled with a job from tick 2 to 5.
const FIRST: Figures = Figures {
    refused: 0,
    finished: 2,
    unfinished: 0,
    late_finished: 0,
    late_unfinished: 0,
    greatest_backlog: 1,
    asked: 5,
    run: 5,
    used_up: 2,
    throttled: 3,
    charged: 0,
    greatest_charge: 0,
    responses: Some(Ranks {
        least: 1,
        median: 1,
        p95: 7,
        p99: 7,
        greatest: 7,
    }),
    response_total: 8,
    early_count: 2,
    early_total: 7,
    early_least: Some(3),
};

/// The figures of the second server. It has a job of 1 unit from tick 2 to 3, promised by 12, and a job that is
/// refused.
const SECOND: Figures = Figures {
    refused: 1,
    finished: 1,
    unfinished: 0,
    late_finished: 0,
    late_unfinished: 0,
    greatest_backlog: 1,
    asked: 2,
    run: 1,
    used_up: 0,
    throttled: 0,
    charged: 0,
    greatest_charge: 0,
    responses: Some(Ranks {
        least: 1,
        median: 1,
        p95: 1,
        p99: 1,
        greatest: 1,
    }),
    response_total: 1,
    early_count: 1,
    early_total: 9,
    early_least: Some(9),
};

#[test]
fn a_task_file_with_throttled_servers(rt: HostRuntime) {
    let alloc = rt.alloc();
    let tasks = read_file(alloc, THROTTLED.as_bytes())
        .ok()
        .expect(&rt, "a task file");
    let mut replay = Replay::of(tasks);
    let report = report_of(alloc, "THROTTLED.toml", &mut replay, &mut NoProgress)
        .ok()
        .expect(&rt, "memory");
    same(&rt, "file", report.file.as_str(), "THROTTLED.toml");
    same(&rt, "clock", report.clock, 11);
    same(&rt, "idle", report.idle, 5);
    assert!(rt; report.servers.len() == 2);
    let first = &report.servers[0];
    same(&rt, "the first name", first.name.as_str(), "server 0");
    same(&rt, "the first figures", first.figures, FIRST);
    let second = &report.servers[1];
    same(&rt, "the second name", second.name.as_str(), "server 1");
    same(&rt, "the second figures", second.figures, SECOND);
}
