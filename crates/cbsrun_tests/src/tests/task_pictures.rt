//! The picture of a task file, worked out by hand.

use super::{same, same_stretches};
use cbsrun_chart::{Kind, Picture, Window};
use cbsrun_runs::{NoProgress, Replay, clock_of, picture_of, shown_of};
use cbsrun_tasks::{TaskFile, read_file};
use std::alloc::Global;
use std::process::Abort;

/// Two servers. The first is throttled with a job from tick 2 to 5, and without one from 7 to 10. The second refuses a
/// job at tick 3.
const TASKS: &str = r#"
format = 2
bound = [3, 5]
backlog = 2
ring = 4
server = [
  { budget = 2, period = 5, mode = "throttled" },
  { budget = 2, period = 10, mode = "soft" },
]
step = [
  { op = "submit", server = 0, job = "sum", units = [1, 2, 3, 4] },
  { op = "run" },
  { op = "run" },
  { op = "submit", server = 1, job = "sum", units = [10] },
  { op = "run" },
  { op = "close", server = 1 },
  { op = "submit", server = 1, job = "sum", units = [11] },
  { op = "advance", ticks = 2 },
  { op = "run" },
  { op = "run" },
  { op = "advance", ticks = 3 },
  { op = "submit", server = 0, job = "peak", units = [6] },
  { op = "run" },
]
"#;

/// What the first server does: what goes on, the first tick, and the tick after the last.
static FIRST: [(Kind, u64, u64); 5] = [
    (Kind::Runs(0), 1, 2),
    (Kind::Throttled, 2, 5),
    (Kind::Runs(0), 5, 7),
    (Kind::Resting, 7, 10),
    (Kind::Runs(1), 10, 11),
];

/// When jobs of the first server are finished.
static COMPLETED: [u64; 2] = [7, 11];

/// What the second server does.
static SECOND: [(Kind, u64, u64); 1] = [(Kind::Runs(0), 2, 3)];

/// When a release of the second server is refused.
static REFUSED: [(Kind, u64, u64); 1] = [(Kind::Refused, 3, 4)];

/// Returns the task file.
fn tasks(rt: &impl Abort, alloc: Global) -> TaskFile {
    read_file(alloc, TASKS.as_bytes())
        .ok()
        .expect(rt, "a task file")
}

/// Returns the tick at which the steps end.
fn end_of(rt: &impl Abort, alloc: Global) -> u64 {
    clock_of(alloc, tasks(rt, alloc)).ok().expect(rt, "memory")
}

/// Returns the picture from tick 1 on.
fn picture_from_1(rt: &impl Abort, alloc: Global, end: u64) -> Picture {
    let asked = Window::new(1, 20_001).ok().expect(rt, "ticks");
    let window = shown_of(asked, end).ok().expect(rt, "a tick");
    let mut replay = Replay::of(tasks(rt, alloc));
    picture_of(alloc, "a.toml", &mut replay, window, &mut NoProgress)
        .ok()
        .expect(rt, "memory")
}

#[test]
fn a_task_file_is_drawn_up_to_its_last_step(rt: HostRuntime) {
    let end = end_of(&rt, rt.alloc());
    same(&rt, "end", end, 11);
    let picture = picture_from_1(&rt, rt.alloc(), end);
    same(&rt, "from", picture.window.from, 1);
    same(&rt, "to", picture.window.to, 11);
    assert!(rt; picture.servers.len() == 2);
    let first = &picture.servers[0];
    same(&rt, "name", first.name.as_str(), "server 0");
    same_stretches(&rt, "first", &first.chart.spans, &FIRST);
    same(&rt, "first", first.chart.completions.as_slice(), &COMPLETED);
    let second = &picture.servers[1].chart;
    same_stretches(&rt, "second", &second.spans, &SECOND);
    same_stretches(&rt, "refused", &second.refused, &REFUSED);
}
