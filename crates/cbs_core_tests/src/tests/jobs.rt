//! Tests of tasks, and of the jobs of task files, on worked examples.

use super::{same, says};
use cbs_job::{FileJob, PeakJob, SumJob, Task, TaskError, Work};
use std::alloc::Global;
use std::process::Abort;

/// Makes a task of `work`, and checks its refusal, if there is one, and the units left.
fn answers<W: Work>(rt: &impl Abort, work: W, units: u32, refusal: Option<TaskError>) {
    match Task::new(work) {
        Ok(task) => {
            same(rt, "task", (task.left(), None), (units, refusal));
            same(rt, "left once started", task.start().left(), units);
        }
        Err(refused) => {
            let seen = (refused.work.left(), Some(refused.error));
            same(rt, "left once refused", seen, (units, refusal));
        }
    }
}

/// Returns a sum of these numbers.
fn sum(rt: &impl Abort, alloc: Global, numbers: &[u32]) -> SumJob {
    assert!(rt; numbers.len() <= 1_000_001);
    SumJob::new(Vec::from_slice(alloc, numbers).expect(rt, "memory"))
}

/// Returns a peak of these numbers.
fn peak(rt: &impl Abort, alloc: Global, numbers: &[u32]) -> PeakJob {
    assert!(rt; numbers.len() <= 1_000_001);
    PeakJob::new(Vec::from_slice(alloc, numbers).expect(rt, "memory"))
}

/// Numbers of units, and why a task of so many is refused, if it is.
static UNITS: [(usize, Option<TaskError>); 4] = [
    (0, Some(TaskError::EmptyJob)),
    (1, None),
    (1_000_000, None),
    (1_000_001, Some(TaskError::TooLong)),
];

#[test]
fn takes_one_to_a_million_units(rt: HostRuntime) {
    let alloc = rt.alloc();
    let numbers = vec![in alloc; 7; 1_000_001].expect(&rt, "memory");
    for &(units, refusal) in &UNITS {
        assert!(rt; units <= numbers.len());
        all_answer(&rt, alloc, &numbers[..units], units as u32, refusal);
    }
}

/// Makes a task of each kind of job of these numbers.
fn all_answer(
    rt: &impl Abort,
    alloc: Global,
    numbers: &[u32],
    units: u32,
    refusal: Option<TaskError>,
) {
    answers(rt, sum(rt, alloc, numbers), units, refusal);
    answers(rt, peak(rt, alloc, numbers), units, refusal);
    answers(rt, FileJob::from(sum(rt, alloc, numbers)), units, refusal);
    answers(rt, FileJob::from(peak(rt, alloc, numbers)), units, refusal);
}

/// Starts a task of `work` and does all its units. Checks the outputs before each unit and at the end, given by
/// `outputs`.
fn comes_to<W: Work>(rt: &impl Abort, work: W, outputs: &[u64]) {
    let Ok(task) = Task::new(work) else {
        panic!(rt; "a task");
    };
    let mut running = task.start();
    let mut units = outputs.len();
    for &output in outputs {
        units = units.saturating_sub(1);
        let seen = (running.output(), running.left() as usize);
        same(rt, "output, left", seen, (output, units));
        if running.left() > 0 {
            running.step();
        }
    }
    same(rt, "left at the end", units, 0);
}

/// Numbers, and the outputs of a sum and of a peak of them before each unit and at the end.
static OUTPUTS: [(&[u32], &[u64], &[u64]); 3] = [
    (&[4, 9, 2], &[0, 4, 13, 15], &[0, 4, 9, 9]),
    (
        &[4_294_967_295, 4_294_967_295],
        &[0, 4_294_967_295, 8_589_934_590],
        &[0, 4_294_967_295, 4_294_967_295],
    ),
    (
        &[0, 4_294_967_295, 1],
        &[0, 0, 4_294_967_295, 4_294_967_296],
        &[0, 0, 4_294_967_295, 4_294_967_295],
    ),
];

#[test]
fn each_unit_takes_a_number_in(rt: HostRuntime) {
    let alloc = rt.alloc();
    for &(numbers, sums, peaks) in &OUTPUTS {
        comes_to(&rt, sum(&rt, alloc, numbers), sums);
        comes_to(&rt, peak(&rt, alloc, numbers), peaks);
        comes_to(&rt, FileJob::from(sum(&rt, alloc, numbers)), sums);
        comes_to(&rt, FileJob::from(peak(&rt, alloc, numbers)), peaks);
    }
}

/// The number, the name and the text of each error.
static ERRORS: [(TaskError, u8, &str, &str); 2] = [
    (
        TaskError::EmptyJob,
        1,
        "EmptyJob",
        "the job is empty: a job has at least 1 unit",
    ),
    (
        TaskError::TooLong,
        2,
        "TooLong",
        "the job is too long: a job has at most 1000000 units",
    ),
];

#[test]
fn errors_say_what_is_wrong(rt: HostRuntime) {
    for &(error, number, name, text) in &ERRORS {
        same(&rt, name, (error.number(), error.name()), (number, name));
        says(&rt, rt.alloc(), &error, text);
    }
}
