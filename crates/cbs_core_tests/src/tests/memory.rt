//! Tests of jobs of each kind in each memory, and of calls that are out of memory.

use super::rows::{Row, does, plays};
use super::{core_of, filled, same, sum_of};
use cbs_core::{Core, CoreError, Ran};
use cbs_job::{FileJob, PeakJob, SumJob, Task, Work};
use cbs_rules::Mode;
use cbs_units::CountJob;
use linked_list_allocator::LocalHeap;
use std::alloc::{Allocator, Global};
use std::process::Abort;

/// Returns the task that seeks the greatest of these numbers.
fn peak_of(rt: &impl Abort, alloc: Global, numbers: &[u32]) -> Task<PeakJob> {
    assert!(rt; numbers.len() < 100);
    let numbers = Vec::from_slice(alloc, numbers).expect(rt, "memory");
    Task::new(PeakJob::new(numbers)).ok().expect(rt, "a task")
}

/// Runs a task of three units, and checks its result.
fn comes_to<W: Work, A: Allocator + Clone>(rt: &impl Abort, alloc: A, task: Task<W>, output: u64) {
    let mut core = core_of(rt, alloc, Mode::Soft, &[(2, 5)], 4);
    same(rt, "submit", core.submit(0, task).ok(), Some(0));
    let rows = [
        Row::Unit(0),
        Row::Unit(0),
        Row::Done(0, 0, output),
        Row::State(0, 1, 10, false),
    ];
    for (place, &row) in rows.iter().enumerate() {
        does(rt, ("three units", place), &mut core, row);
    }
}

/// Runs a sum and a peak, each as itself and as a job of a task file, and a job that is only its units.
fn all_come_to<A: Allocator + Clone + Copy>(rt: &impl Abort, global: Global, alloc: A) {
    comes_to(rt, alloc, sum_of(rt, global, &[1, 2, 3]), 6);
    comes_to(rt, alloc, peak_of(rt, global, &[4, 9, 2]), 9);
    let sum = SumJob::new(Vec::from_slice(global, &[1, 2, 3]).expect(rt, "memory"));
    let peak = PeakJob::new(Vec::from_slice(global, &[4, 9, 2]).expect(rt, "memory"));
    let sum = Task::new(FileJob::Sum(sum)).ok().expect(rt, "a task");
    let peak = Task::new(FileJob::Peak(peak)).ok().expect(rt, "a task");
    comes_to(rt, alloc, sum, 6);
    comes_to(rt, alloc, peak, 9);
    let count = Task::new(CountJob { units: 3 }).ok().expect(rt, "a task");
    comes_to(rt, alloc, count, 0);
}

#[test]
fn jobs_of_any_kind_run_in_any_memory(rt: HostRuntime) {
    let alloc = rt.alloc();
    all_come_to(&rt, alloc, alloc);
    let heap = LocalHeap::new(alloc, 1 << 13).expect(&rt, "a heap");
    all_come_to(&rt, alloc, &heap);
}

/// What a core of two servers does without memory, with room for one job.
static WITHOUT_MEMORY: [Row; 15] = [
    Row::Close(0, Ok(())),
    Row::Run(Ran::Idle),
    Row::Submit(1, &[1, 2, 3], 0),
    Row::Close(1, Ok(())),
    Row::Unit(1),
    Row::Unit(1),
    Row::Run(Ran::Idle),
    Row::IdleSpan(Some(3)),
    Row::Advance(7, Ok(())),
    Row::State(1, 2, 10, false),
    Row::Done(1, 0, 6),
    Row::Now(10),
    // As much as the budget, and later than the deadline.
    Row::Charge(1, 1, Ok(())),
    Row::State(1, 2, 15, false),
    Row::Now(11),
];

/// A refusal of room for lack of memory.
static REFUSED: [Row; 1] = [Row::MakeRoom(1, Err(CoreError::OutOfMemory))];

#[test]
fn room_is_enough_for_the_next_job(rt: HostRuntime) {
    let alloc = rt.alloc();
    let heap = LocalHeap::new(alloc, 1 << 13).expect(&rt, "a heap");
    let mut core = core_of(&rt, &heap, Mode::Throttled, &[(2, 5), (2, 5)], 4);
    plays_full(&rt, alloc, &heap, &mut core, &REFUSED);
    same(&rt, "make_room", core.make_room(1), Ok(()));
    plays_full(&rt, alloc, &heap, &mut core, &WITHOUT_MEMORY);
}

/// Makes calls of a core while its heap is full.
fn plays_full(
    rt: &impl Abort,
    alloc: Global,
    heap: &LocalHeap,
    core: &mut Core<SumJob, &LocalHeap>,
    rows: &[Row],
) {
    let ballast = filled(rt, alloc, heap);
    plays(rt, alloc, "without memory", core, rows);
    drop(ballast);
}
