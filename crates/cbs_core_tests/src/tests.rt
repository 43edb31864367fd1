//! Tests of the core and the crates below it on worked examples.

mod calls;
mod charges;
mod early_ends;
mod errors;
mod in_time;
mod jobs;
mod lists;
mod memory;
mod promises;
mod rates;
mod restored;
mod rows;
mod rules;
mod scheduling;
mod tapes;

use cbs_core::{Core, Ran};
use cbs_job::{Completion, MAX_UNITS, SumJob, Task, Work};
use cbs_rate::{Bound, Plan, Reservation};
use cbs_rules::{Mode, Modes};
use linked_list_allocator::LocalHeap;
use std::alloc::{Allocator, Global};
use std::fmt::{Debug, Display};
use std::process::Abort;

/// Ends the test with the label and both values, unless they are the same.
fn same<T: Debug + Drop + PartialEq>(rt: &impl Abort, label: &str, answer: T, wanted: T) {
    assert!(rt; answer == wanted, "{label}: {answer:?}, not {wanted:?}");
}

/// Does the same for this place of the rows of this name.
fn same_at<T: Debug + Drop + PartialEq>(
    rt: &impl Abort,
    at: (&str, usize),
    label: &str,
    answer: T,
    wanted: T,
) {
    assert!(rt;
        answer == wanted,
        "{at:?}: {label}: {answer:?}, not {wanted:?}"
    );
}

/// Ends the test unless a value is displayed as this text.
fn says(rt: &impl Abort, alloc: Global, value: &impl Display, text: &str) {
    let said = format!(in alloc; "{value}").expect(rt, "memory");
    same(rt, text, said.as_str(), text);
}

/// Returns a plan of reservations, each a budget and a period.
fn plan_of(rt: &impl Abort, rates: &[(u64, u64)]) -> Plan {
    let mut plan = Plan::new(Bound::new(1, 1).expect(rt, "a bound"));
    for &(budget, period) in rates {
        let reservation = Reservation::new(budget, period).expect(rt, "a reservation");
        plan.admit(reservation).expect(rt, "a server");
    }
    plan
}

/// Returns the task that adds these numbers up.
fn sum_of(rt: &impl Abort, alloc: Global, numbers: &[u32]) -> Task<SumJob> {
    assert!(rt; numbers.len() < 2000);
    let numbers = Vec::from_slice(alloc, numbers).expect(rt, "memory");
    Task::new(SumJob::new(numbers)).ok().expect(rt, "a task")
}

/// Takes all memory of a heap, and returns what holds it.
fn filled<'a>(rt: &impl Abort, alloc: Global, heap: &'a LocalHeap) -> Vec<Vec<u8, &'a LocalHeap>> {
    let mut ballast = Vec::new(alloc);
    for _block in 0..heap.size() {
        let Ok(block) = Vec::with_capacity(heap, 1) else {
            break;
        };
        ballast.push(block).ok().expect(rt, "memory");
    }
    same(rt, "heap.free()", heap.free(), 0);
    ballast
}

/// Returns a core of servers with these reservations.
fn core_of<W: Work, A: Allocator + Clone>(
    rt: &impl Abort,
    alloc: A,
    mode: Mode,
    rates: &[(u64, u64)],
    backlog: u64,
) -> Core<W, A> {
    let plan = plan_of(rt, rates);
    let modes = Modes::uniform(mode, plan.len() as u16);
    Core::new(alloc, plan, modes, backlog).expect(rt, "a core")
}

/// Returns the whole result of a task.
fn whole<W: Work>(task: Task<W>) -> u64 {
    let mut running = task.start();
    for _unit in 0..MAX_UNITS {
        if running.left() == 0 {
            break;
        }
        running.step();
    }
    running.output()
}

/// Returns the result of a run after the last unit of a job.
fn done(server: u16, seq: u64, output: u64) -> Ran {
    Ran::Done(Completion {
        server,
        seq,
        result: output,
    })
}
