//! Tests of the house and its clients on worked examples.

ghost use Rattle.std.specs.Prelude.{◌≡◌, length};

mod calls;
mod charges;
mod closing;
mod collecting;
mod early;
mod errors;
mod figures;
mod handing;
mod handles;
mod in_time;
mod leaving;
mod meeting;
mod memory;
mod metering;
mod naps;
mod pacing;
mod patience;
mod polling;
mod recording;
mod rows;
mod serving;
mod turning;
mod widest;

use cbs_house::{Client, House, open_house};
use cbs_job::{SumJob, Task, Work};
use cbs_rate::{Bound, Plan, Reservation};
use cbs_rules::{Mode, Modes, Setup};
use linked_list_allocator::LocalHeap;
use std::alloc::{Allocator, Global};
use std::fmt::{Debug, Display};
use std::process::Abort;

/// Ends the test with the label and both values, unless they are the same.
fn same<T: Debug + Drop + PartialEq>(rt: &impl Abort, label: &str, answer: T, wanted: T) {
    assert!(rt; answer == wanted, "{label}: {answer:?}, not {wanted:?}");
}

/// Does the same for this place of the rows of this name.
fn same_at<T: Debug + Drop + PartialEq>(
    rt: &impl Abort,
    at: (&str, usize),
    label: &str,
    answer: T,
    wanted: T,
) {
    assert!(rt;
        answer == wanted,
        "{at:?}: {label}: {answer:?}, not {wanted:?}"
    );
}

/// Ends the test unless a value is displayed as this text.
fn says(rt: &impl Abort, alloc: Global, value: &impl Display, text: &str) {
    let said = format!(in alloc; "{value}").expect(rt, "memory");
    same(rt, text, said.as_str(), text);
}

/// Returns the plan and the modes of servers, each a mode, a budget and a period.
fn setup_of(rt: &impl Abort, servers: &[(Mode, u64, u64)]) -> (Plan, Modes)
    ensures { length result.1 ≡ length result.0.rates }
{
    let mut setup = Setup::new(Bound::new(1, 1).expect(rt, "a bound"));
    for &(mode, budget, period) in servers {
        let reservation = Reservation::new(budget, period).expect(rt, "a reservation");
        setup.admit(reservation, mode).expect(rt, "a server");
    }
    setup.into_parts()
}

/// Returns a house of these servers with this backlog and so many slots in each ring, and its clients.
fn house_of<W: Work, A: Allocator + Copy>(
    rt: &impl Abort,
    alloc: A,
    servers: &[(Mode, u64, u64)],
    (backlog, ring): (u64, u64),
) -> (House<W, A>, Vec<Client<W, A>, A>) {
    let (plan, modes) = setup_of(rt, servers);
    let opened = open_house(alloc, plan, modes, backlog, ring);
    opened.ok().expect(rt, "a house")
}

/// Returns the task that adds these numbers up.
fn sum_of(rt: &impl Abort, alloc: Global, numbers: &[u32]) -> Task<SumJob> {
    assert!(rt; numbers.len() < 2000);
    let numbers = Vec::from_slice(alloc, numbers).expect(rt, "memory");
    Task::new(SumJob::new(numbers)).ok().expect(rt, "a task")
}

/// Takes all memory of a heap, and returns what holds it.
fn filled<'a>(rt: &impl Abort, alloc: Global, heap: &'a LocalHeap) -> Vec<Vec<u8, &'a LocalHeap>> {
    let mut ballast = Vec::new(alloc);
    for _block in 0..heap.size() {
        let Ok(block) = Vec::with_capacity(heap, 1) else {
            break;
        };
        ballast.push(block).ok().expect(rt, "memory");
    }
    same(rt, "heap.free()", heap.free(), 0);
    ballast
}

/// Returns lists of tasks, each of which adds up the numbers at its place.
fn lists_of(rt: &impl Abort, alloc: Global, lists: &[&[&[u32]]]) -> Vec<Vec<Task<SumJob>>> {
    let mut all = Vec::new(alloc);
    for &list in lists {
        all.push(sums_of(rt, alloc, list)).ok().expect(rt, "memory");
    }
    all
}

/// Returns tasks, each of which adds up the numbers at its place.
fn sums_of(rt: &impl Abort, alloc: Global, list: &[&[u32]]) -> Vec<Task<SumJob>> {
    let mut tasks = Vec::new(alloc);
    for &numbers in list {
        tasks
            .push(sum_of(rt, alloc, numbers))
            .ok()
            .expect(rt, "memory");
    }
    tasks
}
