//! Lists of steps, and their replies.

use super::rows::{Row, plays};
use super::{core_of, filled, same, same_at, sum_of};
use cbs_core::{Core, CoreError, Ran, Reply, Step};
use cbs_job::SumJob;
use cbs_rules::{LIMIT, Mode};
use linked_list_allocator::LocalHeap;
use std::alloc::{Allocator, Global};
use std::process::Abort;

/// A step that submits a sum of one number, or another step.
#[derive(Clone, Copy)]
enum Asked {
    Submit(u16, u32),
    Run,
    Advance(u64),
    Close(u16),
    Charge(u16, u64),
}

/// A reply without its job.
#[derive(Clone, Copy, Debug, PartialEq, Eq)]
enum Told {
    Accepted(u64),
    NotAccepted(CoreError),
    /// A run that finished a job: its server, number and output.
    Done(u16, u64, u64),
    Ran(Ran),
    Advanced,
    Closed,
    Charged,
    Refused(CoreError),
}

/// Returns the step that is asked for.
fn step_of(rt: &impl Abort, alloc: Global, asked: Asked) -> Step<SumJob> {
    match asked {
        Asked::Submit(server, number) => Step::Submit(server, sum_of(rt, alloc, &[number])),
        Asked::Run => Step::Run,
        Asked::Advance(n) => Step::Advance(n),
        Asked::Close(server) => Step::Close(server),
        Asked::Charge(server, ticks) => Step::Charge(server, ticks),
    }
}

/// Returns the list of these steps.
fn steps_of<A: Allocator>(
    rt: &impl Abort,
    global: Global,
    alloc: A,
    asked: &[Asked],
) -> Vec<Step<SumJob>, A> {
    let mut steps = Vec::with_capacity(alloc, asked.len()).expect(rt, "memory");
    for &step in asked {
        let step = step_of(rt, global, step);
        steps.push(step).ok().expect(rt, "memory");
    }
    steps
}

/// Returns a reply without its job.
fn without_job(reply: &Reply<SumJob>) -> Told {
    match reply {
        Reply::Accepted(number) => Told::Accepted(*number),
        Reply::NotAccepted(refused) => Told::NotAccepted(refused.error),
        Reply::Ran(Ran::Done(done)) => Told::Done(done.server, done.seq, done.result),
        Reply::Ran(ran) => Told::Ran(*ran),
        Reply::Advanced => Told::Advanced,
        Reply::Closed => Told::Closed,
        Reply::Charged => Told::Charged,
        Reply::Refused(error) => Told::Refused(*error),
    }
}

/// Makes steps, and checks their replies.
fn answers<A: Allocator + Clone>(
    rt: &impl Abort,
    name: &str,
    core: &mut Core<SumJob, A>,
    steps: Vec<Step<SumJob>, A>,
    wanted: &[Told],
) {
    let replies = core.run_steps(steps).ok().expect(rt, "replies");
    same(rt, name, replies.len(), wanted.len());
    for (place, reply) in replies.iter().enumerate() {
        let answer = Some(without_job(reply));
        same_at(
            rt,
            (name, place),
            "reply",
            answer,
            wanted.get(place).copied(),
        );
    }
}

/// A list of steps for a new core of soft servers, their replies, and the rows behind them.
#[derive(Clone, Copy)]
struct Listed {
    name: &'static str,
    /// The budget and the period of each server.
    rates: &'static [(u64, u64)],
    backlog: u64,
    asked: &'static [Asked],
    wanted: &'static [Told],
    behind: &'static [Row],
}

static LISTS: [Listed; 3] = [
    Listed {
        name: "steps are answered in order",
        rates: &[(2, 5), (2, 5)],
        backlog: 4,
        asked: &[
            Asked::Submit(0, 7),
            Asked::Submit(1, 9),
            Asked::Run,
            Asked::Run,
        ],
        wanted: &[
            Told::Accepted(0),
            Told::Accepted(0),
            Told::Done(0, 0, 7),
            Told::Done(1, 0, 9),
        ],
        behind: &[
            Row::Now(2),
            Row::State(0, 1, 5, false),
            Row::State(1, 1, 5, false),
        ],
    },
    Listed {
        name: "each step has its reply",
        rates: &[(2, 5)],
        backlog: 1,
        asked: &[
            Asked::Submit(0, 4),
            Asked::Submit(0, 5),
            Asked::Close(0),
            Asked::Close(0),
            Asked::Advance(LIMIT),
            Asked::Advance(1),
            Asked::Run,
        ],
        wanted: &[
            Told::Accepted(0),
            Told::NotAccepted(CoreError::BacklogFull),
            Told::Closed,
            Told::Refused(CoreError::Closed),
            Told::Advanced,
            Told::Refused(CoreError::ClockEnd),
            Told::Ran(Ran::ClockEnd),
        ],
        behind: &[],
    },
    Listed {
        name: "charges are steps, of which the first two are paid",
        rates: &[(2, 5), (2, 5)],
        backlog: 4,
        asked: &[
            Asked::Charge(0, 1),
            Asked::Submit(0, 7),
            Asked::Submit(1, 9),
            Asked::Run,
            Asked::Charge(0, 3),
            Asked::Charge(1, 1),
            Asked::Run,
            Asked::Charge(1, 0),
            Asked::Charge(1, LIMIT),
            Asked::Charge(2, 1),
        ],
        wanted: &[
            Told::Refused(CoreError::NotRunning),
            Told::Accepted(0),
            Told::Accepted(0),
            Told::Done(0, 0, 7),
            Told::Charged,
            Told::Refused(CoreError::NotRunning),
            Told::Done(1, 0, 9),
            Told::Charged,
            Told::Refused(CoreError::ClockEnd),
            Told::Refused(CoreError::NoSuchServer),
        ],
        behind: &[
            Row::Now(5),
            // The 4 ticks were two budgets.
            Row::State(0, 2, 15, false),
            Row::Charges(0, Ok((3, 3))),
            Row::State(1, 1, 5, false),
            Row::Charges(1, Ok((0, 0))),
            Row::Running(Some(1)),
        ],
    },
];

/// Makes the steps of a list on a new core, and checks the replies and what is behind them.
fn is_answered(rt: &impl Abort, alloc: Global, list: &Listed) {
    let mut core = core_of(rt, alloc, Mode::Soft, list.rates, list.backlog);
    let steps = steps_of(rt, alloc, alloc, list.asked);
    answers(rt, list.name, &mut core, steps, list.wanted);
    plays(rt, alloc, list.name, &mut core, list.behind);
}

#[test]
fn each_list_is_answered(rt: HostRuntime) {
    for list in &LISTS {
        is_answered(&rt, rt.alloc(), list);
    }
}

/// Submits sums of 1 to the first server until memory is refused. Returns how many were accepted.
fn takes_all_room(rt: &impl Abort, alloc: Global, core: &mut Core<SumJob, &LocalHeap>) -> u64 {
    for taken in 0..64 {
        if let Err(refused) = core.submit(0, sum_of(rt, alloc, &[1])) {
            same(rt, "refused.error", refused.error, CoreError::OutOfMemory);
            return taken;
        }
    }
    64
}

/// The steps of the list that finds no memory.
static ASKED: [Asked; 7] = [
    Asked::Submit(1, 2),
    Asked::Run,
    Asked::Submit(1, 2),
    Asked::Submit(0, 3),
    Asked::Run,
    Asked::Submit(0, 3),
    Asked::Run,
];

/// The rows after the list.
static AFTER: [Row; 3] = [
    Row::Now(3),
    Row::State(0, 2, 10, false),
    Row::State(1, 1, 6, false),
];

#[test]
fn a_step_that_finds_no_memory_is_marked(rt: HostRuntime) {
    let alloc = rt.alloc();
    let heap = LocalHeap::new(alloc, 1 << 14).expect(&rt, "a heap");
    let mut core = core_of(&rt, &heap, Mode::Soft, &[(2, 5), (2, 5)], 64);
    let steps = steps_of(&rt, alloc, &heap, &ASKED);
    same(&rt, "make_room", core.make_room(1), Ok(()));
    // The rest of the heap is as long as the replies, so no job finds memory. When a job is done there is room again,
    // for the next job of any server.
    let replies = Vec::<Reply<SumJob>, &LocalHeap>::with_capacity(&heap, ASKED.len());
    let ballast = filled(&rt, alloc, &heap);
    let taken = takes_all_room(&rt, alloc, &mut core);
    drop(replies.expect(&rt, "memory"));
    let wanted = [
        Told::NotAccepted(CoreError::OutOfMemory),
        Told::Done(0, 0, 1),
        Told::Accepted(0),
        Told::NotAccepted(CoreError::OutOfMemory),
        Told::Done(0, 1, 1),
        Told::Accepted(taken),
        Told::Done(1, 0, 2),
    ];
    answers(&rt, "no memory is found", &mut core, steps, &wanted);
    plays(&rt, alloc, "after the steps", &mut core, &AFTER);
    drop(ballast);
}
