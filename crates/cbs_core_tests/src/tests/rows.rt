//! Calls of a core in rows, each with its result.

use super::{done, same_at, sum_of, whole};
use cbs_core::{Core, CoreError, Ran, ServerView};
use cbs_job::{SumJob, Work};
use cbs_rate::{Bound, Reservation};
use cbs_rules::{Mode, Setup};
use std::alloc::{Allocator, Global};
use std::process::Abort;

/// A call of a core, with the result that a test checks.
#[derive(Clone, Copy)]
pub enum Row {
    /// A submit of a sum of these numbers to a server, and the number that the job gets.
    Submit(u16, &'static [u32], u64),
    /// A submit of a sum of this number alone, which is refused and comes back.
    Refused(u16, u32, CoreError),
    MakeRoom(u16, Result<(), CoreError>),
    Close(u16, Result<(), CoreError>),
    Advance(u64, Result<(), CoreError>),
    /// A charge of a server: its number, and the ticks.
    Charge(u16, u64, Result<(), CoreError>),
    /// An early end of the job that got the last unit: its server, and the number and the output of the job.
    Finish(u16, Result<(u64, u64), CoreError>),
    Run(Ran),
    /// A run of a unit that is not the last of a server's first job.
    Unit(u16),
    /// A run that finishes a job: its server, number and output.
    Done(u16, u64, u64),
    /// The clock.
    Now(u64),
    /// The server that would run.
    Ready(Option<u16>),
    /// The server that runs.
    Running(Option<u16>),
    /// The ticks that a server was charged, in total and at most for one unit.
    Charges(u16, Result<(u64, u64), CoreError>),
    IdleSpan(Option<u64>),
    Promised(u16, Option<u128>),
    /// A server's budget, deadline and flag 'throttled'.
    State(u16, u64, u128, bool),
    View(u16, Result<ServerView, CoreError>),
}

/// The calls of a new core, in rows.
#[derive(Clone, Copy)]
pub struct Case {
    pub name: &'static str,
    /// The mode, the budget and the period of each server.
    pub servers: &'static [(Mode, u64, u64)],
    pub backlog: u64,
    pub rows: &'static [Row],
}

/// Returns the core of a case, as it is at first.
pub fn new_core(rt: &impl Abort, alloc: Global, case: &Case) -> Core<SumJob> {
    let mut setup = Setup::new(Bound::new(1, 1).expect(rt, "a bound"));
    for &(mode, budget, period) in case.servers {
        let reservation = Reservation::new(budget, period).expect(rt, "a reservation");
        setup.admit(reservation, mode).expect(rt, "a server");
    }
    let (plan, modes) = setup.into_parts();
    Core::new(alloc, plan, modes, case.backlog).expect(rt, "a core")
}

/// Makes the calls of each case, and checks each result.
pub fn plays_all(rt: &impl Abort, alloc: Global, cases: &[Case]) {
    for case in cases {
        let mut core = new_core(rt, alloc, case);
        plays(rt, alloc, case.name, &mut core, case.rows);
    }
}

/// Makes the calls of these rows in turn, and checks each result.
pub fn plays<A: Allocator>(
    rt: &impl Abort,
    alloc: Global,
    name: &str,
    core: &mut Core<SumJob, A>,
    rows: &[Row],
) {
    for (place, &row) in rows.iter().enumerate() {
        play(rt, alloc, (name, place), core, row);
    }
}

/// Makes the call of a row, which stands at this place of the rows of this name, and checks the result.
pub fn play<A: Allocator>(
    rt: &impl Abort,
    alloc: Global,
    at: (&str, usize),
    core: &mut Core<SumJob, A>,
    row: Row,
) {
    match row {
        Row::Submit(server, numbers, number) => {
            let answer = core.submit(server, sum_of(rt, alloc, numbers)).ok();
            same_at(rt, at, "submit", answer, Some(number));
        }
        Row::Refused(server, number, error) => {
            let task = sum_of(rt, alloc, &[number]);
            let refused = core.submit(server, task).err().expect(rt, "a refusal");
            let back = (refused.error, whole(refused.task));
            same_at(rt, at, "submit", back, (error, u64::from(number)));
        }
        _ => does(rt, at, core, row),
    }
}

/// Makes the call of a row that is not a submit, and checks the result.
pub fn does<W: Work, A: Allocator>(
    rt: &impl Abort,
    at: (&str, usize),
    core: &mut Core<W, A>,
    row: Row,
) {
    match row {
        Row::MakeRoom(server, wanted) => {
            same_at(rt, at, "make_room", core.make_room(server), wanted);
        }
        Row::Close(server, wanted) => {
            same_at(rt, at, "close", core.close(server), wanted);
        }
        Row::Advance(ticks, wanted) => {
            same_at(rt, at, "advance", core.advance(ticks), wanted);
        }
        Row::Charge(server, ticks, wanted) => {
            same_at(rt, at, "charge", core.charge(server, ticks), wanted);
        }
        Row::Finish(server, wanted) => {
            let ended = core.finish(server).map(|it| (it.seq, it.result));
            same_at(rt, at, "finish", ended, wanted);
        }
        Row::Run(wanted) => same_at(rt, at, "run", core.run(), wanted),
        Row::Unit(server) => {
            let unit = Ran::Unit { server, seq: 0 };
            same_at(rt, at, "run", core.run(), unit);
        }
        Row::Done(server, seq, output) => {
            same_at(rt, at, "run", core.run(), done(server, seq, output));
        }
        _ => looks(rt, at, core, row),
    }
}

/// Checks the value of a row that only reads.
fn looks<W: Work, A: Allocator>(rt: &impl Abort, at: (&str, usize), core: &Core<W, A>, row: Row) {
    match row {
        Row::Now(wanted) => same_at(rt, at, "now", core.now(), wanted),
        Row::Ready(wanted) => same_at(rt, at, "ready", core.ready(), wanted),
        Row::Running(wanted) => same_at(rt, at, "running", core.running(), wanted),
        Row::Charges(server, wanted) => {
            let charges = core.charges(server).map(|it| (it.total, it.most));
            same_at(rt, at, "charges", charges, wanted);
        }
        Row::IdleSpan(wanted) => same_at(rt, at, "idle_span", core.idle_span(), wanted),
        Row::Promised(server, wanted) => {
            same_at(rt, at, "promised", core.promised(server), wanted);
        }
        Row::State(server, budget, deadline, throttled) => {
            let view = core.view(server).expect(rt, "a server");
            let state = (view.budget, view.deadline, view.throttled);
            same_at(rt, at, "state", state, (budget, deadline, throttled));
        }
        Row::View(server, wanted) => same_at(rt, at, "view", core.view(server), wanted),
        _ => same_at(
            rt,
            at,
            "the jobs are sums, which a submit takes",
            false,
            true,
        ),
    }
}
