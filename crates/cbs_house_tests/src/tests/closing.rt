//! Tests of houses that run until every client has ended.

ghost use Rattle.std.specs.Prelude.{◌≡◌};
ghost use Rattle.std.specs.Thread.{IsSync};
ghost use Rattle.cbs_clients.specs.Houses.{rings_of};

use super::calls::{ends, gave, sends, stands_at};
use super::leaving::sends_and_leaves;
use super::rows::{Opened, Row};
use super::{house_of, same, same_at};
use cbs_house::{Client, House, HouseError, SendError, Sink};
use cbs_job::{Completion, SumJob, Task};
use cbs_rules::Mode;
use std::alloc::Global;
use std::process::Abort;
use std::thread::{Threads, join_mut, sleep, yield_now};
use std::time::{Clock, Duration};

/// How many idle turns in a row a house waits for clients on threads.
const PATIENCE: u64 = 1_000_000;

/// A sink that keeps the completions that it is given.
#[derive(Drop)]
struct Seen {
    /// The server, the number and the result of each.
    told: Vec<(u16, u64, u64)>,
    lost: bool,
}

impl Seen {
    fn nothing(alloc: Global) -> Seen {
        Seen {
            told: Vec::new(alloc),
            lost: false,
        }
    }
}

impl Sink for Seen {
    fn tell(&mut self, done: Completion) {
        if self
            .told
            .push((done.server, done.seq, done.result))
            .is_err()
        {
            self.lost = true;
        }
    }
}

/// Runs a house until its clients have ended, or it was idle for so many turns. Checks the result, and the completions
/// that the sink was given so far.
fn closes<R: Clock + Abort>(
    rt: &R,
    at: (&str, usize),
    house: &mut House<SumJob>,
    seen: &mut Seen,
    run: (u64, Result<(), HouseError>, Told),
)
    ensures { rings_of house.new ≡ rings_of house.old }
{
    let (idle_turns, wanted, told) = run;
    let answer = house.run_until_closed(rt, seen, idle_turns);
    same_at(rt, at, "run_until_closed", answer, wanted);
    was_told(rt, at, seen, told);
}

/// Completions in order: server, number and result of each job.
type Told = &'static [(u16, u64, u64)];

/// Checks the completions that a sink was given.
fn was_told(rt: &impl Abort, at: (&str, usize), seen: &Seen, wanted: Told) {
    assert!(rt; !seen.lost);
    same_at(rt, at, "told", seen.told.as_slice(), wanted);
}

/// A step of a test with a house of one server, its client and a sink.
#[derive(Clone, Copy)]
enum Step {
    /// Calls of the house or of its client.
    Rows(&'static [Row]),
    /// A run of the house until its client has ended, or it was idle for this many turns, and the completions that the
    /// sink was given so far.
    Close(u64, Result<(), HouseError>, Told),
}

/// The steps of a test with a new house.
#[derive(Clone, Copy)]
struct Closing {
    name: &'static str,
    mode: Mode,
    /// The budget and the period of the server.
    rate: (u64, u64),
    /// The backlog, and the number of slots of the ring.
    limits: (u64, u64),
    steps: &'static [Step],
}

/// Runs the house of a case, as `closes` does.
fn closes_opened<R: Clock + Abort>(
    rt: &R,
    at: (&str, usize),
    opened: &mut Opened,
    seen: &mut Seen,
    run: (u64, Result<(), HouseError>, Told),
) {
    closes(rt, at, &mut opened.house, seen, run);
}

/// Makes the steps of a case, and checks each result.
fn goes<R: Clock + Abort>(rt: &R, alloc: Global, case: &Closing) {
    let mut opened = Opened::new(rt, alloc, case.mode, case.rate, case.limits);
    let mut seen = Seen::nothing(alloc);
    for (place, &step) in case.steps.iter().enumerate() {
        let at = (case.name, place);
        match step {
            Step::Rows(rows) => opened.plays(rt, alloc, case.name, rows),
            Step::Close(idle_turns, wanted, told) => {
                closes_opened(rt, at, &mut opened, &mut seen, (idle_turns, wanted, told));
            }
        }
    }
}

/// A client that ends at once.
const ENDED: [Step; 4] = [
    Step::Rows(&[Row::End(Ok(()))]),
    Step::Close(1, Ok(()), &[]),
    Step::Close(1, Ok(()), &[]),
    Step::Rows(&[Row::Now(0)]),
];

/// A client that sends nothing, and ends at last.
const SILENT: [Step; 5] = [
    Step::Close(0, Err(HouseError::Stalled), &[]),
    Step::Close(1, Err(HouseError::Stalled), &[]),
    Step::Close(100, Err(HouseError::Stalled), &[]),
    Step::Rows(&[Row::Now(0), Row::End(Ok(()))]),
    Step::Close(100, Ok(()), &[]),
];

/// The sends of a client that does not end.
const SENT: [Row; 3] = [Row::Send(&[5], 0), Row::Send(&[7], 1), Row::Send(&[9], 2)];

/// The completions that the sink is given for them.
const TOLD: [(u16, u64, u64); 3] = [(0, 0, 5), (0, 1, 7), (0, 2, 9)];

/// The results are handed out, then the client sends a last job and ends.
const LAST: [Row; 3] = [
    Row::TakeResults(0, Ok(&[5, 7, 9])),
    Row::Send(&[11], 3),
    Row::End(Ok(())),
];

/// All completions that the sink is given.
const ALL_TOLD: [(u16, u64, u64); 4] = [(0, 0, 5), (0, 1, 7), (0, 2, 9), (0, 3, 11)];

static CASES: [Closing; 6] = [
    Closing {
        name: "a soft house of a client that ends at once takes no time",
        mode: Mode::Soft,
        rate: (2, 5),
        limits: (4, 4),
        steps: &ENDED,
    },
    Closing {
        name: "a throttled house of a client that ends at once takes no time",
        mode: Mode::Throttled,
        rate: (2, 5),
        limits: (4, 4),
        steps: &ENDED,
    },
    Closing {
        name: "a client that never sends stalls a soft house until it ends",
        mode: Mode::Soft,
        rate: (2, 5),
        limits: (4, 4),
        steps: &SILENT,
    },
    Closing {
        name: "a client that never sends stalls a throttled house until it ends",
        mode: Mode::Throttled,
        rate: (2, 5),
        limits: (4, 4),
        steps: &SILENT,
    },
    Closing {
        name: "what a client that never ends sent to a soft house is not lost",
        mode: Mode::Soft,
        rate: (1, 4),
        limits: (1, 4),
        steps: &[
            Step::Rows(&SENT),
            Step::Close(100, Err(HouseError::Stalled), &TOLD),
            Step::Rows(&[Row::Results(0, Ok(&[5, 7, 9])), Row::Now(3)]),
            Step::Rows(&LAST),
            Step::Close(100, Ok(()), &ALL_TOLD),
            Step::Rows(&[Row::Results(0, Ok(&[11])), Row::Now(4)]),
        ],
    },
    Closing {
        name: "what a client that never ends sent to a throttled house is not lost",
        mode: Mode::Throttled,
        rate: (1, 4),
        limits: (1, 4),
        // Units run at 0, at 4 and at 8. The last job comes when the budget is used up, and waits until 12.
        steps: &[
            Step::Rows(&SENT),
            Step::Close(100, Err(HouseError::Stalled), &TOLD),
            Step::Rows(&[Row::Results(0, Ok(&[5, 7, 9])), Row::Now(9)]),
            Step::Rows(&LAST),
            Step::Close(100, Ok(()), &ALL_TOLD),
            Step::Rows(&[Row::Results(0, Ok(&[11])), Row::Now(13)]),
        ],
    },
];

#[test]
fn each_house_stalls_or_closes(rt: HostRuntime) {
    let alloc = rt.alloc();
    for case in &CASES {
        goes(&rt, alloc, case);
    }
}

/// Returns a house of two servers with 2 ticks in every 5 each, with a backlog and rings of two slots, and its clients.
pub fn two_clients(
    rt: &impl Abort,
    alloc: Global,
    mode: Mode,
) -> (House<SumJob>, Vec<Client<SumJob>>) {
    house_of(rt, alloc, &[(mode, 2, 5), (mode, 2, 5)], (2, 2))
}

/// Returns the task of one unit of this number, or `None` if an allocation is refused.
pub fn unit_of(alloc: Global, number: u32) -> Option<Task<SumJob>> {
    let numbers = Vec::from_slice(alloc, &[number]).ok()?;
    Task::new(SumJob::new(numbers)).ok()
}

/// Sends a job, and tries again while the ring is full. Returns whether it was sent.
fn sends_at_last(client: &mut Client<SumJob>, task: Task<SumJob>) -> bool {
    let mut task = task;
    for _try in 0..PATIENCE {
        match client.send(task) {
            Ok(_number) => return true,
            Err(refused) => task = refused.task,
        }
        yield_now();
    }
    false
}

/// Ends a client, and tries again while the ring is full. Returns whether it has ended.
fn ends_at_last(client: &mut Client<SumJob>) -> bool {
    for _try in 0..PATIENCE {
        if client.end() != Err(SendError::RingFull) {
            return true;
        }
        yield_now();
    }
    false
}

/// Sends the jobs 0 to 9 of the client of server 0, and no job of the others, and ends each. Returns whether all were
/// sent.
fn sends_ten(alloc: Global, clients: &mut [Client<SumJob>]) -> bool {
    for client in clients {
        if client.server() == 0 {
            for number in 0..10 {
                let Some(task) = unit_of(alloc, number) else {
                    return false;
                };
                if !sends_at_last(client, task) {
                    return false;
                }
            }
        }
        if !ends_at_last(client) {
            return false;
        }
    }
    true
}

/// What clients do that start late.
#[derive(Clone, Copy)]
pub enum Late {
    /// That of server 0 sends ten jobs, and each ends.
    SendTen,
    /// Each fills its ring, and is dropped.
    Leave,
}

/// Lets the clients do so. Returns whether all jobs were sent.
fn starts(alloc: Global, late: Late, clients: &mut Vec<Client<SumJob>>) -> bool {
    match late {
        Late::SendTen => sends_ten(alloc, clients),
        Late::Leave => sends_and_leaves(alloc, clients),
    }
}

/// Runs the house and its clients at once. The clients start when the house has long been running.
pub fn runs_with_late_clients<R: Threads + Clock + Sync + Abort, S: Sink + Send>(
    rt: &R,
    alloc: Global,
    house: &mut House<SumJob>,
    (late, clients): (Late, &mut Vec<Client<SumJob>>),
    sink: &mut S,
) {
    let (sent, run) = join_mut(
        rt,
        &mut || -> bool
            requires { IsSync R.row }
        {
            sleep(rt, Duration::from_micros(20_000));
            starts(alloc, late, clients)
        },
        &mut || -> Result<(), HouseError> { house.run_until_closed(rt, sink, PATIENCE) },
    );
    assert!(rt; sent);
    same(rt, "run_until_closed", run, Ok(()));
}

/// The completions of the jobs 0 to 9 of server 0.
static TOLD_TEN: [(u16, u64, u64); 10] = [
    (0, 0, 0),
    (0, 1, 1),
    (0, 2, 2),
    (0, 3, 3),
    (0, 4, 4),
    (0, 5, 5),
    (0, 6, 6),
    (0, 7, 7),
    (0, 8, 8),
    (0, 9, 9),
];

/// Opens a house whose servers have this mode, and runs it and its late clients.
fn finishes_late_clients<R: Threads + Clock + Sync + Abort>(rt: &R, alloc: Global, mode: Mode) {
    let (mut house, mut clients) = two_clients(rt, alloc, mode);
    let mut seen = Seen::nothing(alloc);
    runs_with_late_clients(
        rt,
        alloc,
        &mut house,
        (Late::SendTen, &mut clients),
        &mut seen,
    );
    gave(rt, &house, 0, &[0, 1, 2, 3, 4, 5, 6, 7, 8, 9]);
    gave(rt, &house, 1, &[]);
    was_told(rt, ("late clients", 0), &seen, &TOLD_TEN);
}

#[test]
fn late_clients_that_send_more_than_fits_are_finished(rt: HostRuntime) {
    for mode in [Mode::Soft, Mode::Throttled] {
        finishes_late_clients(&rt, rt.alloc(), mode);
    }
}

/// Sends two jobs of one unit each: of 10 times the number of the client's server, and of one more.
fn sends_two(rt: &impl Abort, alloc: Global, client: &mut Client<SumJob>) {
    let first = 10 * u32::from(client.server());
    sends(rt, alloc, ("two jobs", 0), client, &[first], 0);
    sends(rt, alloc, ("two jobs", 1), client, &[first + 1], 1);
}

/// The completions that a sink is given of two clients' jobs.
static OF_TWO: [(u16, u64, u64); 4] = [(0, 0, 0), (0, 1, 1), (1, 0, 10), (1, 1, 11)];

#[test]
fn a_sink_is_told_in_the_order_of_the_completions(rt: HostRuntime) {
    let alloc = rt.alloc();
    let (mut house, mut clients) = two_clients(&rt, alloc, Mode::Soft);
    let mut seen = Seen::nothing(alloc);
    for client in &mut clients {
        sends_two(&rt, alloc, client);
    }
    // Both servers have the deadline 5, and the two units of server 0 are a whole budget.
    let stalled = (1, Err(HouseError::Stalled), &OF_TWO[..]);
    closes(&rt, ("both have sent", 0), &mut house, &mut seen, stalled);
    for client in &mut clients {
        ends(&rt, client, Ok(()));
    }
    let closed = (1, Ok(()), &OF_TWO[..]);
    closes(&rt, ("both have ended", 1), &mut house, &mut seen, closed);
    stands_at(&rt, &house, 4);
}
