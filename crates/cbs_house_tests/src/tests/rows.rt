//! Calls of a house and of its only client in rows, each with its result.

ghost use Rattle.std.specs.Prelude.{◌≡◌};
ghost use Rattle.cbs_clients.specs.Houses.{rings_of};
ghost use Rattle.cbs_clients.specs.Clients.{IsOpened, SameClient};

use super::calls::sends;
use super::naps::{self, Sleeps};
use super::polling::one_client;
use super::{filled, same_at, sum_of};
use cbs_core::{Ran, ServerView};
use cbs_house::{Client, House, HouseError, Poll, SendError, Turn};
use cbs_job::{Completion, SumJob};
use cbs_rules::Mode;
use linked_list_allocator::LocalHeap;
use std::alloc::{Allocator, Global};
use std::process::Abort;

/// A call of a house of one server or of its client, with the result that a test checks.
#[derive(Clone, Copy)]
pub enum Row {
    /// A send of a sum of these numbers, and the number that the job gets.
    Send(&'static [u32], u64),
    /// A send of a sum of this number alone, and the number that the job gets.
    SendOne(u32, u64),
    /// A send of a sum of this number alone, which is refused and comes back.
    Refused(u32, SendError),
    End(Result<(), SendError>),
    /// A send of a sum of these numbers with so many tries, the number that the job gets, and the sleeps.
    SendWithin(&'static [u32], u64, Result<u64, SendError>, Sleeps),
    /// An end with so many tries, and the sleeps.
    EndWithin(u64, Result<(), SendError>, Sleeps),
    /// The number of free slots of the ring.
    Free(u64),
    /// The number of messages of the client that stand in its ring.
    Waiting(u64),
    /// Whether the client's house is gone.
    HouseIsGone(bool),
    /// The client's server, the number of jobs it sent, and whether it has ended.
    Client(u16, u64, bool),
    /// The number of messages that stand in the ring.
    Settle(u64),
    Poll(u16, Poll),
    /// A poll together with the client.
    PollBeside(Poll),
    Run(Ran),
    /// A run of a unit of a job, not its last: its server and number.
    Unit(u16, u64),
    /// A run that finishes a job: its server, number and output.
    Done(u16, u64, u64),
    Advance(u64, Result<(), HouseError>),
    /// A charge of the server that runs.
    Charge(u64, Result<(), HouseError>),
    /// A charge of a server: its number, and the ticks.
    ChargeServer(u16, u64, Result<(), HouseError>),
    /// An early end of the job of a server that got the last unit: the job's number and its output so far.
    Finish(u16, Result<(u64, u64), HouseError>),
    Drain(Result<(), HouseError>),
    /// A turn that takes this many messages, runs no unit, and advances by this many ticks.
    Turn(u64, u64),
    /// A turn that takes this many messages and finishes a job of server 0: its number and output.
    DoneTurn(u64, u64, u64),
    /// A turn in which memory for a message is refused.
    RefusedTurn,
    /// A hundred turns with nothing to take or to run: the clock stays.
    IdleTurns,
    /// A run until the client has ended, or the house was idle for so many turns, and the sleeps.
    Close(u64, Result<(), HouseError>, Sleeps),
    /// The clock.
    Now(u64),
    IdleSpan(Option<u64>),
    /// The tick by which all jobs of a server are done, if it has one.
    Promised(u16, Option<u128>),
    View(u16, Result<ServerView, HouseError>),
    /// A server's budget, deadline and flag 'throttled'.
    State(u16, u64, u128, bool),
    /// The ticks that a server was charged, in total and at most for one unit.
    Charges(u16, Result<(u64, u64), HouseError>),
    /// The results of a server.
    Results(u16, Result<&'static [u64], HouseError>),
    /// The results of a server, handed out.
    TakeResults(u16, Result<&'static [u64], HouseError>),
    /// The only result of server 0, handed out.
    TakeResult(u64),
}

/// Calls of a new house, in rows.
#[derive(Clone, Copy)]
pub struct Case {
    pub name: &'static str,
    pub mode: Mode,
    /// The budget and the period of the server.
    pub rate: (u64, u64),
    /// The backlog, and the number of slots of the ring.
    pub limits: (u64, u64),
    pub rows: &'static [Row],
}

/// A house of one server, with its client.
#[derive(Drop)]
pub struct Opened<A: Allocator = Global> {
    pub house: House<SumJob, A>,
    client: Client<SumJob, A>,
    ghost opened: { IsOpened (rings_of house) client },
}

/// Makes the calls of each case, and checks each result.
pub fn plays_all(rt: &impl Abort, alloc: Global, cases: &[Case]) {
    for case in cases {
        let mut opened = Opened::new(rt, alloc, case.mode, case.rate, case.limits);
        opened.plays(rt, alloc, case.name, case.rows);
    }
}

impl<A: Allocator + Copy> Opened<A> {
    /// Returns a house of one server with this reservation, and its client.
    pub fn new(
        rt: &impl Abort,
        alloc: A,
        mode: Mode,
        rate: (u64, u64),
        limits: (u64, u64),
    ) -> Opened<A> {
        let (house, client) = one_client(rt, alloc, mode, rate, limits);
        Opened { house, client }
    }

    /// Returns the house, after its client was dropped.
    pub fn without_client(self) -> House<SumJob, A> {
        let Opened { house, client } = self;
        drop(client);
        house
    }
}

impl<A: Allocator + Clone> Opened<A> {
    /// Makes the calls of these rows in turn, and checks each result.
    pub fn plays(&mut self, rt: &impl Abort, alloc: Global, name: &str, rows: &[Row]) {
        for (place, &row) in rows.iter().enumerate() {
            self.play(rt, alloc, (name, place), row);
        }
    }

    /// Makes the call of a row, which stands at this place of the rows of this name, and checks the result.
    fn play(&mut self, rt: &impl Abort, alloc: Global, at: (&str, usize), row: Row) {
        match row {
            Row::Settle(wanted) => {
                let standing = self.house.settle(&mut self.client);
                same_at(rt, at, "settle", standing, wanted);
            }
            Row::PollBeside(wanted) => {
                let answer = self.house.poll_beside(&mut self.client);
                same_at(rt, at, "poll_beside", answer, wanted);
            }
            Row::IdleTurns => self.idles(rt, at),
            _ => {
                if !asks(rt, alloc, at, &mut self.client, row) {
                    does(rt, at, &mut self.house, row);
                }
            }
        }
    }

    /// Takes turns in which nothing is done.
    fn idles(&mut self, rt: &impl Abort, at: (&str, usize)) {
        for _turn in 0..100 {
            turns(rt, at, &mut self.house, turn(0, Ran::Idle, 0));
        }
    }
}

/// Makes the call of a row if it is of the client alone, and checks the result. Returns whether it is such a row.
fn asks<A: Allocator>(
    rt: &impl Abort,
    alloc: Global,
    at: (&str, usize),
    client: &mut Client<SumJob, A>,
    row: Row,
) -> bool
    ensures { SameClient client.old client.new }
{
    match row {
        Row::Send(numbers, number) => sends(rt, alloc, at, client, numbers, number),
        Row::SendOne(number, wanted) => sends(rt, alloc, at, client, &[number], wanted),
        Row::Refused(number, error) => {
            let refused = client.send(sum_of(rt, alloc, &[number])).err();
            let refused = refused.expect(rt, "a refusal");
            let back = (refused.error, refused.task.left());
            same_at(rt, at, "send", back, (error, 1));
        }
        Row::End(wanted) => same_at(rt, at, "end", client.end(), wanted),
        Row::SendWithin(numbers, tries, wanted, sleeps) => {
            naps::sends(rt, alloc, at, client, (numbers, tries), (wanted, sleeps));
        }
        Row::EndWithin(tries, wanted, sleeps) => {
            naps::ends(rt, at, client, tries, wanted, sleeps);
        }
        _ => return sees(rt, at, client, row),
    }
    true
}

/// Checks the value of a row if it is one that the client tells. Returns whether it is such a row.
fn sees<A: Allocator>(
    rt: &impl Abort,
    at: (&str, usize),
    client: &mut Client<SumJob, A>,
    row: Row,
) -> bool
    ensures { SameClient client.old client.new }
{
    match row {
        Row::Free(wanted) => same_at(rt, at, "free", client.free(), wanted),
        Row::Waiting(wanted) => same_at(rt, at, "waiting", client.waiting(), wanted),
        Row::HouseIsGone(wanted) => {
            same_at(rt, at, "house_is_gone", client.house_is_gone(), wanted);
        }
        Row::Client(server, sent, ended) => {
            let shown = (client.server(), client.sent(), client.ended());
            same_at(rt, at, "client", shown, (server, sent, ended));
        }
        _ => return false,
    }
    true
}

/// Calls of a house in a heap, in rows.
#[derive(Clone, Copy)]
pub struct Phase {
    pub name: &'static str,
    /// Whether the heap is full meanwhile.
    pub full: bool,
    pub rows: &'static [Row],
}

/// Makes the calls of these phases of a new house with 2 ticks in every 5, and checks each result. All its memory is
/// that of a heap.
pub fn plays_in_heap(rt: &impl Abort, alloc: Global, mode: Mode, phases: &[Phase]) {
    let heap = LocalHeap::new(alloc, 1 << 14).expect(rt, "a heap");
    let mut opened = Opened::new(rt, &heap, mode, (2, 5), (4, 4));
    for phase in phases {
        if phase.full {
            plays_full(rt, alloc, &heap, &mut opened, phase);
        } else {
            opened.plays(rt, alloc, phase.name, phase.rows);
        }
    }
}

/// Makes the calls of a phase while this heap is full, and checks each result.
fn plays_full(
    rt: &impl Abort,
    alloc: Global,
    heap: &LocalHeap,
    opened: &mut Opened<&LocalHeap>,
    phase: &Phase,
) {
    let ballast = filled(rt, alloc, heap);
    opened.plays(rt, alloc, phase.name, phase.rows);
    drop(ballast);
}

/// Makes the calls of these rows in turn, each of the house alone, and checks each result.
pub fn does_all<A: Allocator + Clone>(
    rt: &impl Abort,
    name: &str,
    house: &mut House<SumJob, A>,
    rows: &[Row],
) {
    for (place, &row) in rows.iter().enumerate() {
        does(rt, (name, place), house, row);
    }
}

/// Makes the call of a row that is of the house alone, and checks the result.
pub fn does<A: Allocator + Clone>(
    rt: &impl Abort,
    at: (&str, usize),
    house: &mut House<SumJob, A>,
    row: Row,
)
    ensures { rings_of house.new ≡ rings_of house.old }
{
    match row {
        Row::Poll(server, wanted) => same_at(rt, at, "poll", house.poll(server), wanted),
        Row::Run(wanted) => runs(rt, at, house, wanted),
        Row::Unit(server, seq) => runs(rt, at, house, Ran::Unit { server, seq }),
        Row::Done(server, seq, output) => runs(rt, at, house, done(server, seq, output)),
        Row::Drain(wanted) => same_at(rt, at, "drain", house.drain(), wanted),
        Row::TakeResults(server, wanted) => hands_out(rt, at, house, server, wanted),
        Row::TakeResult(wanted) => hands_out(rt, at, house, 0, Ok(&[wanted])),
        _ => passes(rt, at, house, row),
    }
}

/// Makes the call of a row that is of the house alone, by which time passes, and checks the result.
fn passes<A: Allocator>(rt: &impl Abort, at: (&str, usize), house: &mut House<SumJob, A>, row: Row)
    ensures { rings_of house.new ≡ rings_of house.old }
{
    match row {
        Row::Advance(ticks, wanted) => {
            same_at(rt, at, "advance", house.advance(ticks), wanted);
        }
        Row::Charge(ticks, wanted) => {
            same_at(rt, at, "charge", house.charge(ticks), wanted);
        }
        Row::ChargeServer(server, ticks, wanted) => {
            let answer = house.charge_server(server, ticks);
            same_at(rt, at, "charge_server", answer, wanted);
        }
        Row::Finish(server, wanted) => {
            let answer = house.finish(server).map(|done| (done.seq, done.result));
            same_at(rt, at, "finish", answer, wanted);
        }
        Row::Turn(took, advanced) => turns(rt, at, house, turn(took, Ran::Idle, advanced)),
        Row::DoneTurn(took, seq, output) => {
            turns(rt, at, house, turn(took, done(0, seq, output), 0));
        }
        Row::RefusedTurn => turns(rt, at, house, REFUSED),
        Row::Close(idle_turns, wanted, sleeps) => {
            naps::closes(rt, at, house, idle_turns, wanted, sleeps);
        }
        _ => looks(rt, at, house, row),
    }
}

/// Runs a unit, and checks the result.
fn runs<A: Allocator>(rt: &impl Abort, at: (&str, usize), house: &mut House<SumJob, A>, wanted: Ran)
    ensures { rings_of house.new ≡ rings_of house.old }
{
    same_at(rt, at, "run", house.run(), wanted);
}

/// Returns the result of a run of the last unit of this job.
fn done(server: u16, seq: u64, output: u64) -> Ran {
    Ran::Done(Completion {
        server,
        seq,
        result: output,
    })
}

/// Returns what a turn tells that took so many messages, ran this, and advanced by so many ticks.
fn turn(took: u64, ran: Ran, advanced: u64) -> Turn {
    Turn {
        took,
        out_of_memory: false,
        ran,
        advanced,
    }
}

/// What a turn tells in which memory for a message is refused.
const REFUSED: Turn = Turn {
    took: 0,
    out_of_memory: true,
    ran: Ran::Idle,
    advanced: 0,
};

/// Takes a turn, and checks what it tells.
fn turns<A: Allocator>(
    rt: &impl Abort,
    at: (&str, usize),
    house: &mut House<SumJob, A>,
    wanted: Turn,
)
    ensures { rings_of house.new ≡ rings_of house.old }
{
    same_at(rt, at, "turn", house.turn(), wanted);
}

/// Hands out the results of a server, and checks them.
fn hands_out<A: Allocator + Clone>(
    rt: &impl Abort,
    at: (&str, usize),
    house: &mut House<SumJob, A>,
    server: u16,
    wanted: Result<&[u64], HouseError>,
)
    ensures { rings_of house.new ≡ rings_of house.old }
{
    match house.take_results(server) {
        Ok(results) => same_at(rt, at, "take_results", Ok(results.as_slice()), wanted),
        Err(error) => same_at(rt, at, "take_results", Err(error), wanted),
    }
}

/// Checks the value of a row that only reads.
pub fn looks<A: Allocator>(rt: &impl Abort, at: (&str, usize), house: &House<SumJob, A>, row: Row) {
    match row {
        Row::Now(wanted) => same_at(rt, at, "now", house.now(), wanted),
        Row::IdleSpan(wanted) => same_at(rt, at, "idle_span", house.idle_span(), wanted),
        Row::Promised(server, wanted) => {
            same_at(rt, at, "promised", house.promised(server), wanted);
        }
        Row::Results(server, wanted) => {
            same_at(rt, at, "results", house.results(server), wanted);
        }
        _ => looks_at(rt, at, house, row),
    }
}

/// Checks the value of a row that reads the state of a server.
fn looks_at<A: Allocator>(rt: &impl Abort, at: (&str, usize), house: &House<SumJob, A>, row: Row) {
    match row {
        Row::View(server, wanted) => same_at(rt, at, "view", house.view(server), wanted),
        Row::State(server, budget, deadline, throttled) => {
            let view = house.view(server).expect(rt, "a server");
            let state = (view.budget, view.deadline, view.throttled);
            same_at(rt, at, "state", state, (budget, deadline, throttled));
        }
        Row::Charges(server, wanted) => {
            let charges = house.charges(server).map(|it| (it.total, it.most));
            same_at(rt, at, "charges", charges, wanted);
        }
        _ => same_at(rt, at, "a client is at hand", false, true),
    }
}
