//! A turn of a house: the polls of all servers, and what comes after them.

ghost use Rattle.std.specs.Prelude.{ℕ, ◌≡◌, ◌≤◌, length};
ghost use Rattle.cbs_clients.specs.Houses.{core_of, KeepsResults};
ghost use Rattle.cbs_clients.specs.Turns.{lacks_memory, PollsEach, popped_by};
ghost use Rattle.cbs_rate.specs.Limits.{most_servers};

use crate::house::House;
use cbs_core::{LIMIT, Ran};
use cbs_host::{Gate, Meter, NoMeter, Poll};
use cbs_job::Work;
use std::alloc::Allocator;

/// The results of the polls of a turn.
#[derive(Clone, Copy)]
pub struct Polls {
    /// The number of messages that the polls took, of all servers.
    pub took: u64,
    /// Whether a poll saw a message but was out of memory for it.
    pub out_of_memory: bool,
}

/// Polls each server once, in the order of their numbers, and passes each result to the gate. Returns what the polls
/// did.
pub fn poll_each<G: Gate, W: Work, A: Allocator>(gate: &G, house: &mut House<W, A>) -> Polls
    ensures polled { PollsEach W.meaning (length (core_of house.old).faces) house.old house.new
        result.took result.out_of_memory }
    ensures results { KeepsResults house.old house.new }
    ensures few { result.took ≤ length (core_of house.old).faces }
    ensures most { result.took ≤ most_servers }
{
    let mut took = 0;
    let mut out_of_memory = false;
    for server in 0..house.servers() {
        let poll = house.poll(server);
        gate.answered(server, poll);
        took += count(poll);
        out_of_memory |= is_out_of_memory(poll);
    }
    Polls {
        took,
        out_of_memory,
    }
}

/// Polls the servers, each once and in the order of their numbers, and returns what the polls did.
///
/// It looks only at the rings of clients that left a mark, as each does after it has sent something. Of the others no
/// message is known, and each of these polls is [`Poll::Nothing`] with no look.
pub fn poll_marked<W: Work, A: Allocator>(house: &mut House<W, A>) -> Polls
    ensures polled { PollsEach W.meaning (length (core_of house.old).faces) house.old house.new
        result.took result.out_of_memory }
    ensures results { KeepsResults house.old house.new }
    ensures few { result.took ≤ length (core_of house.old).faces }
    ensures most { result.took ≤ most_servers }
{
    house.take_marks();
    let mut took = 0;
    let mut out_of_memory = false;
    let mut next = 0;
    while let Some(server) = house.first_marked(next) {
        let poll = house.poll_and_unmark(server);
        took += count(poll);
        out_of_memory |= is_out_of_memory(poll);
        next = server + 1;
    }
    Polls {
        took,
        out_of_memory,
    }
}

/// Returns how many messages a poll popped.
fn count(poll: Poll) -> u64
    ensures value { result ≡ popped_by poll }
    ensures most { result ≤ 1 }
{
    match poll {
        Poll::Took(_) | Poll::Closed => 1,
        Poll::Nothing | Poll::Full | Poll::OutOfMemory | Poll::NoSuchServer => 0,
    }
}

/// Returns whether a poll saw a message but was out of memory for it.
fn is_out_of_memory(poll: Poll) -> bool
    ensures { result ≡ lacks_memory poll }
{
    match poll {
        Poll::OutOfMemory => true,
        Poll::Took(_) | Poll::Closed | Poll::Nothing | Poll::Full | Poll::NoSuchServer => false,
    }
}

/// The result of a turn.
#[derive(Clone, Copy, Debug, PartialEq, Eq)]
pub struct Turn {
    /// The number of messages that the turn took, ends included: at most one of each server.
    pub took: u64,
    /// Whether a poll saw a message but was out of memory for it. The message stays in its ring.
    pub out_of_memory: bool,
    /// What ran: [`Ran::Idle`] if no server was ready, and [`Ran::ClockEnd`] if the clock is at its end with a job
    /// unfinished.
    pub ran: Ran,
    /// The ticks by which the clock was advanced, with no server ready. The tick of a unit is not counted.
    pub advanced: u64,
}

impl<W: Work, A: Allocator> House<W, A> {
    ghost use Rattle.std.specs.Prelude.{ℕ, ◌≡◌, ◌<◌, ◌≤◌, length};
    ghost use Rattle.cbs_clients.specs.Houses.{core_of, rings_of, Collects, NamesJob};
    ghost use Rattle.cbs_clients.specs.Turns.{GoesOn, IsNumbered};
    ghost use Rattle.cbs_clients.specs.Calls.{TurnOf, TurnBy};
    ghost use Rattle.cbs_core.specs.Held.{HoldsJob};

    /// Takes one turn: polls each server once, in the order of their numbers, and then runs one unit, as
    /// [`run`](House::run) does. If no server is ready the turn advances the clock by the idle span, but only while an
    /// accepted job is unfinished. If no job is unfinished, or the clock is at [`LIMIT`], the clock stays. Returns what
    /// the turn did.
    ///
    /// No advance takes anybody's time. Nothing is lost if a poll is out of memory: the message stays in its ring, and
    /// the next turn polls again.
    pub fn turn(&mut self) -> Turn
        ensures { TurnOf W.meaning self.old result self.new }
    {
        self.turn_metered(&mut NoMeter)
    }

    /// Takes one turn, as [`turn`](House::turn) does, with a meter, and returns what the turn did. If a unit ran, its
    /// server is charged what the meter returns, as by [`run_metered`](House::run_metered). These ticks are not counted
    /// in [`Turn::advanced`].
    pub fn turn_metered<M: Meter>(&mut self, meter: &mut M) -> Turn
        ensures { TurnBy W.meaning M.may_tell self.old result self.new }
    {
        let polls = poll_marked(self);
        let (ran, advanced) = self.go_on_if_busy(meter);
        Turn {
            took: polls.took,
            out_of_memory: polls.out_of_memory,
            ran,
            advanced,
        }
    }

    /// Goes on if a job is held and the clock is not at its end. Returns what ran, and by how many ticks the clock was
    /// advanced.
    fn go_on_if_busy<M: Meter>(&mut self, meter: &mut M) -> (Ran, u64)
        ensures goes_on { GoesOn W.meaning M.may_tell self.old self.new result.0 result.1 }
        ensures rings { rings_of self.new ≡ rings_of self.old }
        ensures collects { Collects result.0 self.old self.new }
        ensures numbered { IsNumbered result.0 self.old }
        ensures job { NamesJob W.meaning result.0 self.new }
    {
        if !self.is_busy() {
            return (Ran::Idle, 0);
        }
        if self.now() == LIMIT {
            return (Ran::ClockEnd, 0);
        }
        self.go_on(meter)
    }

    /// Runs one unit if a server is ready, and pays for the unit. If none is ready, advances by the idle span. Both
    /// move the clock. Returns what ran, and by how many ticks the clock was advanced.
    pub(crate) fn go_on<M: Meter>(&mut self, meter: &mut M) -> (Ran, u64)
        requires busy { HoldsJob (core_of self.old) }
        requires early { (core_of self.old).clock < LIMIT }
        ensures goes_on { GoesOn W.meaning M.may_tell self.old self.new result.0 result.1 }
        ensures later { (core_of self.old).clock < (core_of self.new).clock }
        ensures rings { rings_of self.new ≡ rings_of self.old }
        ensures collects { Collects result.0 self.old self.new }
        ensures numbered { IsNumbered result.0 self.old }
        ensures job { NamesJob W.meaning result.0 self.new }
    {
        match self.idle_span() {
            None => (self.run_metered(meter), 0),
            Some(span) => {
                self.advance(span).unwrap();
                (Ran::Idle, span)
            }
        }
    }
}
