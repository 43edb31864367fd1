//! The house: the core with the house's ends of the rings, and the results.

ghost use Rattle.cbs_clients.specs.HouseInvariant.{Housed};
ghost use Rattle.cbs_rate.specs.Limits.{most_servers};

use crate::client::Client;
use crate::error::HouseError;
use crate::message::Message;
use crate::rings::Rings;
use cbs_core::{Charges, Core, CoreError, LIMIT, Ran, ServerView};
use cbs_host::{Meter, Poll};
use cbs_job::{Completion, Work};
use cbs_recorded::{advance_told, charge_told, close_told, finish_told, run_told, submit_told};
use cbs_results::Collector;
use cbs_tape::Tape;
use std::alloc::{Allocator, Global};

/// A house: it owns the core, takes the messages of the clients, and keeps the results.
///
/// All its calls are made from one thread. The clients share only their rings and one word of marks with it.
pub struct House<W: Work, A: Allocator = Global> {
    pub(crate) core: Core<W, A>,
    pub(crate) rings: Rings<W, A>,
    pub(crate) collector: Collector<A>,
    // Boxed, so that a house with no tape is a word longer, and no more.
    pub(crate) tape: Option<Box<Tape<A>, A>>,
    ghost housed: { Housed W.meaning core rings collector },
}

// An owner of a house calls this one function at each exit, instead of the drops of all fields.
impl<W: Work, A: Allocator> Drop for House<W, A> {
    fn drop(self) {
        let House {
            core: _,
            rings: _,
            collector: _,
            tape: _,
        } = self;
    }
}

impl<W: Work, A: Allocator> House<W, A> {
    ghost use Rattle.std.specs.Prelude.{ℕ, ◌≡◌, ◌↔◌, ◌⊎◌, IsTrue, ◌<◌, ◌≤◌, ◌-◌, min, true, [], ◌++◌, length, IfSome, IfNone, IsNone};
    ghost use Rattle.cbs_core.specs.Held.{front_output, held_at, is_running, AllSame, IsClosed};
    ghost use Rattle.cbs_clients.specs.Calls.{PollOf, RunOf, RunBy, AsksMeter, AdvanceOf, ChargeOf, FinishOf, ChargesLast, ChargesOf, ClockOf, SpanOf, ViewOf, PromiseOf, LooksAtRing};
    ghost use Rattle.cbs_recorded.specs.Records.{tape_in};
    ghost use Rattle.cbs_clients.specs.Clients.{server_of, sent_by, IsOpened};
    ghost use Rattle.cbs_clients.specs.Houses.{core_of, rings_of, tape_of, seat_at, received, known, IsHousePaced, KeepsResults, Made, LooksOnly, Polled, SameHouse, TakesTape, IsTooShort, whole_in, CanTake};
    ghost use Rattle.cbs_clients.specs.Rings.{KnowsNone};
    ghost use Rattle.cbs_clients.specs.Meters.{charge_steps};

    /// Returns how many servers there are, at most 64. They are numbered from 0.
    pub fn servers(&self) -> u16
        ensures value { result ≡ length (core_of self.now).faces }
        ensures few { result ≤ most_servers }
    {
        self.core.servers()
    }

    /// Gives the house a tape, or none, and returns the one that it had. A house that was opened has none.
    ///
    /// From then on the tape is told each step: a job that a poll takes, with its units, a unit, an advance or a charge
    /// of a tick or more, a close. A Run with nobody ready is not told. No call takes memory for it, and no call waits: a
    /// step that finds no room is lost, as [`Tape`] says.
    ///
    /// An early end of a job ([`finish`](House::finish)) is no step, so the tape loses it, and is not whole after it.
    pub fn record(&mut self, tape: Option<Box<Tape<A>, A>>) -> Option<Box<Tape<A>, A>>
        ensures before { tape_in result ≡ tape_of self.old }
        ensures after { tape_of self.new ≡ tape_in tape }
        ensures core { core_of self.new ≡ core_of self.old }
        ensures rings { rings_of self.new ≡ rings_of self.old }
        ensures seats { (s : ℕ) → seat_at self.new s ≡ seat_at self.old s }
    {
        std::mem::replace(&mut self.tape, tape)
    }

    /// Hands out what the tape has so far, as [`Tape::take`] does: puts it at the start of `out`, and returns how many
    /// bytes it is. The tape then has no step, and is told those to come. So a house can be recorded for ever in bounded
    /// memory.
    ///
    /// Returns `None`, and changes nothing, exactly if the house has no tape, or `out` is shorter than the memory of its
    /// tape.
    pub fn take_tape(&mut self, out: &mut [u8]) -> Option<usize>
        ensures taken { IfSome result (λ n. TakesTape n self.old self.new out.old out.new) }
        ensures none { IsNone result ↔ IsTooShort (tape_of self.old) (length out.old) }
        ensures same { IfNone result (SameHouse self.old self.new × (out.new ≡ out.old)) }
    {
        match &mut self.tape {
            None => None,
            Some(tape) => tape.take(out),
        }
    }

    /// Returns whether the tape has each step that it was told, or `None` if the house has no tape.
    pub fn tape_is_whole(&self) -> Option<bool>
        ensures { result ≡ whole_in (tape_of self.now) }
    {
        match &self.tape {
            None => None,
            Some(tape) => Some(tape.is_whole()),
        }
    }

    /// Returns whether a server is there and closed.
    pub fn is_closed(&self, server: u16) -> bool
        ensures { IsTrue result ↔ IsClosed (core_of self.now) server }
    {
        match self.core.view(server) {
            Ok(view) => view.closed,
            Err(_) => false,
        }
    }

    /// Returns how many messages wait in a client's ring. The client must have been opened with this house.
    ///
    /// The caller holds both ends of the ring, so the number is exact. What was received, followed by what waits in the
    /// ring, is all that the client sent, in order.
    pub fn settle(&mut self, client: &mut Client<W, A>) -> u64
        requires { IsOpened (rings_of self.old) client.old }
        ensures looked { LooksOnly self.old self.new }
        ensures client { LooksAtRing client.old client.new }
        ensures value { result ≡ length (known self.new (server_of client.new)) }
        ensures lawful { sent_by client.new ≡ received self.new (server_of client.new)
            ++ known self.new (server_of client.new) }
    {
        self.rings.settle(client) as u64
    }

    /// Looks for the next message of a server, and takes it: a job is given to the core, an end closes the server.
    /// There is room for a message before it is popped, so no message is lost.
    ///
    /// Returns, in this order:
    /// - [`Poll::NoSuchServer`]: then the house is unchanged;
    /// - [`Poll::Nothing`] if the server is closed or no message is seen;
    /// - [`Poll::Full`] if the backlog of the server is full, whatever the next message is;
    /// - [`Poll::OutOfMemory`] if an allocation is refused.
    ///
    /// These pop nothing. Else returns [`Poll::Took`] with the job's number, which is the one that the client's send
    /// returned, or [`Poll::Closed`].
    pub fn poll(&mut self, server: u16) -> Poll
        ensures { PollOf W.meaning server self.old result self.new }
    {
        let index = usize::from(server);
        if index >= self.rings.len() {
            return Poll::NoSuchServer;
        }
        if self.rings.is_empty(index) {
            return Poll::Nothing;
        }
        self.take_seen(server)
    }

    /// Takes the marks that clients left.
    pub(crate) fn take_marks(&mut self)
        ensures { SameHouse self.old self.new }
    {
        self.rings.take_marks();
    }

    /// Returns the first server from `first` on that may have a message in its ring, or `None` if there is none.
    pub(crate) fn first_marked(&self, first: u16) -> Option<u16>
        ensures some { IfSome result (λ server. (first ≤ server)
            × (server < length (core_of self.now).faces) × KnowsNone self.now.rings first server) }
        ensures none { IfNone result
            (KnowsNone self.now.rings first (length (core_of self.now).faces)) }
    {
        self.rings.first_marked(first)
    }

    /// Polls a server, as [`poll`](House::poll) does. If no message is seen, its mark is forgotten.
    pub(crate) fn poll_and_unmark(&mut self, server: u16) -> Poll
        requires { server < length (core_of self.old).faces }
        ensures { PollOf W.meaning server self.old result self.new }
    {
        let poll = self.poll(server);
        if let Poll::Nothing = poll {
            self.rings.unmark(server);
        }
        poll
    }

    /// Polls the server of a client, as [`poll`](House::poll) does. The caller holds the client, so nothing can be sent
    /// meanwhile. The client must have been opened with this house.
    ///
    /// Returns [`Poll::Nothing`] exactly if the server is closed or all that the client sent was taken. The second is
    /// so after a [`settle`](House::settle) that returned 0, however little memory there is.
    pub fn poll_beside(&mut self, client: &mut Client<W, A>) -> Poll
        requires { IsOpened (rings_of self.old) client.old }
        ensures nothing { (result ≡ Poll.Nothing)
            ↔ (IsClosed (core_of self.old) (server_of client.old)
            ⊎ (sent_by client.old ≡ received self.old (server_of client.old))) }
        ensures poll { PollOf W.meaning (server_of client.old) self.old result self.new }
        ensures client { LooksAtRing client.old client.new }
    {
        // Reading both ends finds all that was sent. Without this a poll may miss the newest messages.
        if self.settle(client) == 0 {
            return Poll::Nothing;
        }
        self.poll(client.server())
    }

    /// Takes the next message of a server, which was seen, if there is room for it. Returns the result of the poll. It
    /// is not inlined, so that a poll of an empty ring saves no registers.
    #[inline(never)]
    fn take_seen(&mut self, server: u16) -> Poll
        requires { 0 < length (known self.old server) }
        ensures { PollOf W.meaning server self.old result self.new }
    {
        if let Some(answer) = self.prepare(server) {
            return answer;
        }
        self.take_next(server)
    }

    /// Makes room for the next message of a server, which was seen. Pops nothing. If there is no room, returns the
    /// result of the poll, else `None`.
    fn prepare(&mut self, server: u16) -> Option<Poll>
        requires { 0 < length (known self.old server) }
        ensures made { Made W.meaning self.old self.new [] }
        ensures core { core_of self.new ≡ record (core_of self.old)
            { rooms = (core_of self.new).rooms } }
        ensures results { KeepsResults self.old self.new }
        ensures some { IfSome result (λ answer. Polled W.meaning self.old server answer self.new) }
        ensures none { IfNone result (CanTake self.new server) }
    {
        match self.core.make_room(server) {
            Ok(()) => {}
            Err(CoreError::Closed) => return Some(Poll::Nothing),
            Err(CoreError::BacklogFull) => return Some(Poll::Full),
            // The server is there, so the only other error is that memory is refused.
            Err(_) => return Some(Poll::OutOfMemory),
        }
        match self.collector.reserve(server) {
            Ok(()) => None,
            Err(_) => Some(Poll::OutOfMemory),
        }
    }

    /// Pops the next message, which was seen, and gives it to the core, which has room for it. Returns the result of
    /// the poll.
    fn take_next(&mut self, server: u16) -> Poll
        requires { CanTake self.old server }
        ensures polled { Polled W.meaning self.old server result self.new }
        ensures rings { rings_of self.new ≡ rings_of self.old }
        ensures results { KeepsResults self.old self.new }
    {
        match self.rings.take(server) {
            Message::Job(task) => {
                let number = submit_told(&mut self.core, &mut self.tape, server, task);
                self.collector.expect_reserved(server);
                Poll::Took(number)
            }
            Message::End => {
                close_told(&mut self.core, &mut self.tape, server);
                Poll::Closed
            }
        }
    }

    /// Runs one unit of the job at the front of the chosen server, as [`Core::run`] does, and returns what ran. A
    /// completion is put in the results.
    #[inline(always)]
    pub fn run(&mut self) -> Ran
        ensures { RunOf W.meaning self.old result self.new }
    {
        let ran = run_told(&mut self.core, &mut self.tape);
        if let Ran::Done(done) = ran {
            self.collector.take_expected(done);
        }
        ran
    }

    /// Runs one unit, as [`run`](House::run) does, with a meter, and returns what ran. If a unit ran, its server is
    /// charged the ticks that the meter returns, as by [`charge`](House::charge). Ticks past [`LIMIT`] are not charged,
    /// so the clock stops there.
    pub fn run_metered<M: Meter>(&mut self, meter: &mut M) -> Ran
        ensures run { RunBy W.meaning M.may_tell self.old result self.new }
        ensures meter { AsksMeter W.meaning M.begins M.tells self.old result self.new meter.old
            meter.new }
    {
        meter.begin();
        let ran = self.run();
        match ran {
            Ran::Unit { server, .. } => self.pay(server, meter.beyond(server)),
            Ran::Done(done) => self.pay(done.server, meter.beyond(done.server)),
            Ran::Idle | Ran::ClockEnd => {}
        }
        ran
    }

    /// Charges the server that runs `beyond` ticks, or as many as the clock can hold. For 0 ticks it does nothing.
    fn pay(&mut self, server: u16, beyond: u64)
        requires { is_running (core_of self.old) server ≡ true }
        ensures made { Made W.meaning self.old self.new
            (charge_steps server (min beyond (LIMIT - (core_of self.old).clock))) }
        ensures results { KeepsResults self.old self.new }
        ensures jobs { AllSame (core_of self.old) (core_of self.new) }
    {
        let ticks = beyond.min(LIMIT - self.now());
        if ticks > 0 {
            self.charge_server(server, ticks).unwrap();
        }
    }

    /// Lets `n` ticks pass in one jump, as [`Core::advance`] does.
    ///
    /// Refuses by [`HouseError::ClockEnd`] if the clock would pass [`LIMIT`], and then changes nothing.
    pub fn advance(&mut self, n: u64) -> Result<(), HouseError>
        ensures { AdvanceOf W.meaning n self.old result self.new }
    {
        match advance_told(&mut self.core, &mut self.tape, n) {
            Ok(()) => Ok(()),
            Err(_) => Err(HouseError::ClockEnd),
        }
    }

    /// Charges the server that ran the last unit the ticks that the unit took after its first tick, as [`Core::charge`]
    /// does. As many ticks pass, and the server pays for them from its budgets. So a unit that takes long takes nothing
    /// from another server's share.
    ///
    /// Round up: a unit that took part of a tick took all of it. Charge after the unit and before the next poll. A job
    /// that comes between the two may renew its server, which then pays for the unit from its new budget.
    ///
    /// Refuses by [`HouseError::NotRunning`] if no server runs: none got a unit yet, or a tick has passed since that
    /// was not charged for the unit. Refuses by [`HouseError::ClockEnd`] if the clock would pass [`LIMIT`]. A refusal
    /// changes nothing.
    pub fn charge(&mut self, ticks: u64) -> Result<(), HouseError>
        ensures charged { ChargesLast W.meaning ticks self.old result self.new }
        ensures paced { IsHousePaced self.old → IsHousePaced self.new }
    {
        match self.core.running() {
            Some(server) => self.charge_server(server, ticks),
            None => Err(HouseError::NotRunning),
        }
    }

    /// Charges a server, as [`charge`](House::charge) does, if it is the one that ran the last unit.
    ///
    /// Refuses, in this order:
    /// - [`HouseError::NoSuchServer`];
    /// - [`HouseError::NotRunning`], unless the server ran the last unit and no tick has passed since, except those
    ///   charged for the unit;
    /// - [`HouseError::ClockEnd`] if the clock would pass [`LIMIT`].
    ///
    /// A refusal changes nothing.
    pub fn charge_server(&mut self, server: u16, ticks: u64) -> Result<(), HouseError>
        ensures { ChargeOf W.meaning server ticks self.old result self.new }
    {
        match charge_told(&mut self.core, &mut self.tape, server, ticks) {
            Ok(()) => Ok(()),
            Err(error) => Err(HouseError::of_charge(error)),
        }
    }

    /// Ends the job of a server that got the last unit, although it has units left, as [`Core::finish`] does. Its output
    /// so far is put in the results, in the place of its whole result, and returned with its number.
    ///
    /// In hindsight the job had only the units that it got. So no clock moves, no budget or deadline changes, and the
    /// server may still be charged for the unit.
    ///
    /// Refuses, in this order:
    /// - [`HouseError::NoSuchServer`];
    /// - [`HouseError::NotRunning`], unless the server ran the last unit and no tick has passed since, except those
    ///   charged for the unit. The same if that unit was the last of its job, or if the server accepted a job since.
    ///
    /// A refusal changes nothing. A tape loses the end: it has the steps before it, and is not whole.
    pub fn finish(&mut self, server: u16) -> Result<Completion, HouseError>
        ensures { FinishOf W.meaning server self.old result self.new }
    {
        match finish_told(&mut self.core, &mut self.tape, server) {
            Ok(done) => {
                self.collector.take_early(done);
                Ok(done)
            }
            Err(error) => Err(HouseError::of_charge(error)),
        }
    }

    /// Returns what a server was charged, in total and at most for one unit, or [`HouseError::NoSuchServer`].
    pub fn charges(&self, server: u16) -> Result<Charges, HouseError>
        ensures { ChargesOf W.meaning server self.now result }
    {
        match self.core.charges(server) {
            Ok(charges) => Ok(charges),
            Err(_) => Err(HouseError::NoSuchServer),
        }
    }

    /// Returns the clock, in ticks: 0 to [`LIMIT`].
    pub fn now(&self) -> u64
        ensures { ClockOf W.meaning self.now result }
    {
        self.core.now()
    }

    /// Returns for how many ticks no server will be ready, or `None` if one is ready now, as [`Core::idle_span`] does.
    ///
    /// If no job is held, the number reaches to the clock's end, [`LIMIT`]: no server is ready until a message is
    /// taken. A caller that polls must not advance by it then. Nothing can run after the clock stands at its end.
    /// [`turn`](House::turn) advances by the idle span only while a job is held.
    pub fn idle_span(&self) -> Option<u64>
        ensures { SpanOf W.meaning self.now result }
    {
        self.core.idle_span()
    }

    /// Returns the tick by which every job that a server accepted so far is finished, as [`Core::promised`] does.
    /// Returns `None` if all are finished or there is no such server.
    ///
    /// The tick is kept if all servers are on time now, and no advance and no charge to come takes anybody's time. A
    /// house is on time when it is opened. Each call keeps it on time, except an [`advance`](House::advance) while a
    /// server is ready, and a [`charge`](House::charge). Calls with a meter make charges.
    ///
    /// With charges the jobs are finished by a later tick, if no advance before or after took anybody's time. It is
    /// later by a period for each budget's ticks that this server is charged from now on. It is also later by the most
    /// that each other server was charged for one unit, added up.
    pub fn promised(&self, server: u16) -> Option<u128>
        ensures { PromiseOf W.meaning server self.now result }
    {
        self.core.promised(server)
    }

    /// Returns the output so far of the job at the front of a server, as [`Core::front_output`] does. Returns `None` if
    /// the server has no unfinished job, or if there is no such server.
    pub fn front_output(&self, server: u16) -> Option<u64>
        ensures { result ≡ front_output W.meaning (held_at (core_of self.now) server).jobs }
    {
        self.core.front_output(server)
    }

    /// Returns a server's view. Refuses by [`HouseError::NoSuchServer`] if there is no such server.
    pub fn view(&self, server: u16) -> Result<ServerView, HouseError>
        ensures { ViewOf W.meaning server self.now result }
    {
        match self.core.view(server) {
            Ok(view) => Ok(view),
            Err(_) => Err(HouseError::NoSuchServer),
        }
    }
}
