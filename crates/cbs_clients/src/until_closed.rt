//! Runs until every server is closed and every job is finished.

ghost use Rattle.std.specs.Prelude.{◌≡◌, MatchResult, Some, None};
ghost use Rattle.cbs_clients.specs.UntilClosed.{turn_stop};
ghost use Rattle.cbs_clients.specs.Sinks.{HearsRun};
ghost use Rattle.cbs_rate.specs.Limits.{most_servers};

use crate::error::HouseError;
use crate::house::House;
use crate::turn::Turn;
use cbs_core::{LIMIT, Ran};
use cbs_host::{Meter, NoMeter, Pause, Sink};
use cbs_job::Work;
use std::alloc::Allocator;
use std::time::Clock;

impl<W: Work, A: Allocator> House<W, A> {
    ghost use Rattle.std.specs.Prelude.{◌≡◌, ◌≤◌, ◌↔◌, max, true, false, IsTrue, OnOk, IfOk, IfErr};
    ghost use Rattle.cbs_core.specs.Held.{HoldsNoJob};
    ghost use Rattle.cbs_clients.specs.Houses.{core_of, rings_of, IsHouseOnTime, IsHousePaced, AllFinished, ServesOn, ServesBy};
    ghost use Rattle.cbs_host.specs.Meters.{NothingBeyond, NeverCharges};
    ghost use Rattle.cbs_clients.specs.UntilClosed.{open_servers, AllClosed, IsOver, RunEnds, RunsTelling, IsWaiting, RunStops, TakesTurnOfRun};
    ghost use Rattle.cbs_clients.specs.Sinks.{Tells};

    /// Takes turns ([`turn`](House::turn)) until every server is closed and every job is finished. It passes each
    /// completion to the sink as it comes. After turns that did nothing it yields, and sleeps for at most 2
    /// milliseconds now and then. The runtime's clock serves for this alone.
    ///
    /// Refuses by:
    /// - [`HouseError::OutOfMemory`] after the first turn in which a poll was out of memory for a message;
    /// - [`HouseError::ClockEnd`] after a turn that met the clock's end, [`LIMIT`], with a job unfinished;
    /// - [`HouseError::Stalled`] after `idle_turns` idle turns in a row (at least one). In an idle turn the clock
    ///   stands and no server is closed.
    ///
    /// The steps made stay made, and nothing is lost: it may be called again.
    pub fn run_until_closed<R: Clock, S: Sink>(
        &mut self,
        rt: &R,
        sink: &mut S,
        idle_turns: u64,
    ) -> Result<(), HouseError>
        ensures ends { RunEnds W.meaning NothingBeyond (max idle_turns 1) self.old result self.new }
        ensures steps { ServesOn W.meaning self.old self.new }
        ensures on_time { IsHouseOnTime self.old → IsHouseOnTime self.new }
        ensures paced { IsHousePaced self.old → IsHousePaced self.new }
        ensures rings { rings_of self.new ≡ rings_of self.old }
        ensures told { Tells S.hears self.old self.new sink.old sink.new }
        ensures finished { OnOk result (AllFinished W.meaning self.new) }
        ensures stops { IfErr result (λ error.
            RunStops W.meaning NothingBeyond error self.old self.new) }
    {
        self.run_until_closed_metered(rt, sink, &mut NoMeter, idle_turns)
    }

    /// Takes turns until every server is closed and every job is finished, as
    /// [`run_until_closed`](House::run_until_closed) does, with a meter. After each unit its server is charged what the
    /// meter returns, as by [`run_metered`](House::run_metered).
    ///
    /// The errors are those of [`run_until_closed`](House::run_until_closed), in the same cases.
    pub fn run_until_closed_metered<R: Clock, S: Sink, M: Meter>(
        &mut self,
        rt: &R,
        sink: &mut S,
        meter: &mut M,
        idle_turns: u64,
    ) -> Result<(), HouseError>
        ensures ends { RunEnds W.meaning M.may_tell (max idle_turns 1) self.old result self.new }
        ensures steps { ServesBy W.meaning M.may_tell self.old self.new }
        ensures on_time { NeverCharges M.may_tell → IsHouseOnTime self.old
            → IsHouseOnTime self.new }
        ensures paced { IsHousePaced self.old → IsHousePaced self.new }
        ensures rings { rings_of self.new ≡ rings_of self.old }
        ensures told { Tells S.hears self.old self.new sink.old sink.new }
        ensures finished { OnOk result (AllFinished W.meaning self.new) }
        ensures stops { IfErr result (λ error.
            RunStops W.meaning M.may_tell error self.old self.new) }
    {
        let most = idle_turns.max(1);
        let mut unclosed = self.open_servers();
        let mut idle = 0;
        let mut pause = Pause::new();
        'turns: while !self.is_over_with(unclosed) {
            if idle == most {
                return Err(HouseError::Stalled);
            }
            if self.move_on(sink, meter, &mut unclosed)? {
                idle = 0;
                pause = Pause::new();
            } else {
                idle += 1;
                pause.idle(rt);
            }
        }
        Ok(())
    }

    /// Returns whether every server is closed and every job is finished. Then no message will be taken and no job is
    /// left to run.
    pub fn is_over(&self) -> bool
        ensures { IsTrue result ↔ IsOver (core_of self.now) }
    {
        self.are_all_closed() && !self.is_busy()
    }

    /// Returns whether every server is closed. It reads no server after the first open one.
    fn are_all_closed(&self) -> bool
        ensures { IsTrue result ↔ AllClosed (core_of self.now) }
    {
        for server in 0..self.servers() {
            if !self.is_closed(server) {
                return false;
            }
        }
        true
    }

    /// Returns whether every server is closed and every job is finished. `unclosed` is how many servers are open.
    fn is_over_with(&self, unclosed: u16) -> bool
        requires { unclosed ≡ open_servers (core_of self.now) }
        ensures over { IsTrue result ↔ IsOver (core_of self.now) }
        ensures waits { result ≡ false → HoldsNoJob (core_of self.now) → IsWaiting self.now }
    {
        unclosed == 0 && !self.is_busy()
    }

    /// Returns how many servers are open.
    fn open_servers(&self) -> u16
        ensures count { result ≡ open_servers (core_of self.now) }
        ensures few { result ≤ most_servers }
    {
        let mut open = 0;
        for server in 0..self.servers() {
            if !self.is_closed(server) {
                open += 1;
            }
        }
        open
    }

    /// Takes a turn, and passes a completion to the sink. Returns whether the clock moved or a server was closed, or
    /// the error that stops the run. `unclosed` is how many servers are open, before and after.
    fn move_on<S: Sink, M: Meter>(
        &mut self,
        sink: &mut S,
        meter: &mut M,
        unclosed: &mut u16,
    ) -> Result<bool, HouseError>
        requires unclosed { (unclosed.old ≡ open_servers (core_of self.old))
            × (unclosed.old ≤ most_servers) }
        ensures turn { TakesTurnOfRun W.meaning M.may_tell self.old self.new result }
        ensures run { RunsTelling W.meaning M.may_tell S.hears self.old self.new sink.old sink.new }
        ensures on { ((core_of self.old).clock ≤ (core_of self.new).clock)
            × (open_servers (core_of self.new) ≤ open_servers (core_of self.old)) }
        ensures few { OnOk result (((core_of self.new).clock ≤ LIMIT)
            × (unclosed.new ≤ most_servers)) }
        ensures unclosed { OnOk result (unclosed.new ≡ open_servers (core_of self.new)) }
        ensures idle { IfOk result (λ moved. moved ≡ false → HoldsNoJob (core_of self.new)) }
        ensures stops { IfErr result (λ error.
            RunStops W.meaning M.may_tell error self.old self.new) }
    {
        let tick = self.now();
        let turn = self.turn_metered(meter);
        tell(sink, turn.ran);
        stopped_by(turn)?;
        let before = *unclosed;
        *unclosed = self.open_after(turn.took, before);
        let later = self.now() > tick;
        Ok(later | (*unclosed < before))
    }

    /// Returns how many servers are open after a turn that took `took` messages, if `unclosed` were open before it. A
    /// turn that took no message closed no server, so no server is read then.
    fn open_after(&self, took: u64, unclosed: u16) -> u16
        requires still { took ≡ 0 → unclosed ≡ open_servers (core_of self.now) }
        requires few { unclosed ≤ most_servers }
        ensures count { result ≡ open_servers (core_of self.now) }
        ensures few { result ≤ most_servers }
    {
        if took == 0 {
            return unclosed;
        }
        self.open_servers()
    }
}

/// Passes what ran to the sink, if it is a completion.
fn tell<S: Sink>(sink: &mut S, ran: Ran)
    ensures { HearsRun S.hears ran sink.old sink.new }
{
    if let Ran::Done(done) = ran {
        sink.tell(done);
    }
}

/// Returns the error that stops a run after this turn, if there is one.
fn stopped_by(turn: Turn) -> Result<(), HouseError>
    ensures { MatchResult result (λ _. turn_stop turn ≡ None) (λ error. turn_stop turn
        ≡ Some error) }
{
    if turn.out_of_memory {
        return Err(HouseError::OutOfMemory);
    }
    match turn.ran {
        Ran::ClockEnd => Err(HouseError::ClockEnd),
        Ran::Idle | Ran::Unit { .. } | Ran::Done(_) => Ok(()),
    }
}
