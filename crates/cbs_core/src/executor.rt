//! The core: all servers, and the clock.

ghost use Rattle.std.specs.Prelude.{◌≡◌, ℕ, ◌+◌, ◌*◌, ◌<◌, ◌≤◌, ◌&&◌, not, eqb, true, false, IfOk, IfErr, IfSome, OnOk, OnErr, IsOk, option_map, ◌∷◌, ◌++◌, length, slice_get, [], Some, None, MatchOption, MatchResult};
ghost use Rattle.cbs_rate.specs.Refusals.{RefusesByOrMemory};
ghost use Rattle.cbs_steps.specs.Quiet.{IsAtRest, IsIdleSpan};
ghost use Rattle.cbs_lists.specs.Lists.{changed_at};
ghost use Rattle.cbs_steps.specs.Choice.{IsChoice};
ghost use Rattle.cbs_steps.specs.Faces.{face_at, ranks, view_reply, charges_reply};
ghost use Rattle.cbs_steps.specs.History.{History, account, faces, chosen};
ghost use Rattle.cbs_steps.specs.Replies.{submitted, advanced, closed, charged, is_lack};
ghost use Rattle.cbs_steps.specs.Laws.{account_in, completion_in, NoneAfterClose, IsWithinBudget};
ghost use Rattle.cbs_steps.specs.Lateness.{later_charges};
ghost use Rattle.cbs_steps.specs.OnTime.{IsWorldOnTime};
ghost use Rattle.cbs_steps.specs.Paced.{AllFinishedLate};
ghost use Rattle.cbs_steps.specs.Promises.{promised, AllFinishedBy};
ghost use Rattle.cbs_steps.specs.Punctual.{IsPunctual};
ghost use Rattle.cbs_steps.specs.Setups.{new_refusal, setup_of, history_of};
ghost use Rattle.cbs_core.specs.Agreement.{Agrees, FollowsInHindsight, TellsOf};
ghost use Rattle.cbs_core.specs.Calls.{AllPunctual, CompletesSteps, IsBefore, Makes, RefusesAsSubmit, Tries, TriesAll};
ghost use Rattle.cbs_core.specs.Held.{room_of, KeepsRoom, IsOpen, HasRoom, IsRefusedBy, IsCoreOnTime, IsCorePaced, front_output, held_at, TakesJob, ClosesServer, OthersSame, AllSame, DoesRun, LeavesUnit, CountsOn, EndsJob, ended_at, running, is_running, may_end, end_refusal};
ghost use Rattle.cbs_core.specs.Past.{past_of, restored, with_job_back, IsStill, MayRestore, MayGiveBack, MayBeLast};
ghost use Rattle.cbs_rate.specs.Limits.{longest_period, most_servers};

use crate::last_unit::LastUnit;
use crate::past::{NotAState, Past};
use crate::servers::Servers;
use cbs_job::{Completion, Task, Work};
use cbs_queues::Queues;
use cbs_rate::Plan;
use cbs_rules::{LIMIT, Modes};
use cbs_steps::{Charges, CoreError, Ran, Reply, ServerView, Step, StepsRefused, SubmitRefused};
use std::alloc::{Allocator, Global};
use std::marker::Model;

/// The greatest backlog of a server, in jobs.
pub const MAX_BACKLOG: u64 = 4096;

/// The core of an executor: servers with their jobs, and the clock.
///
/// It runs one unit of one job per tick. The job belongs to the ready server with the earliest deadline, of equal
/// deadlines to the one with the lower number. The jobs of a server run first in, first out.
pub struct Core<W: Work, A: Allocator = Global> {
    alloc: A,
    backlog: u64,
    clock: u64,
    last: LastUnit,
    // Placed before the servers, whose list of ready servers is long.
    queues: Queues<W, A>,
    servers: Servers<A>,
}

// An owner of a core calls this one function at each exit, instead of the drops of all fields.
impl<W: Work, A: Allocator> Drop for Core<W, A> {
    fn drop(self) {
        let Core {
            alloc: _,
            backlog: _,
            clock: _,
            last: _,
            queues: _,
            servers: _,
        } = self;
    }
}

impl<W: Work, A: Allocator> Model for Core<W, A> {
    ghost use Rattle.cbs_core.specs.Held.{CoreHeld};
    ghost use Rattle.cbs_core.specs.Invariant.{IsCore};

    ghost Value = { CoreHeld W };

    ghost view = { λ c. record { backlog = c.backlog; clock = c.clock; last = c.last; faces = c.servers; queues = c.queues.lists; rooms = c.queues.rooms } };

    ghost invariant = { λ c. IsCore W.meaning (record { backlog = c.backlog; clock = c.clock; last = c.last; faces = c.servers; queues = c.queues.lists; rooms = c.queues.rooms }) };
}

impl<W: Work, A: Allocator + Clone> Core<W, A> {
    /// Returns a core whose servers have the reservations of the plan and, by number, these modes. Each server may have
    /// at most `backlog` unfinished jobs. The clock stands at 0, and no server has a job.
    ///
    /// There must be a mode for each server of the plan.
    ///
    /// Refuses a backlog outside 1 to [`MAX_BACKLOG`] by [`CoreError::BadBacklog`], and by [`CoreError::OutOfMemory`]
    /// if an allocation is refused.
    pub fn new(alloc: A, plan: Plan, modes: Modes, backlog: u64) -> Result<Self, CoreError>
        requires { length modes ≡ length plan.rates }
        ensures start { IfOk result (λ core. Agrees W.meaning core
            (history_of modes plan.rates backlog [])) }
        ensures on_time { IfOk result (λ core. IsCoreOnTime core) }
        ensures paced { IfOk result (λ core. IsCorePaced core) }
        ensures punctual { OnOk result (AllPunctual W.meaning
            (setup_of modes plan.rates backlog)) }
        ensures refusal { RefusesByOrMemory CoreError.OutOfMemory result (new_refusal backlog) }
    {
        Core::of(alloc, &plan, &modes, backlog)
    }

    /// Returns a core as [`new`](Core::new) does, but borrows the plan and the modes. Each of them takes up to half a
    /// kilobyte, which a move would copy.
    pub fn of(alloc: A, plan: &Plan, modes: &Modes, backlog: u64) -> Result<Self, CoreError>
        requires { length modes.now ≡ length plan.now.rates }
        ensures start { IfOk result (λ core. Agrees W.meaning core
            (history_of modes.now plan.now.rates backlog [])) }
        ensures on_time { IfOk result (λ core. IsCoreOnTime core) }
        ensures paced { IfOk result (λ core. IsCorePaced core) }
        ensures punctual { OnOk result (AllPunctual W.meaning
            (setup_of modes.now plan.now.rates backlog)) }
        ensures refusal { RefusesByOrMemory CoreError.OutOfMemory result (new_refusal backlog) }
    {
        if backlog == 0 || backlog > MAX_BACKLOG {
            return Err(CoreError::BadBacklog);
        }
        let Ok(servers) = Servers::new(&alloc, plan, modes) else {
            return Err(CoreError::OutOfMemory);
        };
        let Ok(queues) = Queues::new(&alloc, servers.len()) else {
            return Err(CoreError::OutOfMemory);
        };
        Ok(Core {
            alloc,
            backlog,
            clock: 0,
            last: LastUnit::new(),
            servers,
            queues,
        })
    }
}

impl<W: Work, A: Allocator> Core<W, A> {
    /// Makes room for one more job of a server. If the next [`submit`](Core::submit) on this core is on that server, it
    /// takes no memory. If room is there already, this succeeds. Nothing but the room changes.
    ///
    /// Refuses as a submit on that server would, and returns [`CoreError::OutOfMemory`] if an allocation is refused.
    pub fn make_room(&mut self, server: u16) -> Result<(), CoreError>
        ensures answer { RefusesAsSubmit W.meaning self.old server result }
        ensures state { (M : History W) → Agrees W.meaning self.old M
            → Agrees W.meaning self.new M }
        ensures room { OnOk result (HasRoom self.new server) }
        ensures refused { IfErr result (IsRefusedBy self.old server) }
        ensures succeeds { HasRoom self.old server → IsOk result }
        ensures kept { KeepsRoom self.old.rooms self.new.rooms }
        ensures same { self.new ≡ record self.old { rooms = self.new.rooms } }
    {
        if let Some(error) = self.servers.submit_refusal(self.backlog, server) {
            return Err(error);
        }
        if self.queues.reserve(server).is_err() {
            return Err(CoreError::OutOfMemory);
        }
        Ok(())
    }

    /// Gives a job to a server, and returns the job's number among the server's accepted jobs.
    ///
    /// Refuses, in this order:
    /// - [`CoreError::NoSuchServer`];
    /// - [`CoreError::Closed`] if the server was closed;
    /// - [`CoreError::BacklogFull`] if it has as many unfinished jobs as it may have;
    /// - [`CoreError::OutOfMemory`] if an allocation is refused.
    ///
    /// A refusal hands the job back and changes nothing, except that room for the job may have been made.
    // Always inlined, here and below: a caller that submits a job of one unit has two calls a tick, this and `run`.
    #[tactic(auto, using(cbs_lists::proofs::Lists::counted, crate::proofs::Cores::budgets_kept))]
    #[inline(always)]
    pub fn submit(&mut self, server: u16, task: Task<W>) -> Result<u64, SubmitRefused<W>>
        ensures tries { Tries W.meaning self.old self.new (Step.Submit server task)
            (submitted result) }
        ensures room { 0 < room_of self.old.rooms server → is_lack (submitted result) ≡ false }
        ensures succeeds { HasRoom self.old server → IsOk result }

        ensures job { IfOk result (λ number. TakesJob task number (held_at self.old server)
            (held_at self.new server)
            × OthersSame server self.old self.new) }
        ensures ends { OnOk result ((s : ℕ) → may_end self.new s
            ≡ (may_end self.old s && not (eqb self.old.last.server server))) }
        ensures unchanged { OnErr result (self.new ≡ record self.old { rooms = self.new.rooms }) }
        ensures kept { OnErr result (KeepsRoom self.old.rooms self.new.rooms) }
    {
        if let Some(error) = self.servers.submit_refusal(self.backlog, server) {
            return Err(SubmitRefused { error, task });
        }
        if self.queues.reserve(server).is_err() {
            return Err(SubmitRefused {
                error: CoreError::OutOfMemory,
                task,
            });
        }
        Ok(self.submit_reserved(server, task))
    }

    /// Gives a job to a server that has room for it, and returns the job's number among the server's accepted jobs. It
    /// takes no memory.
    ///
    /// The server must be there and open, its backlog not full, and room made. A [`make_room`](Core::make_room) that
    /// returns `Ok` leaves such room.
    #[tactic(auto, using(cbs_lists::proofs::Lists::counted, crate::proofs::Cores::budgets_kept))]
    #[inline(always)]
    pub fn submit_reserved(&mut self, server: u16, task: Task<W>) -> u64
        requires { HasRoom self.old server }
        ensures makes { Makes W.meaning self.old self.new (Step.Submit server task)
            (Reply.Accepted result) }
        ensures job { TakesJob task result (held_at self.old server) (held_at self.new server)
            × OthersSame server self.old self.new }
        ensures ends { (s : ℕ) → may_end self.new s
            ≡ (may_end self.old s && not (eqb self.old.last.server server)) }
    {
        self.queues.push(server, task);
        self.last.join(server);
        self.servers.accept(server, self.clock)
    }

    /// Runs one unit of the job at the front of the chosen server, which takes one tick.
    ///
    /// Returns [`Ran::Idle`] if no server is ready. If one is ready but the clock stands at [`LIMIT`], returns
    /// [`Ran::ClockEnd`]. Both change nothing.
    #[tactic(auto, using(cbs_lists::proofs::Lists::counted, crate::proofs::Cores::budgets_kept))]
    #[inline(always)]
    pub fn run(&mut self) -> Ran
        ensures makes { Makes W.meaning self.old self.new Step.Run (Reply.Ran result) }
        ensures job { DoesRun W.meaning result self.old self.new }
        ensures ends { LeavesUnit result self.new }
        ensures kept { KeepsRoom self.old.rooms self.new.rooms }
    {
        let Some(server) = self.servers.choose() else {
            return Ran::Idle;
        };
        if self.clock >= LIMIT {
            return Ran::ClockEnd;
        }
        self.clock += 1;
        self.last.server = server;
        let output = self.queues.run_first(server);
        // Read after the unit: a number read before would have to be kept while the unit runs.
        let seq = self.servers.finished(server);
        // Each case passes the tick for itself, so that most units test only once whether a job is finished.
        let Some(result) = output else {
            self.last.unfinished = true;
            self.servers.pass_tick(server, false, self.clock);
            return Ran::Unit { server, seq };
        };
        self.last.unfinished = false;
        self.servers.pass_tick(server, true, self.clock);
        Ran::Done(Completion {
            server,
            seq,
            result,
        })
    }

    /// Ends the job that got the last unit of all, although it has units left. The job leaves its queue and counts as
    /// finished. Returns its completion, with the job's output so far.
    ///
    /// In hindsight the job had only the units that it got, from its submit on. So the end moves no clock and changes no
    /// budget, deadline or mark, and the server may still be charged for the unit.
    ///
    /// Refuses, in this order:
    /// - [`CoreError::NoSuchServer`];
    /// - [`CoreError::NotRunning`], unless the server ran the last unit and no tick has passed since, except those
    ///   charged for the unit. The same if that unit was the last of its job, or if the server accepted a job since.
    ///
    /// A refusal changes nothing.
    #[tactic(auto, using(cbs_lists::proofs::Lists::counted, crate::proofs::Cores::budgets_kept))]
    pub fn finish(&mut self, server: u16) -> Result<Completion, CoreError>
        ensures hindsight { OnOk result (FollowsInHindsight W.meaning self.old self.new server) }
        ensures job { IfOk result (λ c. EndsJob W.meaning c (held_at self.old server)
            (held_at self.new server)
            × OthersSame server self.old self.new × (c.server ≡ server)) }
        ensures same { OnOk result (self.new
            ≡ record (ended_at server self.old) { rooms = self.new.rooms }) }
        ensures refusal { MatchResult result (λ c. end_refusal self.old server ≡ None)
            (λ error. end_refusal self.old server ≡ Some error) }
        ensures unchanged { OnErr result (self.new ≡ self.old) }
        ensures on_time { IsCoreOnTime self.old → IsCoreOnTime self.new }
        ensures paced { IsCorePaced self.old → IsCorePaced self.new }
        ensures kept { KeepsRoom self.old.rooms self.new.rooms }
    {
        if server >= self.servers.len() {
            return Err(CoreError::NoSuchServer);
        }
        if self.last.is_of(server, self.clock) && self.last.unfinished {
            return Ok(self.finish_running(server));
        }
        Err(CoreError::NotRunning)
    }

    /// Ends the job that got the last unit, which is one of `server` and may be ended.
    #[tactic(auto, using(cbs_lists::proofs::Lists::counted, crate::proofs::Cores::budgets_kept))]
    fn finish_running(&mut self, server: u16) -> Completion
        requires { may_end self.old server ≡ true }
        ensures hindsight { FollowsInHindsight W.meaning self.old self.new server }
        ensures job { EndsJob W.meaning result (held_at self.old server) (held_at self.new server)
            × OthersSame server self.old self.new × (result.server ≡ server) }
        ensures same { self.new ≡ record (ended_at server self.old) { rooms = self.new.rooms } }
        ensures on_time { IsCoreOnTime self.old → IsCoreOnTime self.new }
        ensures paced { IsCorePaced self.old → IsCorePaced self.new }
        ensures kept { KeepsRoom self.old.rooms self.new.rooms }
    {
        self.last.unfinished = false;
        let seq = self.servers.finished(server);
        let result = self.queues.end_first(server);
        self.servers.end_job(server);
        Completion {
            server,
            seq,
            result,
        }
    }

    /// Lets `n` ticks pass in one jump.
    ///
    /// Refuses by [`CoreError::ClockEnd`] if the clock would pass [`LIMIT`], and then changes nothing. An advance by 0
    /// is accepted and changes nothing.
    #[tactic(auto, using(cbs_lists::proofs::Lists::counted, crate::proofs::Cores::budgets_kept))]
    pub fn advance(&mut self, n: u64) -> Result<(), CoreError>
        ensures makes { Makes W.meaning self.old self.new (Step.Advance n) (advanced result) }
        ensures jobs { AllSame self.old self.new }
        ensures unchanged { OnErr result (self.new ≡ self.old) }
        ensures kept { KeepsRoom self.old.rooms self.new.rooms }
    {
        if n > LIMIT - self.clock {
            return Err(CoreError::ClockEnd);
        }
        if n > 0 {
            self.clock += n;
            self.last.advanced_to = self.clock;
            self.servers.replenish(self.clock);
        }
        Ok(())
    }

    /// Charges the server that ran the last unit the ticks that the unit took after its first tick. As many ticks pass.
    /// The server pays for them from its budget and from its budgets to come. So a unit that takes long takes nothing
    /// from another server's share. A charge of 0 is accepted and changes nothing.
    ///
    /// Refuses, in this order:
    /// - [`CoreError::NoSuchServer`];
    /// - [`CoreError::NotRunning`], unless the server ran the last unit and no tick has passed since, except those
    ///   charged for the unit;
    /// - [`CoreError::ClockEnd`] if the clock would pass [`LIMIT`].
    ///
    /// A refusal changes nothing.
    #[tactic(auto, using(cbs_lists::proofs::Lists::counted, crate::proofs::Cores::budgets_kept))]
    pub fn charge(&mut self, server: u16, ticks: u64) -> Result<(), CoreError>
        ensures makes { Makes W.meaning self.old self.new (Step.Charge server ticks)
            (charged result) }
        ensures jobs { AllSame self.old self.new }
        ensures ends { (s : ℕ) → may_end self.new s ≡ may_end self.old s }
        ensures unchanged { OnErr result (self.new ≡ self.old) }
        ensures kept { KeepsRoom self.old.rooms self.new.rooms }
    {
        if server >= self.servers.len() {
            return Err(CoreError::NoSuchServer);
        }
        if !self.last.is_of(server, self.clock) {
            return Err(CoreError::NotRunning);
        }
        if ticks > LIMIT - self.clock {
            return Err(CoreError::ClockEnd);
        }
        if ticks > 0 {
            self.charge_running(server, ticks);
        }
        Ok(())
    }

    /// Charges the server that runs, with a number of ticks that the clock allows.
    #[tactic(auto, using(cbs_lists::proofs::Lists::counted, crate::proofs::Cores::budgets_kept))]
    fn charge_running(&mut self, server: u16, ticks: u64)
        requires running { is_running self.old server ≡ true }
        requires some { 0 < ticks }
        requires clock { self.old.clock + ticks ≤ LIMIT }
        ensures makes { Makes W.meaning self.old self.new (Step.Charge server ticks) Reply.Charged }
        ensures jobs { AllSame self.old self.new }
        ensures ends { (s : ℕ) → may_end self.new s ≡ may_end self.old s }
        ensures kept { KeepsRoom self.old.rooms self.new.rooms }
    {
        let for_unit = self.last.charge(self.clock, ticks);
        self.clock += ticks;
        self.servers.charge(server, ticks, for_unit, self.clock);
    }

    /// Closes a server: it accepts no further job. The jobs that it accepted stay, and are run.
    ///
    /// Refuses by [`CoreError::NoSuchServer`], or by [`CoreError::Closed`] if the server was closed before. A refusal
    /// changes nothing.
    #[tactic(auto, using(cbs_lists::proofs::Lists::counted, crate::proofs::Cores::budgets_kept))]
    pub fn close(&mut self, server: u16) -> Result<(), CoreError>
        ensures makes { Makes W.meaning self.old self.new (Step.Close server) (closed result) }
        ensures closed { OnOk result (ClosesServer (held_at self.old server)
            (held_at self.new server)
            × OthersSame server self.old self.new) }
        ensures ends { (s : ℕ) → may_end self.new s ≡ may_end self.old s }
        ensures succeeds { IsOpen self.old server → IsOk result }
        ensures unchanged { OnErr result (self.new ≡ self.old) }
        ensures kept { KeepsRoom self.old.rooms self.new.rooms }
    {
        if let Some(error) = self.servers.close_refusal(server) {
            return Err(error);
        }
        self.close_open(server);
        Ok(())
    }

    /// Closes a server that is there and open, as [`close`](Core::close) does.
    #[tactic(auto, using(cbs_lists::proofs::Lists::counted, crate::proofs::Cores::budgets_kept))]
    pub fn close_open(&mut self, server: u16)
        requires { IsOpen self.old server }
        ensures makes { Makes W.meaning self.old self.new (Step.Close server) Reply.Closed }
        ensures closed { ClosesServer (held_at self.old server) (held_at self.new server)
            × OthersSame server self.old self.new }
        ensures ends { (s : ℕ) → may_end self.new s ≡ may_end self.old s }
        ensures kept { KeepsRoom self.old.rooms self.new.rooms }
    {
        self.servers.close(server);
    }

    /// Returns what a server keeps, but for its unfinished jobs, or `None` if there is no such server.
    pub fn past(&self, server: u16) -> Option<Past>
        ensures { result ≡ option_map past_of (slice_get self.now.faces server) }
    {
        self.servers.past(server)
    }

    /// Returns what is known of the last unit.
    pub fn last_unit(&self) -> LastUnit
        ensures { result ≡ self.now.last }
    {
        self.last
    }

    /// Brings a server to what it was in the midst of a run, at the tick at which the clock stands. It must have no
    /// unfinished job, and no server may run: so a core is brought to the state of a run after [`new`](Core::new) and an
    /// [`advance`](Core::advance). Its unfinished jobs are given back after this, by [`give_back`](Core::give_back).
    ///
    /// Refuses what no server of a run is, and then changes nothing. A state that no run leads to may be taken: what is
    /// proved of runs is not promised for it.
    pub fn restore(&mut self, server: u16, past: &Past) -> Result<(), NotAState>
        ensures state { OnOk result (self.new ≡ record self.old {
          faces = changed_at (restored past.now) self.old.faces server;
        }) }
        ensures taken { MayRestore self.old server past.now → IsOk result }
        ensures unchanged { OnErr result (self.new ≡ self.old) }
    {
        if !self.is_still() || !self.servers.may_have_been(server, past, self.clock) {
            return Err(NotAState);
        }
        self.servers.restore(server, past);
        Ok(())
    }

    /// Returns whether no server runs, and no job may be ended.
    fn is_still(&self) -> bool
        ensures sound { result ≡ true → IsStill self.now }
        ensures whole { IsStill self.now → result ≡ true }
    {
        self.last.running(self.clock).is_none() && !self.last.unfinished
    }

    /// Returns whether a server can be given an unfinished job back: it is there, it has had a deadline and fewer jobs than
    /// it may have, and no server runs.
    pub fn may_give_back(&self, server: u16) -> bool
        ensures sound { result ≡ true → MayGiveBack self.now server }
        ensures whole { MayGiveBack self.now server → result ≡ true }
    {
        self.is_still() && self.servers.may_give_back(server, self.backlog)
    }

    /// Gives a server of a restored core an unfinished job back, after those that it was given back before, with the units
    /// that the job has left. No rule is applied: the server's budget and deadline stay.
    ///
    /// Hands the job back if [`may_give_back`](Core::may_give_back) is false, and else only if out of memory. Then nothing
    /// changes but the room for jobs.
    pub fn give_back(&mut self, server: u16, task: Task<W>) -> Result<(), Task<W>>
        ensures state { OnOk result (self.new ≡ record self.old {
          faces = changed_at with_job_back self.old.faces server;
          queues = changed_at (λ jobs. jobs ++ task ∷ []) self.old.queues server;
          rooms = self.new.rooms;
        }) }
        ensures taken { MayGiveBack self.old server → 0 < room_of self.old.rooms server
            → IsOk result }
        ensures unchanged { IfErr result (λ job. (job ≡ task)
            × (self.new ≡ record self.old { rooms = self.new.rooms })) }
        ensures kept { OnErr result (KeepsRoom self.old.rooms self.new.rooms) }
    {
        if !self.may_give_back(server) {
            return Err(task);
        }
        if self.queues.reserve(server).is_err() {
            return Err(task);
        }
        self.put_back(server, task);
        Ok(())
    }

    /// Gives a server an unfinished job back, for which there is room.
    fn put_back(&mut self, server: u16, job: Task<W>)
        requires may { MayGiveBack self.old server }
        requires room { 0 < room_of self.old.rooms server }
        ensures { self.new ≡ record self.old {
          faces = changed_at with_job_back self.old.faces server;
          queues = changed_at (λ jobs. jobs ++ job ∷ []) self.old.queues server;
          rooms = self.new.rooms;
        } }
    {
        self.queues.push(server, job);
        self.servers.give_back(server);
    }

    /// Sets what is known of the last unit of a restored core, after its jobs were given back. Refuses what no core knows,
    /// and then changes nothing.
    pub fn restore_last(&mut self, last: LastUnit) -> Result<(), NotAState>
        ensures state { OnOk result (self.new ≡ record self.old { last = last }) }
        ensures taken { MayBeLast self.old last → IsOk result }
        ensures unchanged { OnErr result (self.new ≡ self.old) }
    {
        if !self.may_be_last(last) {
            return Err(NotAState);
        }
        self.last = last;
        Ok(())
    }

    /// Returns whether this may be known of the last unit.
    fn may_be_last(&self, last: LastUnit) -> bool
        ensures sound { result ≡ true → MayBeLast self.now last }
        ensures whole { MayBeLast self.now last → result ≡ true }
    {
        last.is_early(self.clock)
            && (last.advanced_to == self.clock || self.servers.is_begun(last.server))
            && (!last.unfinished || self.servers.is_unfinished(last.server, self.clock))
    }

    /// Returns the clock, in ticks: 0 to [`LIMIT`].
    pub fn now(&self) -> u64
        ensures now { TellsOf W.meaning self.now (λ w. result ≡ w.now) }
        ensures clock { result ≡ self.now.clock }
        ensures most { result ≤ LIMIT }
    {
        self.clock
    }

    /// Returns the chosen server: the ready one with the least deadline, of equal deadlines the lower number. Returns
    /// `None` if no server is ready.
    pub fn ready(&self) -> Option<u16>
        ensures chosen { TellsOf W.meaning self.now (λ w. result ≡ chosen W.meaning w) }
        ensures earliest { TellsOf W.meaning self.now (λ w.
            IsChoice (ranks (faces W.meaning w)) (length (faces W.meaning w)) result) }
    {
        self.servers.choose()
    }

    /// Returns how many servers there are: at most 64, numbered from 0.
    pub fn servers(&self) -> u16
        ensures value { result ≡ length self.now.faces }
        ensures few { result ≤ most_servers }
    {
        self.servers.len()
    }

    /// Returns for how many ticks no server will be ready, or `None` if one is ready now. By this number of ticks the
    /// clock may advance with no server ready before the last tick. It is the greatest such number, up to the clock's
    /// end. An advance by it takes no time from any server.
    ///
    /// If the core holds no job, the number reaches to the clock's end, [`LIMIT`]: no server is ready until a job is
    /// submitted. A caller that waits for submits must not advance by it then. Nothing can run after the clock stands
    /// at its end.
    pub fn idle_span(&self) -> Option<u64>
        ensures { TellsOf W.meaning self.now (λ w.
            MatchOption result (¬ IsAtRest W.meaning w) (IsIdleSpan W.meaning w)) }
    {
        self.servers.idle_span(self.clock)
    }

    /// Returns a server's view, or [`CoreError::NoSuchServer`].
    pub fn view(&self, server: u16) -> Result<ServerView, CoreError>
        ensures held { result ≡ view_reply (slice_get self.now.faces server) }
        ensures view { TellsOf W.meaning self.now (λ w. result
            ≡ view_reply (slice_get (faces W.meaning w) server)) }
        ensures early { TellsOf W.meaning self.now (λ w.
            IfOk result (λ view. view.deadline ≤ w.now + (w.now + 1) * longest_period)) }
        ensures budget { TellsOf W.meaning self.now (λ w.
            OnOk result (IsWithinBudget (face_at (faces W.meaning w) server))) }
        ensures in_time { TellsOf W.meaning self.now (λ w. IsWorldOnTime W.meaning w
            → IfOk result (λ view. IsBefore w.now view view.deadline)) }

        // With charges: late by less than those with later deadlines were charged, the most of each for one unit.
        ensures late_by { IsCorePaced self.now
            → TellsOf W.meaning self.now (λ w. IfOk result (λ view.
            IsBefore w.now view (view.deadline + later_charges view.deadline w.accounts))) }
    {
        self.servers.view(server)
    }

    /// Returns the server that runs, which [`charge`](Core::charge) may charge, or `None` if there is none. A server
    /// runs if it got the last unit and no tick has passed since, except those charged for the unit.
    pub fn running(&self) -> Option<u16>
        ensures held { result ≡ running self.now }
        ensures running { TellsOf W.meaning self.now (λ w. MatchOption result ((s : ℕ)
            → (account w.accounts s).runs ≡ false) (λ s. (account w.accounts s).runs ≡ true)) }
    {
        self.last.running(self.clock)
    }

    /// Returns what a server was charged, in total and at most for one unit, or [`CoreError::NoSuchServer`].
    pub fn charges(&self, server: u16) -> Result<Charges, CoreError>
        ensures held { result ≡ charges_reply (slice_get self.now.faces server) }
        ensures charges { TellsOf W.meaning self.now (λ w. result
            ≡ charges_reply (slice_get (faces W.meaning w) server)) }
    {
        self.servers.charges(server).ok_or(CoreError::NoSuchServer)
    }

    /// Returns the tick by which every job that a server accepted so far is finished. Returns `None` if all are
    /// finished or there is no such server.
    ///
    /// The tick is kept if all servers are on time now, and no advance and no charge to come takes time from any
    /// server. Both hold of a core without charges whose advances are all by [`idle_span`](Core::idle_span). After an
    /// advance that took a server's time, a server may be late already, and the tick may have passed.
    ///
    /// With charges, before or after, the jobs are finished by a later tick, if each advance is by the idle span. It is
    /// later by a period for each budget's ticks that this server is charged from now on. It is also later by the most
    /// that each other server was charged for one unit, added up.
    ///
    /// Let c, d and o be the budget, deadline and overrun of the server, with Q ticks in every T. Let its jobs need
    /// `owed` more units. Then the tick is `d + ceil((owed + o - c) / Q) * T`, or d if c suffices. No later step makes
    /// the tick wrong: it may be given to whoever waits for the job that was submitted last.
    pub fn promised(&self, server: u16) -> Option<u128>
        ensures value { TellsOf W.meaning self.now (λ w. result
            ≡ promised W.meaning (account w.accounts server)) }
        ensures kept { IsCoreOnTime self.now → IfSome result (λ tick. (M : History W)
            → Agrees W.meaning self.now M → AllFinishedBy W.meaning M server tick) }
        ensures kept_charged { IsCorePaced self.now → IfSome result (λ tick. (M : History W)
            → Agrees W.meaning self.now M → AllFinishedLate W.meaning M server tick) }
    {
        if server >= self.servers.len() {
            return None;
        }
        self.servers.promised(server, self.queues.owed(server))
    }

    /// Returns the output so far of the job at the front of a server. Returns `None` if the server has no unfinished
    /// job, or if there is no such server. After [`Ran::Unit`] that job is the one that got the unit.
    pub fn front_output(&self, server: u16) -> Option<u64>
        ensures { result ≡ front_output W.meaning (held_at self.now server).jobs }
    {
        if server >= self.servers.len() {
            return None;
        }
        self.queues.front_output(server)
    }

    /// Makes all steps, in order, and returns one reply for each.
    ///
    /// Room for all replies is made first. If that is refused, the steps come back and nothing changed. A single submit
    /// that memory refuses has a reply with [`CoreError::OutOfMemory`] and the job, and the next step follows.
    pub fn run_steps(
        &mut self,
        steps: Vec<Step<W>, A>,
    ) -> Result<Vec<Reply<W>, A>, StepsRefused<W, A>>
    where
        A: Clone,
        ensures tries { IfOk result (λ replies.
            TriesAll W.meaning self.old self.new steps.items replies.items) }

        // What the replies mean for each server, over the whole list.
        ensures completions { IfOk result (λ replies.
            CompletesSteps W.meaning self.old steps.items replies.items) }
        ensures closes { IfOk result (λ replies. (M : History W) → Agrees W.meaning self.old M
            → (s : ℕ)
            → NoneAfterClose s (account_in W.meaning M s).closed steps.items replies.items) }

        // The laws on time and on a server's share, for every list of steps with which the core then agrees.
        ensures punctual { OnOk result ((N : History W) → Agrees W.meaning self.new N
            → IsPunctual W.meaning N) }
        ensures back { IfErr result (λ refused. refused.steps ≡ steps) }
        ensures unchanged { OnErr result (self.new ≡ self.old) }
    {
        let Ok(alloc) = self.alloc.clone() else {
            return Err(StepsRefused { steps });
        };
        let Ok(mut replies) = Vec::with_capacity(alloc, steps.len()) else {
            return Err(StepsRefused { steps });
        };
        for step in steps {
            let reply = self.make(step);
            replies.push_reserved(reply);
        }
        // Reading a field gives the proof the core's invariant.
        let _ = &self.alloc;
        Ok(replies)
    }

    /// Makes one step, and returns the reply of [`submit`](Core::submit), [`run`](Core::run),
    /// [`advance`](Core::advance), [`close`](Core::close) or [`charge`](Core::charge).
    fn make(&mut self, step: Step<W>) -> Reply<W>
        ensures tries { Tries W.meaning self.old self.new step result }
        ensures counts { CountsOn (completion_in result) self.old self.new }
    {
        match step {
            Step::Submit(server, task) => submitted(self.submit(server, task)),
            Step::Run => Reply::Ran(self.run()),
            Step::Advance(n) => advanced(self.advance(n)),
            Step::Close(server) => closed(self.close(server)),
            Step::Charge(server, ticks) => charged(self.charge(server, ticks)),
        }
    }
}

fn submitted<W: Work>(answer: Result<u64, SubmitRefused<W>>) -> Reply<W>
    ensures { result ≡ submitted answer }
{
    match answer {
        Ok(number) => Reply::Accepted(number),
        Err(refused) => Reply::NotAccepted(refused),
    }
}

fn advanced<W: Work>(answer: Result<(), CoreError>) -> Reply<W>
    ensures { result ≡ advanced answer }
{
    match answer {
        Ok(()) => Reply::Advanced,
        Err(error) => Reply::Refused(error),
    }
}

fn closed<W: Work>(answer: Result<(), CoreError>) -> Reply<W>
    ensures { result ≡ closed answer }
{
    match answer {
        Ok(()) => Reply::Closed,
        Err(error) => Reply::Refused(error),
    }
}

fn charged<W: Work>(answer: Result<(), CoreError>) -> Reply<W>
    ensures { result ≡ charged answer }
{
    match answer {
        Ok(()) => Reply::Charged,
        Err(error) => Reply::Refused(error),
    }
}
