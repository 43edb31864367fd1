//! All servers, without their jobs: the choice among them, and what the rules do to them.

ghost use Rattle.std.specs.Prelude.{◌≡◌, ◌≢◌, ℕ, ◌+◌, ◌-◌, ◌<◌, ◌≤◌, ◌^◌, false, true, Some, option_map, IfOk, OnOk, MatchOption, length, map, slice_get};
ghost use Rattle.cbs_rate.specs.Plan.{IsPlan};
ghost use Rattle.cbs_rules.specs.Rules.{IsState};
ghost use Rattle.cbs_lists.specs.Lists.{changed_at};
ghost use Rattle.cbs_steps.specs.Choice.{chosen_among, IsChoice};
ghost use Rattle.cbs_steps.specs.Faces.{new_face, face_at, is_active, ready_by, backlog_of, ranks, close_refusal, submit_refusal, view_reply, with_job, with_unit, with_charge, with_replenishment, with_close};
ghost use Rattle.cbs_steps.specs.Waiting.{NoneReady, span_of};
ghost use Rattle.cbs_steps.specs.Promises.{promised_by};
ghost use Rattle.cbs_steps.specs.Servers.{MayCharge};
ghost use Rattle.cbs_ready.specs.ReadyList.{listed, IsOrdered};
ghost use Rattle.cbs_core.specs.Held.{with_job_ended};
ghost use Rattle.cbs_core.specs.Past.{past_of, restored, with_job_back, MayHaveBeen};
ghost use Rattle.cbs_core.specs.Invariant.{ListsReady, IsUnfinished};
ghost use Rattle.cbs_core.specs.Waiting.{Keeps};
ghost use Rattle.cbs_steps.specs.Setups.{terms_of};
ghost use Rattle.cbs_rate.specs.Limits.{most_servers};

use crate::past::Past;
use crate::server::Server;
use crate::waits::Waits;
use cbs_rate::Plan;
use cbs_ready::ReadyList;
use cbs_rules::{LIMIT, MAX_DEADLINE, Modes};
use cbs_steps::{Charges, CoreError, ServerView};
use std::alloc::{AllocError, Allocator, Global};
use std::marker::Model;

/// The states of all servers, at most 64, without their jobs, and the list of the ready ones.
#[derive(Drop)]
pub struct Servers<A: Allocator = Global> {
    servers: Vec<Server, A>,
    ready: ReadyList<A>,
    waits: Waits,
}

impl<A: Allocator> Model for Servers<A> {
    ghost use Rattle.cbs_rate.specs.Limits.{most_servers};
    ghost use Rattle.std.specs.Prelude.{List, ◌≤◌, length};
    ghost use Rattle.cbs_steps.specs.Faces.{Face};
    ghost use Rattle.cbs_core.specs.Invariant.{ListsReady};
    ghost use Rattle.cbs_core.specs.Waiting.{Keeps};

    ghost Value = { List Face };

    ghost view = { λ s. s.servers.items };

    ghost invariant = { λ s. (length s.servers.items ≤ most_servers) × ListsReady s.ready s.servers.items × Keeps s.waits s.servers.items };
}

impl<A: Allocator + Clone> Servers<A> {
    /// Returns the servers of a plan, each with its mode, or the error if an allocation is refused.
    pub fn new(alloc: &A, plan: &Plan, modes: &Modes) -> Result<Self, AllocError>
        requires { length modes.now ≡ length plan.now.rates }
        ensures servers { IfOk result (λ s. s ≡ map new_face (terms_of modes.now plan.now.rates)) }
        ensures plan { OnOk result (IsPlan plan.now) }
    {
        let mut servers = Vec::with_capacity(alloc.clone()?, plan.len())?;
        for server in 0..plan.len() as u16 {
            let mode = modes.get(server).unwrap();
            let reservation = plan.get(server).unwrap();
            servers.push(Server::new(mode, reservation))?;
        }
        Ok(Servers {
            servers,
            ready: ReadyList::new(alloc.clone()?)?,
            waits: Waits::new(),
        })
    }
}

impl<A: Allocator> Servers<A> {
    /// Returns how many servers there are, at most 64.
    pub fn len(&self) -> u16
        ensures value { result ≡ length self.now }
        ensures few { result ≤ most_servers }
    {
        self.servers.len() as u16
    }

    /// Returns the ready server with the least deadline, of several the first, or `None` if no server is ready.
    pub fn choose(&self) -> Option<u16>
        ensures first { result ≡ chosen_among (ranks self.now) }
        ensures choice { IsChoice (ranks self.now) (length self.now) result }
    {
        self.ready.first()
    }

    /// Returns for how many ticks no server will be ready, up to the clock's end, or `None` if one is ready now.
    pub fn idle_span(&self, now: u64) -> Option<u64>
        requires { now ≤ LIMIT }
        ensures { MatchOption result (¬ NoneReady self.now) (λ span. NoneReady self.now
            × (span ≡ span_of now self.now)) }
    {
        if self.choose().is_some() {
            return None;
        }
        Some(self.waits.wakes.saturating_sub(now).max(1).min(LIMIT - now))
    }

    /// Returns why a submit to a server is refused, or `None` if it is not refused.
    pub fn submit_refusal(&self, backlog: u64, server: u16) -> Option<CoreError>
        ensures { result ≡ submit_refusal backlog self.now server }
    {
        match self.servers.get(usize::from(server)) {
            Some(server) => server.submit_refusal(backlog),
            None => Some(CoreError::NoSuchServer),
        }
    }

    /// Returns why a close of a server is refused, or `None` if it is not refused.
    pub fn close_refusal(&self, server: u16) -> Option<CoreError>
        ensures { result ≡ close_refusal self.now server }
    {
        match self.servers.get(usize::from(server)) {
            Some(server) => server.close_refusal(),
            None => Some(CoreError::NoSuchServer),
        }
    }

    /// Returns a server's view, or [`CoreError::NoSuchServer`].
    pub fn view(&self, server: u16) -> Result<ServerView, CoreError>
        ensures { result ≡ view_reply (slice_get self.now server) }
    {
        match self.servers.get(usize::from(server)) {
            Some(server) => Ok(server.view()),
            None => Err(CoreError::NoSuchServer),
        }
    }

    /// Returns the tick by which a server gets `units` units if no server is late, or `None` if `units` is 0.
    pub fn promised(&self, server: u16, units: u64) -> Option<u128>
        requires within { server < length self.now }
        requires early { (face_at self.now server).state.deadline < 2 ^ 127 }
        ensures { result ≡ promised_by (face_at self.now server).terms.reservation
            (face_at self.now server).state units }
    {
        self.servers[usize::from(server)].promised(units)
    }

    /// Returns how many jobs of a server are finished.
    pub fn finished(&self, server: u16) -> u64
        requires { server < length self.now }
        ensures { result ≡ (face_at self.now server).finished }
    {
        self.servers[usize::from(server)].finished()
    }

    /// Accepts a job for a server at tick `now`. Returns the job's number.
    #[tactic(auto, using(cbs_lists::proofs::Lists::written))]
    #[inline(always)]
    pub fn accept(&mut self, server: u16, now: u64) -> u64
        requires within { server < length self.old }
        requires clock { now ≤ LIMIT }
        requires few { (face_at self.old server).accepted + 1 < 2 ^ 64 }
        ensures servers { self.new ≡ changed_at (with_job now) self.old server }
        ensures number { result ≡ (face_at self.old server).accepted }
    {
        let it = &mut self.servers[usize::from(server)];
        // A job that comes after others changes no place in the list.
        if it.is_active() {
            return it.accept_behind();
        }
        self.accept_first(server, now)
    }

    /// Accepts a job at tick `now` for a server that has none. Returns the job's number.
    #[tactic(auto, using(cbs_lists::proofs::Lists::written))]
    fn accept_first(&mut self, server: u16, now: u64) -> u64
        requires within { server < length self.old }
        requires clock { now ≤ LIMIT }
        requires idle { is_active (face_at self.old server) ≡ false }
        requires few { (face_at self.old server).accepted + 1 < 2 ^ 64 }
        ensures servers { self.new ≡ changed_at (with_job now) self.old server }
        ensures number { result ≡ (face_at self.old server).accepted }
    {
        let it = &mut self.servers[usize::from(server)];
        let number = it.accepted();
        let ready_by = it.accept_first(now);
        self.ready.enter(server, ready_by);
        self.waits.note(it);
        number
    }

    /// Lets the chosen server use the tick that ends at `now` for a unit. `done` says whether the unit finished a job.
    /// Then replenishes every server that is due.
    // Always inlined, since each caller passes `done` as a constant.
    #[inline(always)]
    pub fn pass_tick(&mut self, server: u16, done: bool, now: u64)
        requires chosen { chosen_among (ranks self.old) ≡ Some server }
        requires some { 0 < (face_at self.old server).state.budget }
        requires room { (face_at self.old server).state.deadline ≤ MAX_DEADLINE }
        requires clock { now ≤ LIMIT }
        ensures { self.new ≡ map (with_replenishment now) (changed_at (with_unit done) self.old
            server) }
    {
        self.use_tick(server, done);
        self.replenish(now);
    }

    /// Lets the chosen server use one tick of its budget for a unit. `done` says whether the unit finished a job.
    #[inline]
    fn use_tick(&mut self, server: u16, done: bool)
        requires chosen { chosen_among (ranks self.old) ≡ Some server }
        requires some { 0 < (face_at self.old server).state.budget }
        requires room { (face_at self.old server).state.deadline ≤ MAX_DEADLINE }
        ensures { self.new ≡ changed_at (with_unit done) self.old server }
    {
        let it = &mut self.servers[usize::from(server)];
        // Most units change neither a place in the list nor a time of replenishment.
        if it.use_tick(done) {
            return;
        }
        let ready_by = it.ready_by();
        self.ready.follow_first(server, ready_by);
        if ready_by.is_none() {
            self.waits.note(it);
        }
    }

    /// Counts the first unfinished job of a server as finished, if its last unit is not to come.
    #[tactic(auto, using(cbs_lists::proofs::Lists::written))]
    #[inline(never)]
    pub fn end_job(&mut self, server: u16)
        requires within { server < length self.old }
        requires active { is_active (face_at self.old server) ≡ true }
        ensures { self.new ≡ changed_at with_job_ended self.old server }
    {
        let it = &mut self.servers[usize::from(server)];
        it.end_job();
        // A job behind it keeps the server at its place in the list.
        if it.is_active() {
            return;
        }
        self.ready.leave(server);
        self.waits = waits_of(&self.servers);
    }

    /// Returns what a server keeps, but for its unfinished jobs, or `None` if there is no such server.
    pub fn past(&self, server: u16) -> Option<Past>
        ensures { result ≡ option_map past_of (slice_get self.now server) }
    {
        self.servers.get(usize::from(server)).map(|it| it.past())
    }

    /// Returns whether there is such a server, with no unfinished job, and it may have been in a past state at tick `now`.
    pub fn may_have_been(&self, server: u16, past: &Past, now: u64) -> bool
        requires { now ≤ LIMIT }
        ensures within { result ≡ true → server < length self.now }
        ensures lawful { result ≡ true → IsState past.now.state.reservation past.now.state.state }
        ensures sound { result ≡ true → MayHaveBeen now past.now (face_at self.now server) }
        ensures whole { server < length self.now → MayHaveBeen now past.now (face_at self.now server)
            → result ≡ true }
    {
        if usize::from(server) >= self.servers.len() {
            return false;
        }
        self.servers[usize::from(server)].may_have_been(past, now)
    }

    /// Brings a server with no unfinished job to a past state of its reservation.
    #[tactic(auto, using(cbs_lists::proofs::Lists::written))]
    pub fn restore(&mut self, server: u16, past: &Past)
        requires within { server < length self.old }
        requires idle { is_active (face_at self.old server) ≡ false }
        requires reservation { past.now.state.reservation
            ≡ (face_at self.old server).terms.reservation }
        ensures { self.new ≡ changed_at (restored past.now) self.old server }
    {
        self.servers[usize::from(server)].restore(past);
        self.waits = waits_of(&self.servers);
    }

    /// Returns whether a server can be given one unfinished job more, which came before: it has had its first deadline, and
    /// has fewer unfinished jobs than `backlog`.
    pub fn may_give_back(&self, server: u16, backlog: u64) -> bool
        ensures within { result ≡ true → server < length self.now }
        ensures begun { result ≡ true → 0 < (face_at self.now server).state.deadline }
        ensures few { result ≡ true → backlog_of (face_at self.now server) < backlog }
        ensures whole { server < length self.now → 0 < (face_at self.now server).state.deadline
            → backlog_of (face_at self.now server) < backlog → result ≡ true }
    {
        if usize::from(server) >= self.servers.len() {
            return false;
        }
        let it = &self.servers[usize::from(server)];
        it.deadline() > 0 && it.backlog() < backlog
    }

    /// Returns whether there is such a server, and it has had a deadline.
    pub fn is_begun(&self, server: u16) -> bool
        ensures within { result ≡ true → server < length self.now }
        ensures sound { result ≡ true → 0 < (face_at self.now server).state.deadline }
        ensures whole { server < length self.now → 0 < (face_at self.now server).state.deadline
            → result ≡ true }
    {
        if usize::from(server) >= self.servers.len() {
            return false;
        }
        self.servers[usize::from(server)].deadline() > 0
    }

    /// Returns whether a server has an unfinished job, and fewer jobs are finished than ticks have passed.
    pub fn is_unfinished(&self, server: u16, now: u64) -> bool
        ensures sound { result ≡ true → IsUnfinished now (face_at self.now server) }
        ensures whole { IsUnfinished now (face_at self.now server) → result ≡ true }
    {
        if usize::from(server) >= self.servers.len() {
            return false;
        }
        let it = &self.servers[usize::from(server)];
        it.is_active() && it.finished() < now
    }

    /// Counts one unfinished job more of a server, which came before.
    #[tactic(auto, using(cbs_lists::proofs::Lists::written))]
    pub fn give_back(&mut self, server: u16)
        requires within { server < length self.old }
        requires few { (face_at self.old server).accepted + 1 < 2 ^ 64 }
        ensures { self.new ≡ changed_at with_job_back self.old server }
    {
        let it = &mut self.servers[usize::from(server)];
        let was = it.ready_by();
        it.give_back();
        self.ready.follow(server, was, it.ready_by());
        self.waits = waits_of(&self.servers);
    }

    /// Replenishes every server that is due at tick `now`.
    #[inline]
    pub fn replenish(&mut self, now: u64)
        requires { now ≤ LIMIT }
        ensures { self.new ≡ map (with_replenishment now) self.old }
    {
        if now >= self.waits.due {
            self.waits = replenish_all(&mut self.servers, &mut self.ready, now);
        }
    }

    /// Charges a server `ticks` ticks for its last unit. With them, `for_unit` ticks were charged for that unit. Then
    /// replenishes every server that is due at tick `now`.
    #[inline(never)]
    pub fn charge(&mut self, server: u16, ticks: u64, for_unit: u64, now: u64)
        requires within { server < length self.old }
        requires may { MayCharge ticks (face_at self.old server) }
        requires clock { now ≤ LIMIT }
        ensures { self.new ≡ map (with_replenishment now) (changed_at (with_charge ticks for_unit)
            self.old server) }
    {
        if self.servers[usize::from(server)].is_throttled() {
            self.charge_throttled(server, ticks, for_unit, now);
        } else {
            self.charge_free(server, ticks, for_unit);
            self.replenish(now);
        }
    }

    /// Charges a server that is throttled, which stays so, and then replenishes every server that is due at tick `now`.
    /// The charge may move the server's deadline, so the ticks in `waits` are computed anew.
    #[tactic(auto, using(cbs_lists::proofs::Lists::written))]
    fn charge_throttled(&mut self, server: u16, ticks: u64, for_unit: u64, now: u64)
        requires within { server < length self.old }
        requires may { MayCharge ticks (face_at self.old server) }
        requires throttled { (face_at self.old server).state.throttled ≡ true }
        requires clock { now ≤ LIMIT }
        ensures { self.new ≡ map (with_replenishment now) (changed_at (with_charge ticks for_unit)
            self.old server) }
    {
        self.servers[usize::from(server)].charge(ticks, for_unit);
        self.waits = replenish_all(&mut self.servers, &mut self.ready, now);
    }

    /// Charges a server that is not throttled. The server may then be throttled, or be ready with another deadline.
    #[tactic(auto, using(cbs_lists::proofs::Lists::written))]
    fn charge_free(&mut self, server: u16, ticks: u64, for_unit: u64)
        requires within { server < length self.old }
        requires may { MayCharge ticks (face_at self.old server) }
        requires free { (face_at self.old server).state.throttled ≡ false }
        ensures { self.new ≡ changed_at (with_charge ticks for_unit) self.old server }
    {
        let it = &mut self.servers[usize::from(server)];
        let before = it.ready_by();
        it.charge(ticks, for_unit);
        self.ready.follow(server, before, it.ready_by());
        self.waits.note(it);
    }

    /// Returns what a server was charged, or `None` if there is no such server.
    pub fn charges(&self, server: u16) -> Option<Charges>
        ensures { result ≡ option_map (λ f. f.charges) (slice_get self.now server) }
    {
        self.servers.get(usize::from(server)).map(|it| it.charges())
    }

    /// Closes a server: it accepts no further job.
    #[tactic(auto, using(cbs_lists::proofs::Lists::written))]
    pub fn close(&mut self, server: u16)
        requires { server < length self.old }
        ensures { self.new ≡ changed_at with_close self.old server }
    {
        self.servers[usize::from(server)].close();
    }
}

/// Returns the first ticks for which the throttled ones of these servers wait.
fn waits_of(servers: &[Server]) -> Waits
    ensures { Keeps result servers.now }
{
    let mut waits = Waits::new();
    for it in servers {
        waits.note(it);
    }
    waits
}

/// Replenishes every server that is due at tick `now`, and lists those that are then ready. Returns the first ticks for
/// which the remaining throttled servers wait.
#[inline(never)]
fn replenish_all<A: Allocator>(servers: &mut [Server], ready: &mut ReadyList<A>, now: u64) -> Waits
    requires clock { now ≤ LIMIT }
    requires few { length servers.old ≤ most_servers }
    requires listed { ListsReady ready.old servers.old }
    ensures servers { servers.new ≡ map (with_replenishment now) servers.old }
    ensures listed { ListsReady ready.new servers.new }
    ensures waits { Keeps result servers.new }
{
    let mut waits = Waits::new();
    for index in 0..servers.len() {
        let it = &mut servers[index];
        replenish_one(it, index as u16, ready, now);
        waits.note(it);
    }
    waits
}

/// Replenishes one server if it is due at tick `now`, and lists it if it is then ready.
fn replenish_one<A: Allocator>(it: &mut Server, number: u16, ready: &mut ReadyList<A>, now: u64)
    requires clock { now ≤ LIMIT }
    requires known { number < most_servers }
    requires ordered { IsOrdered ready.old }
    requires listed { listed ready.old number ≡ ready_by it.old }
    ensures face { it.new ≡ with_replenishment now it.old }
    ensures ordered { IsOrdered ready.new }
    ensures here { listed ready.new number ≡ ready_by it.new }
    ensures others { (t : ℕ) → t ≢ number → listed ready.new t ≡ listed ready.old t }
{
    if it.is_throttled() {
        it.replenish(now);
        ready.enter(number, it.ready_by());
    }
}
