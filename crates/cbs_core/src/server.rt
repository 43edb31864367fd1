//! The state of one server, without its jobs.

ghost use Rattle.std.specs.Prelude.{◌≡◌, ℕ, ◌+◌, ◌*◌, ◌<◌, ◌≤◌, ◌^◌, false, true, Some};
ghost use Rattle.cbs_steps.specs.Faces.{new_face, is_active, is_ready, ready_by, backlog_of, refuses_close, refuses_submit, view_of, with_job, with_unit, with_charge, with_replenishment, with_close};
ghost use Rattle.cbs_rules.specs.Rules.{IsState};
ghost use Rattle.cbs_steps.specs.Promises.{promised_by};
ghost use Rattle.cbs_core.specs.Held.{with_job_ended};
ghost use Rattle.cbs_core.specs.Past.{past_of, restored, with_job_back, MayHaveBeen};

use crate::past::Past;
use cbs_rate::Reservation;
use cbs_rules::{LIMIT, MAX_DEADLINE, Mode, ServerState};
use cbs_steps::{Charges, CoreError, ServerView};
use std::marker::Model;

/// The state of one server, without its jobs.
#[derive(Drop)]
pub struct Server {
    mode: Mode,
    state: ServerState,
    closed: bool,
    accepted: u64,
    finished: u64,
    charged: u64,
    most_charged: u64,
}

impl Model for Server {
    ghost use Rattle.std.specs.Prelude.{◌≤◌};
    ghost use Rattle.cbs_steps.specs.Faces.{Face};

    ghost Value = { Face };

    ghost view = { λ s. record { terms = record { mode = s.mode; reservation = s.state.reservation }; state = s.state.state; charges = record { total = s.charged; most = s.most_charged }; closed = s.closed; accepted = s.accepted; finished = s.finished } };

    ghost invariant = { λ s. s.finished ≤ s.accepted };
}

impl Server {
    /// Returns a server at its start: it has accepted no job and was charged nothing.
    pub fn new(mode: Mode, reservation: Reservation) -> Server
        ensures { result ≡ new_face (record { mode = mode; reservation = reservation }) }
    {
        Server {
            mode,
            state: ServerState::fresh(reservation),
            closed: false,
            accepted: 0,
            finished: 0,
            charged: 0,
            most_charged: 0,
        }
    }

    /// Returns how many of the server's jobs are finished.
    pub fn finished(&self) -> u64
        ensures { result ≡ self.now.finished }
    {
        self.finished
    }

    /// Returns how many jobs the server has accepted.
    pub fn accepted(&self) -> u64
        ensures { result ≡ self.now.accepted }
    {
        self.accepted
    }

    /// Returns the server's deadline: the tick by which it may use its budget.
    pub fn deadline(&self) -> u128
        ensures { result ≡ self.now.state.deadline }
    {
        self.state.deadline()
    }

    /// Returns whether the server is active: it has accepted a job that is not finished.
    pub fn is_active(&self) -> bool
        ensures { result ≡ is_active self.now }
    {
        self.finished < self.accepted
    }

    /// Returns whether the server is ready: active and not throttled.
    pub fn is_ready(&self) -> bool
        ensures { result ≡ is_ready self.now }
    {
        self.is_active() && !self.state.throttled()
    }

    /// Returns whether the server is throttled: it waits for its replenishment.
    pub fn is_throttled(&self) -> bool
        ensures { result ≡ self.now.state.throttled }
    {
        self.state.throttled()
    }

    /// Returns the deadline by which the server runs if it is ready, and `None` if it is not ready.
    pub fn ready_by(&self) -> Option<u128>
        ensures { result ≡ ready_by self.now }
    {
        self.is_ready().then_some(self.deadline())
    }

    /// Returns the server's backlog: how many accepted jobs are not finished.
    pub fn backlog(&self) -> u64
        ensures { result ≡ backlog_of self.now }
    {
        self.accepted - self.finished
    }

    /// Returns the tick by which the server gets `units` units if no server is late, or `None` if `units` is 0.
    pub fn promised(&self, units: u64) -> Option<u128>
        requires { self.now.state.deadline < 2 ^ 127 }
        ensures { result ≡ promised_by self.now.terms.reservation self.now.state units }
    {
        if units == 0 {
            return None;
        }
        let reservation = self.state.reservation();
        let owed = u128::from(units) + u128::from(self.state.overrun());
        let beyond = owed.saturating_sub(u128::from(self.state.budget()));
        // Most jobs need no more than the budget, and a division takes long.
        if beyond == 0 {
            return Some(self.deadline());
        }
        let budgets = beyond.div_ceil(u128::from(reservation.budget()));
        Some(self.deadline() + budgets * u128::from(reservation.period()))
    }

    /// Returns why a close is refused, or `None` if it is not refused.
    pub fn close_refusal(&self) -> Option<CoreError>
        ensures { result ≡ refuses_close (Some self.now) }
    {
        if self.closed {
            return Some(CoreError::Closed);
        }
        None
    }

    /// Returns why a submit is refused if the backlog may be at most `backlog` jobs, or `None` if it is not refused.
    pub fn submit_refusal(&self, backlog: u64) -> Option<CoreError>
        ensures { result ≡ refuses_submit backlog (Some self.now) }
    {
        if let Some(error) = self.close_refusal() {
            return Some(error);
        }
        if self.backlog() >= backlog {
            return Some(CoreError::BacklogFull);
        }
        None
    }

    /// Returns the server's view: budget, deadline, flags and counts.
    pub fn view(&self) -> ServerView
        ensures { result ≡ view_of self.now }
    {
        ServerView {
            budget: self.state.budget(),
            deadline: self.state.deadline(),
            throttled: self.state.throttled(),
            closed: self.closed,
            accepted: self.accepted,
            finished: self.finished,
        }
    }

    /// Accepts a job while the server has unfinished ones. Returns the job's number.
    pub fn accept_behind(&mut self) -> u64
        requires active { is_active self.old ≡ true }
        requires few { self.old.accepted + 1 < 2 ^ 64 }
        ensures face { (now : ℕ) → self.new ≡ with_job now self.old }
        ensures number { result ≡ self.old.accepted }
    {
        let number = self.accepted;
        self.accepted += 1;
        number
    }

    /// Accepts a job at tick `now` while the server has none. Returns the deadline by which the server then runs, or
    /// `None` if it is not ready.
    pub fn accept_first(&mut self, now: u64) -> Option<u128>
        requires clock { now ≤ LIMIT }
        requires idle { is_active self.old ≡ false }
        requires few { self.old.accepted + 1 < 2 ^ 64 }
        ensures face { self.new ≡ with_job now self.old }
        ensures ready { result ≡ ready_by self.new }
    {
        self.accepted += 1;
        if self.state.throttled() {
            return None;
        }
        self.state.arrive_idle(self.mode, now);
        Some(self.deadline())
    }

    /// Uses one tick of the budget for a unit. `done` says whether the unit finished a job. Returns true only if the
    /// server stays ready with the same deadline.
    pub fn use_tick(&mut self, done: bool) -> bool
        requires ready { is_ready self.old ≡ true }
        requires some { 0 < self.old.state.budget }
        requires room { self.old.state.deadline ≤ MAX_DEADLINE }
        ensures face { self.new ≡ with_unit done self.old }
        ensures stays { result ≡ true → (is_ready self.new ≡ true)
            × (self.new.state.deadline ≡ self.old.state.deadline) }
    {
        // The budget is not 0 here, so a tick is left unless it is 1.
        let more = self.state.budget() != 1;
        self.state.consume(self.mode);
        // Most units do not finish a job.
        if !done {
            return more;
        }
        self.finished += 1;
        more && self.is_active()
    }

    /// Counts the first unfinished job as finished, if its last unit is not to come.
    pub fn end_job(&mut self)
        requires { is_active self.old ≡ true }
        ensures { self.new ≡ with_job_ended self.old }
    {
        self.finished += 1;
    }

    /// Charges the server `ticks` ticks for its last unit. With them, `for_unit` ticks were charged for that unit.
    pub fn charge(&mut self, ticks: u64, for_unit: u64)
        requires some { 0 < ticks }
        requires few { ticks ≤ LIMIT }
        requires free { self.old.terms.mode ≡ Mode.Soft → self.old.state.throttled ≡ false }
        requires begun { 0 < self.old.state.deadline }
        requires room { self.old.state.deadline + ticks * self.old.terms.reservation.period ≤
            MAX_DEADLINE + 1000000000 }
        requires counted { self.old.charges.total + ticks < 2 ^ 64 }
        ensures face { self.new ≡ with_charge ticks for_unit self.old }
        ensures waits { self.old.state.throttled ≡ true → self.new.state.throttled ≡ true }
    {
        self.state.charge(self.mode, ticks);
        self.charged += ticks;
        self.most_charged = self.most_charged.max(for_unit);
    }

    /// Returns how many ticks the server was charged, in total and at most for one unit.
    pub fn charges(&self) -> Charges
        ensures { result ≡ self.now.charges }
    {
        Charges {
            total: self.charged,
            most: self.most_charged,
        }
    }

    /// Replenishes the server at tick `now`, if that is due.
    pub fn replenish(&mut self, now: u64)
        requires { now ≤ LIMIT }
        ensures { self.new ≡ with_replenishment now self.old }
    {
        self.state.replenish(now);
    }

    /// Closes the server: it accepts no further job.
    pub fn close(&mut self)
        ensures { self.new ≡ with_close self.old }
    {
        self.closed = true;
    }

    /// Returns what the server keeps, but for its unfinished jobs.
    pub fn past(&self) -> Past
        ensures { result ≡ past_of self.now }
    {
        Past {
            state: self.state,
            charges: self.charges(),
            closed: self.closed,
            finished: self.finished(),
        }
    }

    /// Returns whether the server has no unfinished job, and may have been in a past state at tick `now`.
    pub fn may_have_been(&self, past: &Past, now: u64) -> bool
        requires { now ≤ LIMIT }
        ensures lawful { result ≡ true → IsState past.now.state.reservation past.now.state.state }
        ensures sound { result ≡ true → MayHaveBeen now past.now self.now }
        ensures whole { MayHaveBeen now past.now self.now → result ≡ true }
    {
        let latest = u128::from(now) + (u128::from(now) + 1) * 1_000_000_000;
        !self.is_active()
            && past.state.is_of(self.state.reservation())
            && (self.mode == Mode::Throttled || !past.state.throttled())
            && past.state.deadline() <= latest
            && past.finished <= now
            && past.charges.total <= now
    }

    /// Brings the server to a past state: each job that it accepted is finished.
    pub fn restore(&mut self, past: &Past)
        requires { past.now.state.reservation ≡ self.old.terms.reservation }
        ensures { self.new ≡ restored past.now self.old }
    {
        self.state = past.state;
        self.charged = past.charges.total;
        self.most_charged = past.charges.most;
        self.closed = past.closed;
        self.accepted = past.finished;
        self.finished = past.finished;
    }

    /// Counts one unfinished job more, which came before.
    pub fn give_back(&mut self)
        requires { self.old.accepted + 1 < 2 ^ 64 }
        ensures { self.new ≡ with_job_back self.old }
    {
        self.accepted += 1;
    }
}
