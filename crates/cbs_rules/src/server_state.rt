//! Budget and deadline of one server, and the rules that change them.

ghost use Rattle.std.specs.Prelude.{◌≡◌, ◌+◌, ◌*◌, ◌≤◌, ◌<◌, ℕ, true, false, IfSome, IsSome};
ghost use Rattle.cbs_rate.specs.Rate.{IsRate};
ghost use Rattle.cbs_rules.specs.Rules.{clock_end, latest_deadline, fresh_state, after_arrival, after_unit, after_charge, after_charges, after_replenishment, is_renewed, after_ticks, IsState, IsPaid, CanStand};

use crate::mode::Mode;
use cbs_rate::Reservation;
use std::marker::Model;

/// The clock's end, in ticks.
pub const LIMIT: u64 = 1_000_000_000_000;

/// The latest deadline to which a period may still be added, in ticks. No unit and no replenishment of an executor
/// starts from a later deadline.
pub const MAX_DEADLINE: u128 = 1_000_000_001_000_000_000_000;

/// The budget, the deadline, the flag 'throttled' and the overrun of one server, with its reservation.
#[derive(Clone, Copy, Debug, PartialEq, Eq)]
pub struct ServerState {
    reservation: Reservation,
    budget: u64,
    deadline: u128,
    throttled: bool,
    overrun: u64,
}

impl Model for ServerState {
    ghost use Rattle.std.specs.Prelude.{◌+◌, ◌≤◌};
    ghost use Rattle.cbs_rules.specs.Rules.{Reserved, IsState, latest_deadline};

    ghost Value = { Reserved };

    ghost view = { λ s. record { reservation = s.reservation; state = record { budget = s.budget; deadline = s.deadline; throttled = s.throttled; overrun = s.overrun } } };

    ghost invariant = { λ s. IsState s.reservation (record { budget = s.budget; deadline = s.deadline; throttled = s.throttled; overrun = s.overrun }) × (s.deadline ≤ latest_deadline + 1000000000) };

    ghost inverse = { λ v. record { reservation = v.reservation; budget = v.state.budget; deadline = v.state.deadline; throttled = v.state.throttled; overrun = v.state.overrun } };
}

impl ServerState {
    /// Returns a server at its start: no budget, deadline 0, not throttled, no overrun.
    pub fn fresh(reservation: Reservation) -> ServerState
        ensures { result ≡ record { reservation = reservation; state = fresh_state } }
    {
        ServerState {
            reservation,
            budget: 0,
            deadline: 0,
            throttled: false,
            overrun: 0,
        }
    }

    /// Returns a server in the midst of a run, with this budget, deadline, mark and overrun. Returns `None` if no server with
    /// the reservation ever has these, or if the deadline is later than [`MAX_DEADLINE`] plus the longest period.
    pub fn at(
        reservation: Reservation,
        budget: u64,
        deadline: u128,
        throttled: bool,
        overrun: u64,
    ) -> Option<ServerState>
        ensures at { IfSome result (λ s. s ≡ record {
          reservation = reservation;
          state = record { budget = budget; deadline = deadline; throttled = throttled; overrun = overrun };
        }) }
        ensures taken { CanStand reservation
            (record { budget = budget; deadline = deadline; throttled = throttled; overrun = overrun })
            → IsSome result }
    {
        if !can_stand(reservation, budget, deadline, throttled, overrun) {
            return None;
        }
        Some(ServerState {
            reservation,
            budget,
            deadline,
            throttled,
            overrun,
        })
    }

    /// Applies the arrival of a job at the idle server, at tick `now`, at most [`LIMIT`]. The server must not be
    /// throttled.
    ///
    /// Let c be the budget and d the deadline. The server is renewed if `d <= now`, or if `c * T >= (d - now) * Q`
    /// (soft; Abeni and Buttazzo, RTSS 1998) or `c * T > (d - now) * Q` (throttled). A renewed server has the budget Q and the deadline `now + T`.
    /// Otherwise both stay.
    pub fn arrive_idle(&mut self, mode: Mode, now: u64)
        requires free { self.old.state.throttled ≡ false }
        requires clock { now ≤ clock_end }
        ensures { self.new ≡ record {
          reservation = self.old.reservation;
          state = after_arrival mode self.old.reservation now self.old.state;
        } }
    {
        if self.is_renewed(mode, now) {
            self.budget = self.reservation.budget();
            self.deadline = u128::from(now + self.reservation.period());
        }
    }

    /// Returns whether an arrival renews the server. Products are compared instead of quotients, so that nothing is
    /// rounded.
    fn is_renewed(&self, mode: Mode, now: u64) -> bool
        ensures { result ≡ is_renewed mode self.now.reservation now self.now.state }
    {
        let now = u128::from(now);
        if self.deadline <= now {
            return true;
        }
        let held = u128::from(self.budget) * u128::from(self.reservation.period());
        let earned = (self.deadline - now) * u128::from(self.reservation.budget());
        match mode {
            Mode::Soft => held >= earned,
            Mode::Throttled => held > earned,
        }
    }

    /// Uses one tick of the budget. After its last tick a soft server gets a whole budget at once and its deadline is
    /// postponed by one period; a throttled-mode server becomes throttled.
    ///
    /// A tick must be left, and the server must not be throttled. If it is the last tick of a soft server, the deadline
    /// must be at most [`MAX_DEADLINE`], since a period is added.
    pub fn consume(&mut self, mode: Mode)
        requires some { 0 < self.old.state.budget }
        requires free { self.old.state.throttled ≡ false }
        requires room { mode ≡ Mode.Soft → self.old.state.budget ≡ 1
            → self.old.state.deadline ≤ latest_deadline }
        ensures { self.new ≡ record {
          reservation = self.old.reservation;
          state = after_unit mode self.old.reservation self.old.state;
        } }
    {
        self.budget -= 1;
        if self.budget > 0 {
            return;
        }
        match mode {
            Mode::Soft => {
                self.budget = self.reservation.budget();
                self.deadline += u128::from(self.reservation.period());
            }
            Mode::Throttled => self.throttled = true,
        }
    }

    /// Charges the server the ticks that one of its units took after the first tick. They are taken from the budget,
    /// and if it does not suffice, from the budgets to come. A soft server gets these budgets at once, and its deadline
    /// moves one period later for each. A server of throttled mode waits. The missing ticks are its overrun, which the
    /// next replenishment takes from the new budget.
    ///
    /// `ticks` is 1 to [`LIMIT`]. The server must have had its first job, and in soft mode it must not be throttled.
    /// Its deadline plus `ticks` periods must be at most [`MAX_DEADLINE`] plus the longest period.
    pub fn charge(&mut self, mode: Mode, ticks: u64)
        requires ticks { (0 < ticks) × (ticks ≤ clock_end) }
        requires free { mode ≡ Mode.Soft → self.old.state.throttled ≡ false }
        requires begun { 0 < self.old.state.deadline }
        requires room { self.old.state.deadline + ticks * self.old.reservation.period ≤
            latest_deadline + 1000000000 }
        ensures rule { self.new ≡ record {
          reservation = self.old.reservation;
          state = after_charge mode self.old.reservation ticks self.old.state;
        } }
        ensures ticks { self.new.state ≡ after_charges mode self.old.reservation ticks
            self.old.state }
        ensures paid { IsPaid self.old.reservation ticks self.old.state self.new.state }
        ensures early { self.new.state.deadline ≤ self.old.state.deadline + ticks *
            self.old.reservation.period }
        ensures waits { self.old.state.throttled ≡ true → self.new.state.throttled ≡ true }
    {
        self.pay(mode, ticks);
    }

    /// Takes `ticks` ticks from the budget and from the budgets to come.
    fn pay(&mut self, mode: Mode, ticks: u64)
        requires ticks { (0 < ticks) × (ticks ≤ clock_end) }
        requires free { mode ≡ Mode.Soft → self.old.state.throttled ≡ false }
        requires begun { 0 < self.old.state.deadline }
        requires room { self.old.state.deadline + ticks * self.old.reservation.period ≤
            latest_deadline + 1000000000 }
        ensures lawful { IsState self.old.reservation self.old.state }
        ensures rate { IsRate self.old.reservation.budget self.old.reservation.period }
        ensures rule { self.new ≡ record {
          reservation = self.old.reservation;
          state = after_charge mode self.old.reservation ticks self.old.state;
        } }
    {
        if ticks < self.budget {
            self.budget -= ticks;
            return;
        }
        let beyond = self.overrun + ticks - self.budget;
        let budgets = beyond / self.reservation.budget();
        let rest = beyond % self.reservation.budget();
        let period = u128::from(self.reservation.period());
        match mode {
            Mode::Soft => {
                self.budget = self.reservation.budget() - rest;
                self.deadline += u128::from(budgets + 1) * period;
            }
            Mode::Throttled => {
                self.budget = 0;
                self.deadline += u128::from(budgets) * period;
                self.throttled = true;
                self.overrun = rest;
            }
        }
    }

    /// Replenishes the server at tick `now`, if it is throttled and its deadline has come. The server gets Q ticks
    /// more, less its overrun, its deadline is postponed by one period, and it may run again. It is replenished once,
    /// even if the new deadline is still in the past. So a jump of the clock by n ticks has the same effect as n single
    /// ticks.
    ///
    /// The deadline that is postponed must be at most [`MAX_DEADLINE`].
    pub fn replenish(&mut self, now: u64)
        requires { self.old.state.throttled ≡ true → self.old.state.deadline ≤ now
            → self.old.state.deadline ≤ latest_deadline }
        ensures rule { self.new ≡ record {
          reservation = self.old.reservation;
          state = after_replenishment self.old.reservation now self.old.state;
        } }
        ensures ticks { (start n : ℕ) → 0 < n → now ≡ start + n
            → self.new.state ≡ after_ticks self.old.reservation start n self.old.state }
    {
        self.refill(now);
    }

    /// Adds one budget and one period, if the deadline of a throttled server has come.
    fn refill(&mut self, now: u64)
        requires { self.old.state.throttled ≡ true → self.old.state.deadline ≤ now
            → self.old.state.deadline ≤ latest_deadline }
        ensures { self.new ≡ record {
          reservation = self.old.reservation;
          state = after_replenishment self.old.reservation now self.old.state;
        } }
    {
        if self.throttled && self.deadline <= u128::from(now) {
            self.budget += self.reservation.budget() - self.overrun;
            self.deadline += u128::from(self.reservation.period());
            self.throttled = false;
            self.overrun = 0;
        }
    }

    /// Returns the reservation that the server was given.
    pub fn reservation(&self) -> Reservation
        ensures { result ≡ self.now.reservation }
    {
        self.reservation
    }

    /// Returns whether the server was given this reservation.
    pub fn is_of(&self, reservation: Reservation) -> bool
        ensures sound { result ≡ true → self.now.reservation ≡ reservation }
        ensures whole { self.now.reservation ≡ reservation → result ≡ true }
        ensures kept { IsState self.now.reservation self.now.state }
    {
        self.reservation == reservation
    }

    /// Returns the ticks that the server may still use: at most Q, and 0 while it is throttled.
    pub fn budget(&self) -> u64
        ensures value { result ≡ self.now.state.budget }
        ensures kept { IsState self.now.reservation self.now.state }
    {
        self.budget
    }

    /// Returns the tick by which the server may use its budget, 0 before its first job.
    pub fn deadline(&self) -> u128
        ensures { result ≡ self.now.state.deadline }
    {
        self.deadline
    }

    /// Returns whether the server waits for its replenishment.
    pub fn throttled(&self) -> bool
        ensures { result ≡ self.now.state.throttled }
    {
        self.throttled
    }

    /// Returns the ticks that were charged to the server beyond its budget, which its next replenishment takes. They
    /// are fewer than Q, and 0 unless the server is throttled.
    pub fn overrun(&self) -> u64
        ensures { result ≡ self.now.state.overrun }
    {
        self.overrun
    }
}

/// Returns whether a server with this reservation may have this budget, deadline, mark and overrun.
fn can_stand(
    reservation: Reservation,
    budget: u64,
    deadline: u128,
    throttled: bool,
    overrun: u64,
) -> bool
    ensures sound { result ≡ true → CanStand reservation
        (record { budget = budget; deadline = deadline; throttled = throttled; overrun = overrun }) }
    ensures whole { CanStand reservation
        (record { budget = budget; deadline = deadline; throttled = throttled; overrun = overrun })
        → result ≡ true }
{
    let greatest = reservation.budget();
    if deadline == 0 {
        return budget == 0 && !throttled && overrun == 0;
    }
    if deadline > MAX_DEADLINE + 1_000_000_000 {
        return false;
    }
    if throttled {
        return budget == 0 && overrun < greatest;
    }
    budget > 0 && budget <= greatest && overrun == 0
}
