//! A plan: the reservations of all servers, within one bound.

ghost use Rattle.std.specs.Prelude.{◌≡◌, ◌↔◌, [], ◌∷◌, ◌++◌, length, slice_get, IsTrue, IfOk, OnOk, OnErr, MatchResult, Some, None, sum_by};
ghost use Rattle.cbs_rate.specs.Plan.{IsPlan, IsLeastCommonMultiple, IsGreatestBudget, common_multiple, admit_refusal, share, with_rate, takes};
ghost use Rattle.cbs_rate.specs.Sums.{AreSums};
ghost use Rattle.cbs_rate.specs.Refusals.{AnswersBy};

use crate::bandwidth::Bandwidth;
use crate::bound::Bound;
use crate::error::AdmitError;
use crate::multiple::least_common_multiple;
use crate::reservation::{MAX_PERIOD, Reservation};
use arrayvec::ArrayVec;
use std::marker::Model;

/// The most servers that a plan has.
pub const MAX_SERVERS: usize = 64;

/// The greatest least common multiple of all periods of a plan, in ticks.
pub const MAX_COMMON_MULTIPLE: u64 = 1_000_000_000_000_000_000;

/// The reservations of at most [`MAX_SERVERS`] servers, numbered from 0 in the order in which they were admitted. Their
/// total bandwidth, the sum of budget over period, is at most the plan's bound. The least common multiple of their
/// periods is at most [`MAX_COMMON_MULTIPLE`]. The reservations lie in the plan itself: no call takes memory.
#[derive(Debug, Drop)]
pub struct Plan {
    bound: Bound,
    rates: ArrayVec<Reservation, MAX_SERVERS>,
    // The least common multiple of all periods.
    common: u64,
    // The ticks that all servers together may run in `common` ticks.
    taken: u64,
}

/// The sums that are kept over all servers of a plan.
#[derive(Clone, Copy)]
struct Sums {
    // The least common multiple of all periods.
    common: u64,
    // The ticks that all servers together may run in `common` ticks.
    taken: u64,
}

impl Model for Plan {
    ghost use Rattle.cbs_rate.specs.Plan.{Planned};

    ghost Value = { Planned };

    ghost use Rattle.cbs_rate.specs.Sums.{planned, IsSummed};

    ghost view = { planned };

    ghost invariant = { IsSummed };
}

impl Plan {
    /// Returns a plan with no server, whose servers may together take `bound` of the processor.
    pub fn new(bound: Bound) -> Plan
        ensures { result ≡ record { bound = bound; rates = [] } }
    {
        Plan {
            bound,
            rates: ArrayVec::new(),
            common: 1,
            taken: 0,
        }
    }

    /// Returns the bound on the total bandwidth.
    pub fn bound(&self) -> Bound
        ensures { result ≡ self.now.bound }
    {
        self.bound
    }

    /// Returns the number of servers.
    pub fn len(&self) -> usize
        ensures value { result ≡ length self.now.rates }
        ensures lawful { IsPlan self.now }
    {
        self.rates.len()
    }

    /// Returns whether there is no server.
    pub fn is_empty(&self) -> bool
        ensures { IsTrue result ↔ (self.now.rates ≡ []) }
    {
        self.rates.is_empty()
    }

    /// Returns the reservation of the server with this number, or `None` if the plan has no such server.
    pub fn get(&self, server: u16) -> Option<Reservation>
        ensures value { result ≡ slice_get self.now.rates server }
        ensures lawful { IsPlan self.now }
    {
        self.rates.get(usize::from(server)).copied()
    }

    /// Adds one more server with this reservation, and returns its number.
    ///
    /// Refuses, in this order:
    /// - [`AdmitError::TooManyServers`] if the plan has [`MAX_SERVERS`] servers already;
    /// - [`AdmitError::PeriodsTooFine`] if the least common multiple of all periods, with the new one, would pass
    ///   [`MAX_COMMON_MULTIPLE`];
    /// - [`AdmitError::OverBound`] if the sum of budget over period, with the new server, would pass the bound.
    ///
    /// The sum is exact: nothing is rounded. A refusal leaves the plan unchanged.
    pub fn admit(&mut self, reservation: Reservation) -> Result<u16, AdmitError>
        ensures answer { AnswersBy result (admit_refusal self.old reservation)
            (length self.old.rates) }
        ensures ok { OnOk result (self.new ≡ record self.old {
          rates = self.old.rates
              ++ reservation ∷ [];
        }) }
        ensures err { OnErr result (self.new ≡ self.old) }
        ensures lawful { IsPlan self.new }

        // The common multiple of the second test, by its definition.
        ensures least { let rates = self.old.rates ++ reservation ∷ [] in
            IsLeastCommonMultiple (common_multiple rates) rates }
    {
        let sums = self.sums_with(reservation)?;
        let server = self.rates.len() as u16;
        self.rates.push(reservation);
        self.common = sums.common;
        self.taken = sums.taken;
        Ok(server)
    }

    /// Returns the total bandwidth, the sum of budget over period, exactly. It is the ticks that all servers together
    /// may run in as many ticks as the least common multiple of their periods.
    pub fn bandwidth(&self) -> Bandwidth
        ensures value { result ≡ record {
          ticks = sum_by (share (common_multiple self.now.rates)) self.now.rates;
          of = common_multiple self.now.rates;
        } }
        ensures multiple { IsLeastCommonMultiple result.of self.now.rates }
        ensures lawful { IsPlan self.now }
    {
        Bandwidth {
            ticks: self.taken,
            of: self.common,
        }
    }

    /// Returns the greatest budget with which a server of this period would be admitted, or 0 if none would be.
    pub fn greatest_budget(&self, period: u64) -> u64
        ensures { IsGreatestBudget self.now period result }
    {
        let mut admitted = 0;
        let mut refused = if period > MAX_PERIOD { 1 } else { period + 1 };
        while refused - admitted > 1 {
            let budget = admitted + (refused - admitted) / 2;
            if self.takes(budget, period) {
                admitted = budget;
            } else {
                refused = budget;
            }
        }
        admitted
    }

    /// Returns whether a server of this budget and period would be admitted.
    pub(crate) fn takes(&self, budget: u64, period: u64) -> bool
        ensures { result ≡ takes self.now budget period }
    {
        match Reservation::new(budget, period) {
            Ok(reservation) => self.sums_with(reservation).is_ok(),
            Err(_) => false,
        }
    }

    /// Returns the sums with one more server, or why the plan does not admit it.
    fn sums_with(&self, reservation: Reservation) -> Result<Sums, AdmitError>
        ensures answer { MatchResult result (λ _. admit_refusal self.now reservation ≡ None)
            (λ error. admit_refusal self.now reservation ≡ Some error) }
        ensures sums { IfOk result (λ sums. AreSums (with_rate self.now reservation) sums.common
            sums.taken) }
        ensures least { IsLeastCommonMultiple (common_multiple
            (with_rate self.now reservation).rates) (with_rate self.now reservation).rates }
    {
        let period = reservation.period();
        if self.rates.is_full() {
            return Err(AdmitError::TooManyServers);
        }
        let common = least_common_multiple(self.common, period);
        if common > u128::from(MAX_COMMON_MULTIPLE) {
            return Err(AdmitError::PeriodsTooFine);
        }
        let common = common as u64;
        let taken = self.taken * (common / self.common) + reservation.budget() * (common / period);
        if !self.bound.allows(taken, common) {
            return Err(AdmitError::OverBound);
        }
        Ok(Sums { common, taken })
    }
}
