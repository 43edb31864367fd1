//! A reservation, and which numbers make one.

ghost use Rattle.std.specs.Prelude.{◌≡◌, ◌*◌, ◌≤◌, ◌↔◌, IsTrue};
ghost use Rattle.cbs_rate.specs.Rate.{IsRate, rate_refusal};
ghost use Rattle.cbs_rate.specs.Refusals.{AnswersBy};

use crate::error::RateError;
use std::marker::Model;

/// The longest period of a reservation, in ticks.
pub const MAX_PERIOD: u64 = 1_000_000_000;

/// A budget of Q ticks in every period of T ticks, with `1 <= Q <= T <= MAX_PERIOD`.
///
/// It is the pair (Q, T) that a Constant Bandwidth Server is given (Abeni and Buttazzo, RTSS 1998): its holder may run for Q
/// ticks in every T.
#[derive(Clone, Copy, Debug, PartialEq, Eq)]
pub struct Reservation {
    // 32 bits hold a period, so a plan of 64 servers takes half a kilobyte.
    budget: u32,
    period: u32,
}

impl Model for Reservation {
    ghost use Rattle.cbs_rate.specs.Rate.{Rate, IsRate};

    ghost Value = { Rate };

    ghost view = { λ r. record { budget = r.budget; period = r.period } };

    ghost invariant = { λ r. IsRate r.budget r.period };

    ghost inverse = { λ v. record { budget = v.budget; period = v.period } };
}

impl Reservation {
    /// Returns a reservation of `budget` ticks in every `period` ticks.
    ///
    /// Refuses, in this order: [`RateError::ZeroBudget`] if the budget is 0; [`RateError::PeriodTooLong`] if the period
    /// is over [`MAX_PERIOD`]; [`RateError::BudgetOverPeriod`] if the budget is over the period.
    pub fn new(budget: u64, period: u64) -> Result<Reservation, RateError>
        ensures { AnswersBy result (rate_refusal budget period) (record {
          budget = budget;
          period = period;
        }) }
    {
        if budget == 0 {
            return Err(RateError::ZeroBudget);
        }
        if period > MAX_PERIOD {
            return Err(RateError::PeriodTooLong);
        }
        if budget > period {
            return Err(RateError::BudgetOverPeriod);
        }
        Ok(Reservation {
            budget: budget as u32,
            period: period as u32,
        })
    }

    /// Returns the budget, in ticks.
    pub fn budget(&self) -> u64
        ensures value { result ≡ self.now.budget }
        ensures lawful { IsRate self.now.budget self.now.period }
    {
        u64::from(self.budget)
    }

    /// Returns the period, in ticks.
    pub fn period(&self) -> u64
        ensures value { result ≡ self.now.period }
        ensures lawful { IsRate self.now.budget self.now.period }
    {
        u64::from(self.period)
    }

    /// Returns whether this bandwidth, the budget over the period, is at most that of `other`, exactly. This budget
    /// times the other's period is compared with the other's budget times this period.
    pub fn at_most(&self, other: &Reservation) -> bool
        ensures { IsTrue result ↔ (self.now.budget * other.now.period ≤ other.now.budget *
            self.now.period) }
    {
        u128::from(self.budget) * u128::from(other.period)
            <= u128::from(other.budget) * u128::from(self.period)
    }
}

impl Default for Reservation {
    ghost is_default = { λ r. r ≡ record { budget = 1; period = 1 } };

    /// Returns 1 tick in every tick, the whole processor.
    ///
    /// It fills the unused places of a list of fixed capacity, which needs some reservation in each place.
    fn default() -> Reservation {
        Reservation {
            budget: 1,
            period: 1,
        }
    }
}
