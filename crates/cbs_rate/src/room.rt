//! What one server more would take: the bandwidth of all servers then, and the least period at which a budget fits.

ghost use Rattle.std.specs.Prelude.{◌≡◌, ◌*◌, ◌≤◌, ℕ, [], ◌∷◌, ◌++◌, MatchOption};
ghost use Rattle.cbs_rate.specs.Plan.{IsPlan, common_multiple, with_rate};
ghost use Rattle.cbs_rate.specs.Room.{IsBandwidth, IsLeastPeriod, TellsExcess};

use crate::multiple::least_common_multiple;
use crate::plan::Plan;
use crate::ratio::Ratio;
use crate::reservation::{MAX_PERIOD, Reservation};

impl Plan {
    /// Returns the total bandwidth of all servers as a fraction.
    pub fn total(&self) -> Ratio
        ensures exact { IsBandwidth self.now.rates result.part result.whole }
        ensures multiple { result.whole ≡ common_multiple self.now.rates }
        ensures at_most_one { result.part ≤ result.whole }
        ensures lawful { IsPlan self.now }
    {
        let taken = self.bandwidth();
        Ratio {
            part: u128::from(taken.ticks),
            whole: u128::from(taken.of),
        }
    }

    /// Returns the total bandwidth that all servers and one more with this reservation would have, whether or not the
    /// plan admits it.
    pub fn total_with(&self, reservation: Reservation) -> Ratio
        ensures exact { IsBandwidth (with_rate self.now reservation).rates result.part
            result.whole }
        ensures whole { result.whole ≡ common_multiple self.now.rates * reservation.period }
        ensures at_most_two { result.part ≤ 2 * result.whole }
        ensures lawful { IsPlan self.now }
    {
        let total = self.total();
        let budget = u128::from(reservation.budget());
        let period = u128::from(reservation.period());
        Ratio {
            part: total.part * period + budget * total.whole,
            whole: total.whole * period,
        }
    }

    /// Returns by how much the total bandwidth would pass the bound with one more server of this reservation, or `None`
    /// if it would be within the bound.
    pub fn excess_with(&self, reservation: Reservation) -> Option<Ratio>
        ensures { TellsExcess self.now.bound (with_rate self.now reservation).rates result }
    {
        let total = self.total_with(reservation);
        let num = u128::from(self.bound().num());
        let den = u128::from(self.bound().den());
        let taken = den * total.part;
        let allowed = num * total.whole;
        if taken <= allowed {
            return None;
        }
        Some(Ratio {
            part: taken - allowed,
            whole: den * total.whole,
        })
    }

    /// Returns the least common multiple of all periods and of the period of this reservation, in ticks. It may pass
    /// [`MAX_COMMON_MULTIPLE`](crate::MAX_COMMON_MULTIPLE).
    pub fn common_multiple_with(&self, reservation: Reservation) -> u128
        ensures { result ≡ common_multiple (with_rate self.now reservation).rates }
    {
        least_common_multiple(self.bandwidth().of, reservation.period())
    }

    /// Returns the least period at which a server of this budget keeps the total bandwidth within the bound. Returns
    /// `None` if there is none, or if the plan does not admit the server at that period.
    pub fn least_period(&self, budget: u64) -> Option<u64>
        ensures { MatchOption result
            ((period : ℕ) → ¬ (IsLeastPeriod self.now budget period))
            (IsLeastPeriod self.now budget) }
    {
        if budget > MAX_PERIOD {
            return None;
        }
        let total = self.total();
        let num = u128::from(self.bound().num());
        let den = u128::from(self.bound().den());
        let left = num * total.whole - den * total.part;
        if left == 0 {
            return None;
        }
        let period = (den * u128::from(budget) * total.whole).div_ceil(left);
        let Ok(period) = u64::try_from(period) else {
            return None;
        };
        if !self.takes(budget, period) {
            return None;
        }
        Some(period)
    }
}
