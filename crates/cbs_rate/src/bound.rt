//! A bound on the total bandwidth of a plan.

ghost use Rattle.std.specs.Prelude.{◌≡◌, ◌*◌, ◌≤◌, ◌↔◌, IsTrue};
ghost use Rattle.cbs_rate.specs.Bound.{IsBound, bound_refusal};
ghost use Rattle.cbs_rate.specs.Refusals.{AnswersBy};

use crate::error::RateError;
use std::marker::Model;

/// The greatest denominator of a bound.
pub const MAX_DENOMINATOR: u64 = 1_000_000;

/// The part of a processor that the servers of a plan may take together: N of every D ticks, with
/// `1 <= N <= D <= MAX_DENOMINATOR`.
#[derive(Clone, Copy, Debug, PartialEq, Eq)]
pub struct Bound {
    num: u32,
    den: u32,
}

impl Model for Bound {
    ghost use Rattle.cbs_rate.specs.Bound.{Fraction, IsBound};

    ghost Value = { Fraction };

    ghost view = { λ b. record { num = b.num; den = b.den } };

    ghost invariant = { λ b. IsBound b.num b.den };

    ghost inverse = { λ v. record { num = v.num; den = v.den } };
}

impl Bound {
    /// Returns the bound of `num` of every `den` ticks.
    ///
    /// Refuses with [`RateError::BadBound`] unless `1 <= num <= den <= MAX_DENOMINATOR`.
    pub fn new(num: u64, den: u64) -> Result<Bound, RateError>
        ensures { AnswersBy result (bound_refusal num den) (record { num = num; den = den }) }
    {
        if num == 0 || num > den || den > MAX_DENOMINATOR {
            return Err(RateError::BadBound);
        }
        Ok(Bound {
            num: num as u32,
            den: den as u32,
        })
    }

    /// Returns N of the bound N/D.
    pub fn num(&self) -> u64
        ensures value { result ≡ self.now.num }
        ensures lawful { IsBound self.now.num self.now.den }
    {
        u64::from(self.num)
    }

    /// Returns D of the bound N/D.
    pub fn den(&self) -> u64
        ensures value { result ≡ self.now.den }
        ensures lawful { IsBound self.now.num self.now.den }
    {
        u64::from(self.den)
    }

    /// Returns whether `taken` of `ticks` is at most this bound, exactly: the products are compared, and nothing is
    /// divided.
    pub(crate) fn allows(self, taken: u64, ticks: u64) -> bool
        ensures value { IsTrue result ↔ (self.den * taken ≤ self.num * ticks) }
        ensures lawful { IsBound self.num self.den }
    {
        u128::from(self.den) * u128::from(taken) <= u128::from(self.num) * u128::from(ticks)
    }
}
