//! The reasons why a reservation, a bound or an admission is refused.

ghost use Rattle.std.specs.Prelude.{◌≡◌};
ghost use Rattle.cbs_rate.specs.Errors.{rate_error_number, rate_error_name, admit_error_number, admit_error_name};

use thiserror::Error;

/// The reason why two numbers make no reservation or no bound.
#[derive(Clone, Copy, Debug, PartialEq, Eq, Error)]
pub enum RateError {
    /// The budget is 0: a server with no budget would never run.
    #[error("the budget is 0: a reservation needs a budget of at least 1 tick")]
    ZeroBudget = 1,
    /// The period is longer than [`MAX_PERIOD`](crate::MAX_PERIOD).
    #[error("the period is longer than 1000000000 ticks")]
    PeriodTooLong = 2,
    /// The budget is larger than the period, which does not have that many ticks.
    #[error("the budget is larger than the period")]
    BudgetOverPeriod = 3,
    /// The bound is not a fraction above 0 and at most 1 with a denominator of at most
    /// [`MAX_DENOMINATOR`](crate::MAX_DENOMINATOR).
    #[error("a bound N/D needs 1 <= N <= D <= 1000000")]
    BadBound = 4,
}

impl RateError {
    /// Returns the error's number, from 1.
    pub fn number(self) -> u8
        ensures { result ≡ rate_error_number self }
    {
        self as u8
    }

    /// Returns the error's name: that of its variant.
    pub fn name(self) -> &'static str
        ensures { result.now ≡ rate_error_name self }
    {
        match self {
            RateError::ZeroBudget => "ZeroBudget",
            RateError::PeriodTooLong => "PeriodTooLong",
            RateError::BudgetOverPeriod => "BudgetOverPeriod",
            RateError::BadBound => "BadBound",
        }
    }
}

/// The reason why a plan does not admit a reservation.
#[derive(Clone, Copy, Debug, PartialEq, Eq, Error)]
pub enum AdmitError {
    /// The plan has [`MAX_SERVERS`](crate::MAX_SERVERS) servers already.
    #[error("the plan has 64 servers already, and takes no more")]
    TooManyServers = 1,
    /// The least common multiple of all periods would pass
    /// [`MAX_COMMON_MULTIPLE`](crate::MAX_COMMON_MULTIPLE).
    #[error("the least common multiple of all periods would pass 10^18: choose periods that share more factors")]
    PeriodsTooFine = 2,
    /// The total bandwidth, with the new reservation, would pass the plan's bound.
    #[error("the total bandwidth would pass the plan's bound: a smaller budget or a longer period may fit")]
    OverBound = 3,
}

impl AdmitError {
    /// Returns the error's number, from 1.
    pub fn number(self) -> u8
        ensures { result ≡ admit_error_number self }
    {
        self as u8
    }

    /// Returns the error's name: that of its variant.
    pub fn name(self) -> &'static str
        ensures { result.now ≡ admit_error_name self }
    {
        match self {
            AdmitError::TooManyServers => "TooManyServers",
            AdmitError::PeriodsTooFine => "PeriodsTooFine",
            AdmitError::OverBound => "OverBound",
        }
    }
}
