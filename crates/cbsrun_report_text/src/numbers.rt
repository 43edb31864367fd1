//! Shares and means, as a report prints them.

ghost use Rattle.std.specs.Prelude.{◌≡◌, ◌++◌, ◌/◌, ◌%◌, ◌^◌, ◌<◌, OnOk, string_bytes};
ghost use Rattle.cbsrun_report_text.specs.Numbers.{great_text, percent_tenths, mean_tenths};

use cbsrun_text::append_pair;
use cbsrun_time_texts::append_time;
use std::alloc::AllocError;
use std::fmt;

/// A part of a whole, in per cent with one decimal, rounded, a half upward. If the whole is 0, it is written as `-`.
#[derive(Clone, Copy)]
pub(crate) struct Percent {
    part: u128,
    whole: u64,
    ghost small: { part < 2 ^ 80 },
}

impl Percent {
    /// Returns a part of a whole.
    pub(crate) fn new(part: u128, whole: u64) -> Percent
        requires { part < 2 ^ 80 }
        ensures part { result.part ≡ part }
        ensures whole { result.whole ≡ whole }
    {
        Percent { part, whole }
    }

    /// Returns the tenths of a per cent. The whole must not be 0.
    fn tenths(&self) -> u128
        requires { 0 < self.now.whole }
        ensures { result ≡ percent_tenths self.now.part self.now.whole }
    {
        let whole = u128::from(self.whole);
        (2000 * self.part + whole) / (2 * whole)
    }
}

impl fmt::Display for Percent {
    ghost use Rattle.std.specs.Prelude.{Some};
    ghost use Rattle.cbsrun_report_text.specs.Numbers.{percent_text};

    ghost output = { λ p. Some (percent_text p.part p.whole) };

    fn fmt<W: fmt::Write>(&self, f: &mut fmt::Formatter<W>) -> fmt::Result {
        if self.whole == 0 {
            return write!(f, "-");
        }
        let tenths = self.tenths();
        write!(f, "{}.{} %", tenths / 10, tenths % 10)
    }
}

/// The mean of numbers, with one decimal, rounded, a half upward. If there is no number, it is written as `-`.
#[derive(Clone, Copy)]
pub(crate) struct Mean {
    /// The sum of the numbers.
    pub total: u128,
    /// How many there are.
    pub count: u64,
}

impl Mean {
    /// Returns the whole part and the tenths of the mean. There must be a number. They are computed from the quotient
    /// and the remainder, since 20 times the sum may not fit.
    pub(crate) fn parts(&self) -> (u128, u128)
        requires { 0 < self.now.count }
        ensures whole { result.0 ≡ mean_tenths self.now.total self.now.count / 10 }
        ensures tenths { result.1 ≡ mean_tenths self.now.total self.now.count % 10 }
    {
        let count = u128::from(self.count);
        let quotient = self.total / count;
        let rest = self.total % count;
        let tenths = (20 * rest + count) / (2 * count);
        (quotient + tenths / 10, tenths % 10)
    }
}

impl fmt::Display for Mean {
    ghost use Rattle.std.specs.Prelude.{Some};
    ghost use Rattle.cbsrun_report_text.specs.Numbers.{mean_text};

    ghost output = { λ m. Some (mean_text m.total m.count) };

    fn fmt<W: fmt::Write>(&self, f: &mut fmt::Formatter<W>) -> fmt::Result {
        if self.count == 0 {
            return write!(f, "-");
        }
        let (whole, tenths) = self.parts();
        write!(f, "{whole}.{tenths}")
    }
}

/// Appends a great number of ticks: in milliseconds, if the nanoseconds of a tick are known and there are fewer than 2^64.
/// The only error is out of memory.
pub(crate) fn append_great(
    text: &mut String,
    tick: Option<u64>,
    ticks: u128,
) -> Result<(), AllocError>
    ensures { OnOk result (string_bytes text.new ≡ string_bytes text.old ++ great_text tick ticks) }
{
    if tick.is_none() {
        return append_pair(text, "", ticks);
    }
    if ticks < 18_446_744_073_709_551_616 {
        return append_time(text, tick, ticks as u64);
    }
    append_pair(text, "", ticks)?;
    text.push_str(" ticks")
}
