//! Cells of the tables. Times are in milliseconds, if the nanoseconds of a tick are known.

ghost use Rattle.std.specs.Prelude.{◌≡◌, ◌++◌, ◌<◌, codes, IfOk, string_bytes};
ghost use Rattle.cbsrun_time_texts.specs.Texts.{amount_text, time_text};
ghost use Rattle.cbsrun_report_text.specs.Cells.{is_marked, shown_text, cell_of};
ghost use Rattle.cbsrun_report_text.specs.Numbers.{great_text, mean_part_text, mean_time_text};

use crate::numbers::{Mean, Percent, append_great};
use cbsrun_text::{Cell, ToCell};
use cbsrun_time_texts::{append_amount, append_part, append_time};
use std::alloc::{AllocError, Global};

/// What a cell shows.
#[derive(Clone, Copy)]
pub(crate) enum Shown<'a> {
    /// A word or a name.
    Word(&'a str),
    /// A number.
    Number(u64),
    /// A sum.
    Sum(u128),
    /// A number. Its cell is marked if the condition holds.
    Marked(u128, bool),
    /// Two numbers, with a word between them.
    Pair(u64, &'static str, u64),
    /// A part of a whole.
    Percent(Percent),
    /// The same. Its cell is marked if the condition holds.
    MarkedPercent(Percent, bool),
    /// A number of ticks.
    Time(Option<u64>, u64),
    /// The same. Its cell is marked if the condition holds.
    MarkedTime(Option<u64>, u64, bool),
    /// A great number of ticks.
    GreatTime(Option<u64>, u128),
    /// The least and the greatest number of ticks of a range.
    TimeRange(Option<u64>, u64, u64),
    /// A budget in every period.
    Reserved(Option<u64>, u64, u64),
    /// A mean of numbers of ticks.
    Mean(Option<u64>, Mean),
}

/// Returns a number of ticks. The only error is out of memory.
fn time(alloc: Global, tick: Option<u64>, ticks: u64) -> Result<String, AllocError>
    ensures { IfOk result (λ text. string_bytes text ≡ time_text tick ticks) }
{
    let mut text = String::new(alloc);
    append_time(&mut text, tick, ticks)?;
    Ok(text)
}

/// Returns a great number of ticks. The only error is out of memory.
fn great_time(alloc: Global, tick: Option<u64>, ticks: u128) -> Result<String, AllocError>
    ensures { IfOk result (λ text. string_bytes text ≡ great_text tick ticks) }
{
    let mut text = String::new(alloc);
    append_great(&mut text, tick, ticks)?;
    Ok(text)
}

/// Returns the least and the greatest number of ticks of a range. The only error is out of memory.
fn range(alloc: Global, tick: Option<u64>, least: u64, greatest: u64) -> Result<String, AllocError>
    ensures { IfOk result (λ text. string_bytes text ≡ amount_text tick least ++ codes ".."
        ++ time_text tick greatest) }
{
    let mut text = String::new(alloc);
    append_amount(&mut text, tick, least)?;
    text.push_str("..")?;
    append_time(&mut text, tick, greatest)?;
    Ok(text)
}

/// Returns a budget in every period. The only error is out of memory.
fn reserved(
    alloc: Global,
    tick: Option<u64>,
    budget: u64,
    period: u64,
) -> Result<String, AllocError>
    ensures { IfOk result (λ text. string_bytes text ≡ time_text tick budget ++ codes " in "
        ++ time_text tick period) }
{
    let mut text = String::new(alloc);
    append_time(&mut text, tick, budget)?;
    text.push_str(" in ")?;
    append_time(&mut text, tick, period)?;
    Ok(text)
}

/// Returns a mean in milliseconds, by the nanoseconds of a tick, or in ticks if it is too great. The only error is out of
/// memory.
fn mean_part(alloc: Global, tick: u64, mean: Mean) -> Result<String, AllocError>
    requires { 0 < mean.count }
    ensures { IfOk result (λ text. string_bytes text
        ≡ mean_part_text tick mean.total mean.count) }
{
    let (whole, tenths) = mean.parts();
    if whole >= 1_000_000_000_000_000_000 {
        let mut text = mean.to_string(alloc)?;
        text.push_str(" ticks")?;
        return Ok(text);
    }
    let mut text = String::new(alloc);
    append_part(&mut text, tick, (10 * whole + tenths) as u64, 10)?;
    Ok(text)
}

/// Returns a mean of numbers of ticks. The only error is out of memory.
fn mean_time(alloc: Global, tick: Option<u64>, mean: Mean) -> Result<String, AllocError>
    ensures { IfOk result (λ text. string_bytes text ≡ mean_time_text tick mean.total mean.count) }
{
    let Some(tick) = tick else {
        return mean.to_string(alloc);
    };
    if mean.count == 0 {
        return mean.to_string(alloc);
    }
    mean_part(alloc, tick, mean)
}

impl Shown<'_> {
    /// Returns the text of the cell. The only error is out of memory.
    fn text(self, alloc: Global) -> Result<String, AllocError>
        ensures { IfOk result (λ text. string_bytes text ≡ shown_text self.entry) }
    {
        match self {
            Shown::Word(word) => word.to_string(alloc),
            Shown::Number(number) => number.to_string(alloc),
            Shown::Sum(number) | Shown::Marked(number, _) => number.to_string(alloc),
            Shown::Pair(first, word, second) => format!(in alloc; "{first}{word}{second}"),
            Shown::Percent(percent) | Shown::MarkedPercent(percent, _) => percent.to_string(alloc),
            Shown::Time(tick, ticks) | Shown::MarkedTime(tick, ticks, _) => time(
                alloc, tick, ticks,
            ),
            Shown::GreatTime(tick, ticks) => great_time(alloc, tick, ticks),
            Shown::TimeRange(tick, least, greatest) => range(alloc, tick, least, greatest),
            Shown::Reserved(tick, budget, period) => reserved(alloc, tick, budget, period),
            Shown::Mean(tick, mean) => mean_time(alloc, tick, mean),
        }
    }

    /// Returns whether the cell is marked.
    fn is_marked(self) -> bool
        ensures { result ≡ is_marked self.entry }
    {
        match self {
            Shown::Marked(_, marked)
            | Shown::MarkedTime(_, _, marked)
            | Shown::MarkedPercent(_, marked) => marked,
            _ => false,
        }
    }
}

impl ToCell for Shown<'_> {
    ghost shown = { cell_of };

    fn to_cell(self, alloc: Global) -> Result<Cell, AllocError> {
        let text = self.text(alloc)?;
        Ok(Cell::new(text).marked_if(self.is_marked()))
    }
}
