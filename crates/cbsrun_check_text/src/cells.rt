//! Cells of the tables. The only error of each call is out of memory.

ghost use Rattle.std.specs.Prelude.{◌≡◌, ◌++◌, codes, IfOk, OnOk, string_bytes};
ghost use Rattle.cbsrun_time_texts.specs.Texts.{amount_text, time_text};
ghost use Rattle.cbsrun_check_text.specs.Cells.{is_marked, range_amount, shown_text, cell_of};

use crate::fractions::Share;
use cbsrun_text::{Cell, ToCell};
use cbsrun_time_texts::{append_amount, append_time};
use std::alloc::{AllocError, Global};

/// What a cell shows.
#[derive(Clone, Copy)]
pub(crate) enum Shown<'a> {
    /// A word or a name.
    Word(&'a str),
    /// A number of ticks, by the nanoseconds of a tick, if they are known.
    Time(Option<u64>, u64),
    /// The least and the greatest number of ticks of a range.
    Range(Option<u64>, u64, u64),
    /// The least and the greatest number of ticks of a range, and a jitter.
    Jittered(Option<u64>, u64, u64, u64),
    /// A number of ticks that is asked for once.
    Once(Option<u64>, u64),
    /// That each job is finished in time: within this many ticks.
    InTime(Option<u64>, u64),
    /// That each job is finished within this many ticks, which is not in time.
    TooLate(Option<u64>, u64),
    /// A share, as a shortened fraction.
    Fraction(Share),
    /// The same. Its cell is marked if the condition holds.
    MarkedFraction(Share, bool),
    /// A share, in per cent.
    Percent(Share),
}

/// Returns words with a number of ticks after them.
fn time_after(
    alloc: Global,
    words: &str,
    tick: Option<u64>,
    ticks: u64,
) -> Result<String, AllocError>
    ensures { IfOk result (λ text. string_bytes text ≡ words.now ++ time_text tick ticks) }
{
    let mut text = String::from_str(alloc, words)?;
    append_time(&mut text, tick, ticks)?;
    Ok(text)
}

/// Returns a number of ticks that is asked for once.
fn once(alloc: Global, tick: Option<u64>, ticks: u64) -> Result<String, AllocError>
    ensures { IfOk result (λ text. string_bytes text ≡ time_text tick ticks ++ codes " once") }
{
    let mut text = time_after(alloc, "", tick, ticks)?;
    text.push_str(" once")?;
    Ok(text)
}

/// Returns the least and the greatest number of ticks of a range.
fn range(alloc: Global, tick: Option<u64>, least: u64, greatest: u64) -> Result<String, AllocError>
    ensures { IfOk result (λ text. string_bytes text ≡ amount_text tick least ++ codes ".."
        ++ time_text tick greatest) }
{
    let mut text = String::new(alloc);
    append_amount(&mut text, tick, least)?;
    text.push_str("..")?;
    append_time(&mut text, tick, greatest)?;
    Ok(text)
}

/// Appends the least and the greatest number of ticks of a range, without their unit. A range of one number is written
/// as that number.
fn append_range_amount(
    text: &mut String,
    tick: Option<u64>,
    least: u64,
    greatest: u64,
) -> Result<(), AllocError>
    ensures { OnOk result (string_bytes text.new ≡ string_bytes text.old
        ++ range_amount tick least greatest) }
{
    append_amount(text, tick, least)?;
    if least == greatest {
        return Ok(());
    }
    text.push_str("..")?;
    append_amount(text, tick, greatest)
}

/// Returns a range of ticks, with a jitter after it.
fn jittered(
    alloc: Global,
    tick: Option<u64>,
    least: u64,
    greatest: u64,
    jitter: u64,
) -> Result<String, AllocError>
    ensures { IfOk result (λ text. string_bytes text ≡ range_amount tick least greatest
        ++ codes " +" ++ time_text tick jitter) }
{
    let mut text = String::new(alloc);
    append_range_amount(&mut text, tick, least, greatest)?;
    text.push_str(" +")?;
    append_time(&mut text, tick, jitter)?;
    Ok(text)
}

impl Shown<'_> {
    /// Returns the text of the cell.
    fn text(self, alloc: Global) -> Result<String, AllocError>
        ensures { IfOk result (λ text. string_bytes text ≡ shown_text self.entry) }
    {
        match self {
            Shown::Word(word) => String::from_str(alloc, word),
            Shown::Time(tick, ticks) => time_after(alloc, "", tick, ticks),
            Shown::Range(tick, least, greatest) => range(alloc, tick, least, greatest),
            Shown::Jittered(tick, least, greatest, jitter) => {
                jittered(alloc, tick, least, greatest, jitter)
            }
            Shown::Once(tick, ticks) => once(alloc, tick, ticks),
            Shown::InTime(tick, ticks) => time_after(alloc, "yes, by ", tick, ticks),
            Shown::TooLate(tick, ticks) => time_after(alloc, "no, by ", tick, ticks),
            Shown::Fraction(share) | Shown::MarkedFraction(share, _) => share.fraction(alloc),
            Shown::Percent(share) => share.percent(alloc),
        }
    }

    /// Returns whether the cell is marked.
    fn is_marked(self) -> bool
        ensures { result ≡ is_marked self.entry }
    {
        match self {
            Shown::MarkedFraction(_, marked) => marked,
            _ => false,
        }
    }
}

impl ToCell for Shown<'_> {
    ghost shown = { cell_of };

    fn to_cell(self, alloc: Global) -> Result<Cell, AllocError> {
        let text = self.text(alloc)?;
        Ok(Cell::new(text).marked_if(self.is_marked()))
    }
}
