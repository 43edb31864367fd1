//! Cells of the table.

ghost use Rattle.std.specs.Prelude.{◌≡◌, IfOk, string_bytes};
ghost use Rattle.cbsrun_time_texts.specs.Texts.{time_text};
ghost use Rattle.cbsrun_sweep_texts.specs.Tables.{cell_of, is_marked, shown_text};

use cbsrun_text::{Cell, ToCell};
use cbsrun_time_texts::append_time;
use std::alloc::{AllocError, Global};

/// What a cell shows.
#[derive(Clone, Copy)]
pub(crate) enum Shown<'a> {
    /// A word or a name.
    Word(&'a str),
    /// A number.
    Number(u64),
    /// A number that is to be looked at, unless it is 0.
    Bad(u64),
    /// A number of ticks, by the nanoseconds of a tick, if they are known.
    Time(Option<u64>, u64),
}

/// Returns a number of ticks. The only error is out of memory.
fn time(alloc: Global, tick: Option<u64>, ticks: u64) -> Result<String, AllocError>
    ensures { IfOk result (λ text. string_bytes text ≡ time_text tick ticks) }
{
    let mut text = String::new(alloc);
    append_time(&mut text, tick, ticks)?;
    Ok(text)
}

impl Shown<'_> {
    /// Returns the text of the cell. The only error is out of memory.
    fn text(self, alloc: Global) -> Result<String, AllocError>
        ensures { IfOk result (λ text. string_bytes text ≡ shown_text self.entry) }
    {
        match self {
            Shown::Word(word) => String::from_str(alloc, word),
            Shown::Number(number) | Shown::Bad(number) => number.to_string(alloc),
            Shown::Time(tick, ticks) => time(alloc, tick, ticks),
        }
    }

    /// Returns whether the cell is marked.
    fn is_marked(self) -> bool
        ensures { result ≡ is_marked self.entry }
    {
        match self {
            Shown::Bad(number) => number > 0,
            _ => false,
        }
    }
}

impl ToCell for Shown<'_> {
    ghost shown = { cell_of };

    fn to_cell(self, alloc: Global) -> Result<Cell, AllocError> {
        let text = self.text(alloc)?;
        Ok(Cell::new(text).marked_if(self.is_marked()))
    }
}
