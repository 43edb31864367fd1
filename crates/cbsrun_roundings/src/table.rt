//! The table of the times that are no whole number of ticks. The only error of each call is out of memory.

ghost use Rattle.std.specs.Prelude.{◌≡◌, ◌++◌, map, IfOk, OnOk, string_bytes};
ghost use Rattle.cbsrun_text.specs.Columns.{rows_of};
ghost use Rattle.cbsrun_roundings.specs.Roundings.{rounded_view};
ghost use Rattle.cbsrun_roundings.specs.Tables.{cell_of, heading, more_text, row_of, roundings_table, roundings_text, shown_text};

use crate::rounded::Rounded;
use cbsrun_text::{Cell, ToCell, append_columns, append_pair, cells};
use cbsrun_time_texts::append_time;
use std::alloc::{AllocError, Global};

/// The most rows of the table.
const MOST_ROWS: usize = 20;

/// What a cell shows.
#[derive(Clone, Copy)]
enum Shown<'a> {
    /// A word.
    Word(&'a str),
    /// A number of ticks, by the nanoseconds of a tick.
    Time(u64, u64),
}

impl Shown<'_> {
    /// Returns the text of the cell.
    fn text(self, alloc: Global) -> Result<String, AllocError>
        ensures { IfOk result (λ text. string_bytes text ≡ shown_text self.entry) }
    {
        match self {
            Shown::Word(word) => String::from_str(alloc, word),
            Shown::Time(tick, ticks) => {
                let mut text = String::new(alloc);
                append_time(&mut text, Some(tick), ticks)?;
                Ok(text)
            }
        }
    }
}

impl ToCell for Shown<'_> {
    ghost shown = { cell_of };

    fn to_cell(self, alloc: Global) -> Result<Cell, AllocError> {
        Ok(Cell::new(self.text(alloc)?))
    }
}

/// Returns the heading of the table.
fn heading(alloc: Global) -> Result<Vec<Cell>, AllocError>
    ensures { IfOk result (λ row. row.items ≡ heading) }
{
    cells(alloc, &["ROUNDED", "key", "in the file", "taken as"])
}

/// Returns the row of a time.
fn row_of(alloc: Global, tick: u64, rounded: Rounded<'_>) -> Result<Vec<Cell>, AllocError>
    ensures { IfOk result (λ row. row.items ≡ row_of tick (rounded_view rounded.entry)) }
{
    cells(
        alloc,
        &[
            Shown::Word(rounded.owner),
            Shown::Word(rounded.key),
            Shown::Word(rounded.text),
            Shown::Time(tick, rounded.ticks),
        ],
    )
}

/// Returns the rows of the table.
fn rows(alloc: Global, tick: u64, shown: &[Rounded<'_>]) -> Result<Vec<Vec<Cell>>, AllocError>
    ensures { IfOk result (λ rows. rows_of rows.items
        ≡ roundings_table tick (map rounded_view shown.now)) }
{
    let mut rows = Vec::new(alloc);
    rows.push(heading(alloc)?)?;
    for rounded in shown {
        rows.push(row_of(alloc, tick, *rounded)?)?;
    }
    Ok(rows)
}

/// Appends how many more times there are, if there are more.
fn append_more(text: &mut String, more: usize) -> Result<(), AllocError>
    ensures { OnOk result (string_bytes text.new ≡ string_bytes text.old ++ more_text more) }
{
    if more == 0 {
        return Ok(());
    }
    append_pair(text, "and ", more as u64)?;
    text.push_str(" more\n")
}

/// Appends an empty line and the table of these times, if there are any. `tick` is the length of a tick in nanoseconds. The
/// table has the first 20, and a line below it tells how many more there are. The only error is out of memory.
#[tactic(auto, unfolding(crate::specs::Tables::roundings_text))]
pub(crate) fn append_roundings(
    alloc: Global,
    text: &mut String,
    tick: u64,
    rounded: &[Rounded<'_>],
) -> Result<(), AllocError>
    ensures { OnOk result (string_bytes text.new ≡ string_bytes text.old
        ++ roundings_text tick (map rounded_view rounded.now)) }
{
    if rounded.is_empty() {
        return Ok(());
    }
    let shown = rounded.len().min(MOST_ROWS);
    text.push_str("\n")?;
    append_columns(alloc, text, &rows(alloc, tick, &rounded[..shown])?)?;
    append_more(text, rounded.len() - shown)
}
