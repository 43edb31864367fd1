//! The format of a task file, and what it decides.

ghost use Rattle.std.specs.Prelude.{◌≡◌, ◌≤◌};
ghost use Rattle.toml.specs.View.{table_view};
ghost use Rattle.cbsrun_task_steps.specs.Entries.{format_at, format_of, longest_advance};

use cbs_rules::LIMIT;
use cbsrun_toml_tables::{FileKind, integer_at, within};
use toml::Table;

/// The format of a task file.
#[derive(Clone, Copy)]
pub enum Format {
    /// Format 1: all servers follow one mode, which stands in the top table.
    One,
    /// Format 2: each server has its own mode, which stands in its entry.
    Two,
}

impl Format {
    /// Returns the longest advance of one step, in ticks.
    pub fn longest_advance(self) -> u64
        ensures value { result ≡ longest_advance self }
        ensures most { result ≤ LIMIT }
    {
        match self {
            Format::One => 1_000_000_000,
            Format::Two => LIMIT,
        }
    }
}

/// Returns the format of this number, 1 or 2.
fn format_of(number: i64) -> Result<Format, FileKind>
    ensures { result ≡ format_of number }
{
    let number = within(1, 2, number)?;
    Ok(if number == 1 {
        Format::One
    } else {
        Format::Two
    })
}

/// Returns the format of the file whose top table this is.
pub fn format_at(table: &Table) -> Result<Format, FileKind>
    ensures { result ≡ format_at (table_view table.now) }
{
    format_of(integer_at(table, "format")?)
}
