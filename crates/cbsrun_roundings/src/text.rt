//! What is told of the times of a load file that are no whole number of ticks.

ghost use Rattle.std.specs.Prelude.{◌≡◌, IfOk};
ghost use Rattle.toml.specs.View.{table_view};
ghost use Rattle.cbsrun_roundings.specs.Tables.{load_roundings};

use crate::roundings::roundings_of;
use crate::table::append_roundings;
use std::alloc::{AllocError, Global};
use std::marker::Model;
use toml::Table;

/// What is told of the times of a load file that are no whole number of ticks: a table, or nothing.
#[derive(Drop)]
pub struct RoundingsText {
    text: String,
}

impl Model for RoundingsText {
    ghost use Rattle.std.specs.Prelude.{ℕ, List, string_bytes};

    ghost Value = { List ℕ };

    ghost view = { λ r. string_bytes r.text };
}

impl RoundingsText {
    /// Returns what is told of the times of a load that are no whole number of ticks, by its top table: nothing if there
    /// is none, or if the load does not say how long a tick is. `tick` is that length, in nanoseconds.
    ///
    /// Else it is an empty line and a table. A row has the name of the server of the entry in which the time stands, or
    /// `top`; its key; its text; and the time as which it is taken. The rows stand in the order of the file: the end, the
    /// servers, and the sources, each with its keys in the order of the formats. There are at most 20, and a last line
    /// tells how many more there are. A period is whole, so it is none of them. The only error is out of memory.
    pub fn of(alloc: Global, tick: Option<u64>, table: &Table) -> Result<RoundingsText, AllocError>
        ensures { IfOk result (λ r. r ≡ load_roundings tick (table_view table.now)) }
    {
        let mut text = String::new(alloc);
        if let Some(tick) = tick {
            let rounded = roundings_of(alloc, tick, table)?;
            append_roundings(alloc, &mut text, tick, &rounded)?;
        }
        Ok(RoundingsText { text })
    }

    /// Returns the text.
    pub fn text(&self) -> &str
        ensures { result.now ≡ self.now }
    {
        self.text.as_str()
    }
}
