//! The terms by which the steps of a file are read.

ghost use Rattle.std.specs.Prelude.{◌≡◌, ◌≤◌, true};
ghost use Rattle.cbs_rate.specs.Limits.{most_servers};

use crate::format::{Format, format_at};
use cbs_rate::MAX_SERVERS;
use toml::{Table, Value};

/// The terms by which the steps of a file are read: its format, and how many servers it has.
#[derive(Clone, Copy)]
pub struct Terms {
    pub format: Format,
    pub servers: u64,
    ghost few: { servers ≤ most_servers },
}

impl Terms {
    /// Returns the terms that the table seems to set. Once the whole table is tested, the caller compares them by
    /// [`Terms::are_of`].
    pub fn of(table: &Table) -> Terms {
        let servers = match table.get("server") {
            Some(Value::Array(entries)) if entries.len() <= MAX_SERVERS => entries.len() as u64,
            _ => 0,
        };
        Terms {
            format: format_at(table).unwrap_or(Format::Two),
            servers,
        }
    }

    /// Returns `true` only if a file of this format with this many servers sets these terms.
    pub fn are_of(self, format: Format, servers: u64) -> bool
        ensures { result ≡ true → (format ≡ self.format) × (servers ≡ self.servers) }
    {
        match (self.format, format) {
            (Format::One, Format::One) | (Format::Two, Format::Two) => self.servers == servers,
            _ => false,
        }
    }
}
