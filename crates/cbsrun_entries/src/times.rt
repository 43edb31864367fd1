//! Numbers of ticks, and times that stand for them.

ghost use Rattle.std.specs.Prelude.{◌≡◌};
ghost use Rattle.toml.specs.View.{view, table_view};
ghost use Rattle.cbsrun_entries.specs.Times.{optional_ticks_at, tick_at, ticks, ticks_at, ticks_by};

use cbsrun_times::{Rounding, tick_of, ticks_of};
use cbsrun_toml_tables::{FileKind, integer, optional, present, text};
use toml::{Table, Value};

/// Returns the nanoseconds of a tick, as the text at the key `tick` tells, or `None` if the table lacks the key. Refuses a
/// value of another type, and a text that tells no time, one of less than a nanosecond, or one of more than a second.
pub fn tick_at(table: &Table) -> Result<Option<u64>, FileKind>
    ensures { result ≡ tick_at (table_view table.now) }
{
    let Some(value) = optional(table, "tick") else {
        return Ok(None);
    };
    match tick_of(text(value)?) {
        Some(tick) => Ok(Some(tick)),
        None => Err(FileKind::OutOfRange),
    }
}

/// Returns how many ticks a text tells, by the nanoseconds of a tick. Refuses a text that tells no time, and what the
/// rounding refuses, as out of range.
fn ticks_by(tick: u64, rounding: Rounding, text: &str) -> Result<i64, FileKind>
    ensures { result ≡ ticks_by tick rounding text.now }
{
    match ticks_of(tick, rounding, text) {
        Some(ticks) => Ok(ticks as i64),
        None => Err(FileKind::OutOfRange),
    }
}

/// Returns a number of ticks. An integer is returned as it is, also if it is negative. A text is a time, of 0 to 10^12
/// ticks, and is read only if the file says how long a tick is. Refuses a text that tells no such time as out of range,
/// and any other value as of another type.
pub fn ticks(tick: Option<u64>, rounding: Rounding, value: &Value) -> Result<i64, FileKind>
    ensures { result ≡ ticks tick rounding (view value.now) }
{
    match (tick, value.as_str()) {
        (Some(tick), Some(text)) => ticks_by(tick, rounding, text),
        _ => integer(value),
    }
}

/// Returns the number of ticks at a key, as [`ticks`] reads it. Refuses a table that lacks the key, too.
#[tactic(auto, unfolding(crate::specs::Times::ticks_at))]
pub fn ticks_at(
    tick: Option<u64>,
    rounding: Rounding,
    table: &Table,
    key: &str,
) -> Result<i64, FileKind>
    ensures { result ≡ ticks_at tick rounding key.now (table_view table.now) }
{
    ticks(tick, rounding, present(table, key)?)
}

/// Returns the number of ticks at a key, or `None` if the table lacks the key. Refuses as [`ticks`] does.
#[tactic(auto, unfolding(crate::specs::Times::optional_ticks_at))]
pub fn optional_ticks_at(
    tick: Option<u64>,
    rounding: Rounding,
    table: &Table,
    key: &str,
) -> Result<Option<i64>, FileKind>
    ensures { result ≡ optional_ticks_at tick rounding key.now (table_view table.now) }
{
    match optional(table, key) {
        Some(value) => Ok(Some(ticks(tick, rounding, value)?)),
        None => Ok(None),
    }
}
