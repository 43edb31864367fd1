//! One server of a sketch.

ghost use Rattle.std.specs.Prelude.{◌≡◌};
ghost use Rattle.toml.specs.View.{view, table_view};
ghost use Rattle.cbsrun_toml_tables.specs.Fields.{seen};
ghost use Rattle.cbsrun_loads.specs.Sketches.{both_or_none, given_by, sketch_entry, sketch_view};

use crate::sketch::{Given, ServerSketch};
use cbsrun_entries::{name_of, optional_ticks_at};
use cbsrun_times::Rounding;
use cbsrun_toml_tables::{FileKind, mode_of, optional, reservation, table_with, text_at};
use toml::{Table, Value};

/// One server, as its entry gives it.
#[derive(Clone, Copy)]
pub struct SketchEntry<'a> {
    pub name: &'a str,
    pub server: ServerSketch,
}

/// Refuses a table that has one of two keys alone.
fn both_or_none(table: &Table, one: &str, other: &str) -> Result<(), FileKind>
    ensures { result ≡ both_or_none one.now other.now (table_view table.now) }
{
    if optional(table, one).is_some() == optional(table, other).is_some() {
        Ok(())
    } else {
        Err(FileKind::MissingKey)
    }
}

/// Returns the reservation of two numbers, or `None` if they are left out.
fn given_by(budget: Option<i64>, period: Option<i64>) -> Result<Option<Given>, FileKind>
    ensures { result ≡ given_by budget period }
{
    let (Some(budget), Some(period)) = (budget, period) else {
        return Ok(None);
    };
    let reservation = reservation(budget, period)?;
    Ok(Some(Given {
        budget: reservation.budget(),
        period: reservation.period(),
    }))
}

/// Returns the server of one entry, in a file with this tick. This does not test whether another server has its name.
#[tactic(auto, unfolding(crate::specs::Sketches::sketch_entry))]
pub fn sketch_entry(tick: Option<u64>, entry: &Value) -> Result<SketchEntry<'_>, FileKind>
    ensures { seen sketch_view result ≡ sketch_entry tick (view entry.now) }
{
    let table = table_with(entry, &["name", "mode"], &["budget", "period"])?;
    both_or_none(table, "budget", "period")?;
    let name = text_at(table, "name")?;
    let mode = text_at(table, "mode")?;
    let budget = optional_ticks_at(tick, Rounding::Up, table, "budget")?;
    let period = optional_ticks_at(tick, Rounding::Whole, table, "period")?;
    let name = name_of(name)?;
    let mode = mode_of(mode)?;
    let given = given_by(budget, period)?;
    let server = ServerSketch { mode, given };
    Ok(SketchEntry { name, server })
}
