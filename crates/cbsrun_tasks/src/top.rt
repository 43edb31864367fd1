//! The top table of a task file.

ghost use Rattle.std.specs.Prelude.{◌≡◌, ◌≤◌, [], option_map, IfOk};
ghost use Rattle.toml.specs.View.{table_view};
ghost use Rattle.cbsrun_toml_tables.specs.Fields.{seen, with_keys, of_some};
ghost use Rattle.cbsrun_tasks.specs.TopTables.{keys_of, mode_at, typed_values, spelled_by, top_table, typed_view, top_view};
ghost use Rattle.cbsrun_toml_tables.specs.Plans.{bound_of, mode_of};
ghost use Rattle.cbs_rate.specs.Limits.{most_backlog, most_ring};

use cbs_core::MAX_BACKLOG;
use cbs_rate::{Bound, MAX_RING};
use cbs_rules::Mode;
use cbsrun_task_steps::{Format, format_at};
use cbsrun_toml_tables::{
    FileKind, bound_of, integer_at, items_at, mode_of, pair_at, text_at, with_keys, within,
};
use toml::{Table, Value};

/// The values of the keys of the top table, each of its type.
#[derive(Clone, Copy)]
struct TypedValues<'a> {
    mode: Option<&'a str>,
    bound: Option<(i64, i64)>,
    backlog: i64,
    ring: i64,
    servers: &'a Vec<Value>,
    steps: &'a Vec<Value>,
}

/// What the top table spells. The entries of its arrays are not read yet.
#[derive(Drop)]
pub struct TopTable<'a> {
    pub format: Format,
    /// The mode of all servers, if the file has one.
    pub mode: Option<Mode>,
    pub bound: Bound,
    pub backlog: u64,
    pub ring: u64,
    pub servers: &'a Vec<Value>,
    pub steps: &'a Vec<Value>,
}

/// Tests that the table has each key of its format, and no other.
fn with_keys_of(format: Format, table: &Table) -> Result<(), FileKind>
    ensures { result ≡ with_keys (keys_of format) [] (table_view table.now) }
{
    let one = [
        "format", "mode", "bound", "backlog", "ring", "server", "step",
    ];
    let two = ["format", "bound", "backlog", "ring", "server", "step"];
    match format {
        Format::One => with_keys(table, &one, &[]),
        Format::Two => with_keys(table, &two, &[]),
    }
}

/// Returns the word of the mode of all servers, in the format that has one, and `None` in the other format.
fn mode_at(format: Format, table: &Table) -> Result<Option<&str>, FileKind>
    ensures { seen (option_map (λ s. s.now)) result ≡ mode_at format (table_view table.now) }
{
    match format {
        Format::One => Ok(Some(text_at(table, "mode")?)),
        Format::Two => Ok(None),
    }
}

/// Returns the values of all keys, or the first fault over all of them.
#[tactic(auto, unfolding(crate::specs::TopTables::typed_values))]
fn typed_values(format: Format, table: &Table) -> Result<TypedValues<'_>, FileKind>
    ensures { seen typed_view result ≡ typed_values format (table_view table.now) }
{
    with_keys_of(format, table)?;
    let mode = mode_at(format, table)?;
    let bound = pair_at(table, "bound")?;
    let backlog = integer_at(table, "backlog")?;
    let ring = integer_at(table, "ring")?;
    let servers = items_at(table, "server")?;
    let steps = items_at(table, "step")?;
    Ok(TypedValues {
        mode,
        bound,
        backlog,
        ring,
        servers,
        steps,
    })
}

/// Returns the mode that a word names, if there is a word.
fn mode_named(word: Option<&str>) -> Result<Option<Mode>, FileKind>
    ensures { result ≡ of_some mode_of (option_map (λ s. s.now) word.entry) }
{
    match word {
        Some(word) => Ok(Some(mode_of(word)?)),
        None => Ok(None),
    }
}

/// Returns what the values spell, each in its range.
#[tactic(auto, unfolding(crate::specs::TopTables::spelled_by))]
fn spelled_by(format: Format, values: TypedValues<'_>) -> Result<TopTable<'_>, FileKind>
    ensures value { seen top_view result ≡ spelled_by format (typed_view values.entry) }
    ensures backlog { IfOk result (λ t. (1 ≤ t.backlog) × (t.backlog ≤ most_backlog)) }
    ensures ring { IfOk result (λ t. (1 ≤ t.ring) × (t.ring ≤ most_ring)) }
{
    let mode = mode_named(values.mode)?;
    let bound = bound_of(values.bound)?;
    let backlog = within(1, MAX_BACKLOG, values.backlog)?;
    let ring = within(1, MAX_RING, values.ring)?;
    Ok(TopTable {
        format,
        mode,
        bound,
        backlog,
        ring,
        servers: values.servers,
        steps: values.steps,
    })
}

/// Returns what the top table spells, or its first fault. The format is tested first. Then come the types of all
/// values, and after them the ranges.
pub fn top_table(table: &Table) -> Result<TopTable<'_>, FileKind>
    ensures value { seen top_view result ≡ top_table (table_view table.now) }
    ensures backlog { IfOk result (λ t. (1 ≤ t.backlog) × (t.backlog ≤ most_backlog)) }
    ensures ring { IfOk result (λ t. (1 ≤ t.ring) × (t.ring ≤ most_ring)) }
{
    let format = format_at(table)?;
    spelled_by(format, typed_values(format, table)?)
}
