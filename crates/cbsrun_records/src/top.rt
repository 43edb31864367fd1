//! The top table of a record.

ghost use Rattle.std.specs.Prelude.{◌≡◌, ◌≤◌, codes, [], ◌∷◌, map, IfOk};
ghost use Rattle.toml.specs.View.{table_view, view};
ghost use Rattle.cbs_rate.specs.Limits.{most_backlog};
ghost use Rattle.cbsrun_toml_tables.specs.Fields.{seen, with_keys};
ghost use Rattle.cbsrun_records.specs.TopTables.{kind_at, required_keys, steps_at, typed_values, spelled_by, top_table, typed_view, top_view};

use cbs_core::MAX_BACKLOG;
use cbs_rate::Bound;
use cbsrun_loads::tick_at;
use cbsrun_toml_tables::{FileKind, bound_of, integer_at, items_at, pair_at, with_keys, within};
use toml::{Table, Value};

/// The values of the keys of the top table, each of its type.
#[derive(Clone, Copy)]
struct TypedValues<'a> {
    tick: Option<u64>,
    bound: Option<(i64, i64)>,
    backlog: i64,
    servers: &'a Vec<Value>,
    steps: &'a [Value],
}

/// What the top table spells. The entries of its arrays are not read yet.
#[derive(Drop)]
pub struct TopTable<'a> {
    pub tick: Option<u64>,
    pub bound: Bound,
    pub backlog: u64,
    pub servers: &'a Vec<Value>,
    pub steps: &'a [Value],
}

/// Returns the kind of the record. There is only the kind 1.
fn kind_at(table: &Table) -> Result<u64, FileKind>
    ensures { result ≡ kind_at (table_view table.now) }
{
    within(1, 1, integer_at(table, "record")?)
}

/// Tests which keys the top table has. The steps stand in it unless they are `taped`.
fn tested_keys(taped: bool, table: &Table) -> Result<(), FileKind>
    ensures { result ≡ with_keys (required_keys taped) (codes "tick" ∷ []) (table_view table.now) }
{
    if taped {
        return with_keys(table, &["record", "bound", "backlog", "server"], &["tick"]);
    }
    with_keys(
        table,
        &["record", "bound", "backlog", "server", "step"],
        &["tick"],
    )
}

/// Returns the entries of `step`, none if the steps are `taped`.
fn steps_at(taped: bool, table: &Table) -> Result<&[Value], FileKind>
    ensures { seen (λ steps. map view steps.now) result ≡ steps_at taped (table_view table.now) }
{
    if taped {
        return Ok(&[]);
    }
    Ok(items_at(table, "step")?)
}

/// Returns the values of all keys, or the first fault over all of them.
#[tactic(auto, unfolding(crate::specs::TopTables::typed_values))]
fn typed_values(taped: bool, table: &Table) -> Result<TypedValues<'_>, FileKind>
    ensures { seen typed_view result ≡ typed_values taped (table_view table.now) }
{
    tested_keys(taped, table)?;
    let tick = tick_at(table)?;
    let bound = pair_at(table, "bound")?;
    let backlog = integer_at(table, "backlog")?;
    let servers = items_at(table, "server")?;
    let steps = steps_at(taped, table)?;
    Ok(TypedValues {
        tick,
        bound,
        backlog,
        servers,
        steps,
    })
}

/// Returns what the values spell, each in its range.
#[tactic(auto, unfolding(crate::specs::TopTables::spelled_by))]
fn spelled_by(values: TypedValues<'_>) -> Result<TopTable<'_>, FileKind>
    ensures value { seen top_view result ≡ spelled_by (typed_view values.entry) }
    ensures backlog { IfOk result (λ t. (1 ≤ t.backlog) × (t.backlog ≤ most_backlog)) }
{
    let bound = bound_of(values.bound)?;
    let backlog = within(1, MAX_BACKLOG, values.backlog)?;
    Ok(TopTable {
        tick: values.tick,
        bound,
        backlog,
        servers: values.servers,
        steps: values.steps,
    })
}

/// Returns what the top table spells, or its first fault. The kind of the record is tested first. The steps stand in the
/// table unless they are `taped`.
pub fn top_table(taped: bool, table: &Table) -> Result<TopTable<'_>, FileKind>
    ensures value { seen top_view result ≡ top_table taped (table_view table.now) }
    ensures backlog { IfOk result (λ t. (1 ≤ t.backlog) × (t.backlog ≤ most_backlog)) }
{
    kind_at(table)?;
    spelled_by(typed_values(taped, table)?)
}
