//! The top table of a load file.

ghost use Rattle.std.specs.Prelude.{◌≡◌, ◌≤◌, length, IfOk};
ghost use Rattle.toml.specs.View.{table_view};
ghost use Rattle.cbs_rate.specs.Limits.{most_backlog};
ghost use Rattle.cbs_rules.specs.Rules.{clock_end};
ghost use Rattle.cbsrun_toml_tables.specs.Fields.{seen};
ghost use Rattle.cbsrun_loads.specs.Loads.{most_sources};
ghost use Rattle.cbsrun_loads.specs.TopTables.{kind_at, typed_values, spelled_by, top_table, typed_view, top_view};

use cbs_core::MAX_BACKLOG;
use cbs_rate::Bound;
use cbs_rules::LIMIT;
use cbsrun_entries::{tick_at, ticks_at};
use cbsrun_times::Rounding;
use cbsrun_toml_tables::{
    FileKind, bound_of, integer_at, items_at, optional_integer_at, optional_within, pair_at, sized,
    with_keys, within,
};
use toml::{Table, Value};

/// The greatest number of sources of a load.
pub const MAX_SOURCES: usize = 65_536;

/// The greatest seed: the greatest integer of TOML.
const MAX_SEED: u64 = 9_223_372_036_854_775_807;

/// The values of the keys of the top table, each of its type.
#[derive(Clone, Copy)]
struct TypedValues<'a> {
    tick: Option<u64>,
    bound: Option<(i64, i64)>,
    backlog: i64,
    until: i64,
    seed: Option<i64>,
    servers: &'a Vec<Value>,
    sources: &'a Vec<Value>,
}

/// What the top table spells. The entries of its arrays are not read yet.
#[derive(Drop)]
pub struct TopTable<'a> {
    pub tick: Option<u64>,
    pub bound: Bound,
    pub backlog: u64,
    pub until: u64,
    pub seed: u64,
    pub servers: &'a Vec<Value>,
    pub sources: &'a Vec<Value>,
}

/// Returns the kind of the load file. There is only the kind 1.
fn kind_at(table: &Table) -> Result<u64, FileKind>
    ensures { result ≡ kind_at (table_view table.now) }
{
    within(1, 1, integer_at(table, "load")?)
}

/// Returns the values of all keys, or the first fault over all of them.
#[tactic(auto, unfolding(crate::specs::TopTables::typed_values))]
fn typed_values(table: &Table) -> Result<TypedValues<'_>, FileKind>
    ensures { seen typed_view result ≡ typed_values (table_view table.now) }
{
    let required = ["load", "bound", "backlog", "until", "server", "source"];
    with_keys(table, &required, &["seed", "tick"])?;
    let tick = tick_at(table)?;
    let bound = pair_at(table, "bound")?;
    let backlog = integer_at(table, "backlog")?;
    let until = ticks_at(tick, Rounding::Up, table, "until")?;
    let seed = optional_integer_at(table, "seed")?;
    let servers = items_at(table, "server")?;
    let sources = items_at(table, "source")?;
    Ok(TypedValues {
        tick,
        bound,
        backlog,
        until,
        seed,
        servers,
        sources,
    })
}

/// Returns what the values spell, each in its range.
#[tactic(auto, unfolding(crate::specs::TopTables::spelled_by))]
fn spelled_by(values: TypedValues<'_>) -> Result<TopTable<'_>, FileKind>
    ensures value { seen top_view result ≡ spelled_by (typed_view values.entry) }
    ensures backlog { IfOk result (λ t. (1 ≤ t.backlog) × (t.backlog ≤ most_backlog)) }
    ensures until { IfOk result (λ t. (1 ≤ t.until) × (t.until ≤ clock_end)) }
    ensures sources { IfOk result (λ t. length t.sources.now.items ≤ most_sources) }
{
    let bound = bound_of(values.bound)?;
    let backlog = within(1, MAX_BACKLOG, values.backlog)?;
    let until = within(1, LIMIT, values.until)?;
    let seed = optional_within(0, MAX_SEED, values.seed)?;
    sized(0, MAX_SOURCES, values.sources)?;
    Ok(TopTable {
        tick: values.tick,
        bound,
        backlog,
        until,
        seed: seed.unwrap_or(0),
        servers: values.servers,
        sources: values.sources,
    })
}

/// Returns what the top table spells, or its first fault. The kind of the load file is tested first.
pub fn top_table(table: &Table) -> Result<TopTable<'_>, FileKind>
    ensures value { seen top_view result ≡ top_table (table_view table.now) }
    ensures backlog { IfOk result (λ t. (1 ≤ t.backlog) × (t.backlog ≤ most_backlog)) }
    ensures until { IfOk result (λ t. (1 ≤ t.until) × (t.until ≤ clock_end)) }
    ensures sources { IfOk result (λ t. length t.sources.now.items ≤ most_sources) }
{
    kind_at(table)?;
    spelled_by(typed_values(table)?)
}
