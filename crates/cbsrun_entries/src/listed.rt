//! Sources whose nominal ticks are listed.

ghost use Rattle.std.specs.Prelude.{◌≡◌, ◌≤◌, All, IfOk, true, drop, length, map, pos, string_bytes, Some};
ghost use Rattle.toml.specs.View.{view, table_view};
ghost use Rattle.cbs_rate.specs.Limits.{most_servers};
ghost use Rattle.cbs_rules.specs.Rules.{clock_end};
ghost use Rattle.cbsrun_toml_tables.specs.declared.fault.FileKind.TheVariants.{OutOfMemory};
ghost use Rattle.cbsrun_toml_tables.specs.Fields.{Gives, each, seen};
ghost use Rattle.cbsrun_simulate.specs.Drawing.{IsListed, follow};
ghost use Rattle.cbsrun_entries.specs.Sources.{IsSource, ascending, due_within, fields_view, first_listed, greatest_gap, is_listing, least_gap, listed_entry, listed_fields, listed_range, listed_tick, listed_ticks, most_listed, source_view};

use crate::source::{SourceFields, numbers_at, optional_numbers_at, spelled_by};
use crate::times::{optional_ticks_at, ticks};
use cbs_rules::LIMIT;
use cbsrun_simulate::SourceTerms;
use cbsrun_times::Rounding;
use cbsrun_toml_tables::{
    FileKind, items_at, members, optional, sized, table_with, text_at, within,
};
use std::alloc::Global;
use toml::{Table, Value};

/// The greatest number of ticks that a source may list.
const MAX_LISTED: usize = 1_000_000;

/// Returns whether an entry lists its ticks: it is a table with the key `at`.
pub(crate) fn is_listing(entry: &Value) -> bool
    ensures { result ≡ is_listing (view entry.now) }
{
    match members(entry) {
        Ok(table) => optional(table, "at").is_some(),
        Err(_) => false,
    }
}

/// Returns one listed tick, rounded down. Refuses a value of another type, and a tick out of range.
fn listed_tick(tick: Option<u64>, value: &Value) -> Result<u64, FileKind>
    ensures value { result ≡ listed_tick tick (view value.now) }
    ensures early { IfOk result (λ n. n ≤ clock_end) }
{
    within(0, LIMIT, ticks(tick, Rounding::Down, value)?)
}

/// Returns the ticks of an array. Refuses as [`listed_tick`] does, or if out of memory.
fn each_tick(alloc: Global, tick: Option<u64>, values: &[Value]) -> Result<Vec<u64>, FileKind>
    ensures value { Gives OutOfMemory (λ v. v.items) result (each (listed_tick tick) (map view values.now)) }
    ensures early { IfOk result (λ v. All (λ n. n ≤ clock_end) v.items) }
    ensures count { IfOk result (λ v. length v.items ≡ length values.now) }
{
    let mut listed = Vec::with_capacity(alloc, values.len())?;
    for value in values {
        listed.push(listed_tick(tick, value)?)?;
    }
    Ok(listed)
}

/// Returns the first of listed ticks.
fn first_listed(listed: &[u64]) -> u64
    ensures { result ≡ first_listed listed.now }
{
    match listed.first() {
        Some(first) => *first,
        None => 0,
    }
}

/// Returns the listed ticks after the first.
fn others(listed: &[u64]) -> &[u64]
    ensures { result.now ≡ drop 1 listed.now }
{
    match listed {
        [_, others @ ..] => others,
        [] => listed,
    }
}

/// Returns whether each tick is later than the one before it, from a first one on.
fn is_ascending(first: u64, others: &[u64]) -> bool
    requires { All (λ n. n ≤ clock_end) others.now }
    ensures { result ≡ follow 1 first others.now }
{
    let mut before = first;
    for tick in others {
        if *tick <= before {
            return false;
        }
        before = *tick;
    }
    true
}

/// Refuses ticks of which one is not later than the one before it.
fn ascending(listed: &[u64]) -> Result<(), FileKind>
    requires { All (λ n. n ≤ clock_end) listed.now }
    ensures { result ≡ ascending listed.now }
{
    if is_ascending(first_listed(listed), others(listed)) {
        Ok(())
    } else {
        Err(FileKind::OutOfRange)
    }
}

/// Returns the ticks that are listed at the key `at`. Refuses a value of another type, an array of no tick or of too many,
/// a tick out of range, and one that is not later than the one before it.
#[tactic(auto, unfolding(crate::specs::Sources::listed_ticks))]
fn listed_ticks(alloc: Global, tick: Option<u64>, table: &Table) -> Result<Vec<u64>, FileKind>
    ensures value { Gives OutOfMemory (λ v. v.items) result (listed_ticks tick (table_view table.now)) }
    ensures early { IfOk result (λ v. All (λ n. n ≤ clock_end) v.items) }
    ensures few { IfOk result (λ v. length v.items ≤ most_listed) }
    ensures ascending { IfOk result (λ v. follow 1 (first_listed v.items) (drop 1 v.items) ≡ true) }
{
    let values = items_at(table, "at")?;
    sized(1, MAX_LISTED, values)?;
    let listed = each_tick(alloc, tick, values)?;
    ascending(&listed)?;
    Ok(listed)
}

/// Returns the least ticks from one listed tick to the next, after a first one.
fn least_gap(first: u64, others: &[u64]) -> u64
    ensures value { result ≡ least_gap first others.now }
    ensures small { result ≤ clock_end }
{
    let mut before = first;
    let mut least = LIMIT;
    for tick in others {
        least = least.min(tick.saturating_sub(before));
        before = *tick;
    }
    least
}

/// Returns the greatest ticks from one listed tick to the next, after a first one.
fn greatest_gap(first: u64, others: &[u64]) -> u64
    requires { All (λ n. n ≤ clock_end) others.now }
    ensures value { result ≡ greatest_gap first others.now }
    ensures small { result ≤ clock_end }
{
    let mut before = first;
    let mut greatest = 0;
    for tick in others {
        greatest = greatest.max(tick.saturating_sub(before));
        before = *tick;
    }
    greatest
}

/// Returns the values of the keys of an entry that lists these ticks, or the first fault over the others.
#[tactic(auto, unfolding(crate::specs::Sources::listed_fields))]
fn listed_fields<'a>(
    tick: Option<u64>,
    listed: &[u64],
    table: &'a Table,
) -> Result<SourceFields<'a>, FileKind>
    requires early { All (λ n. n ≤ clock_end) listed.now }
    requires few { length listed.now ≤ most_listed }
    ensures timing { IfOk result (λ f. (f.first ≡ Some (pos (first_listed listed.now)))
        × (f.every ≡ Some (listed_range listed.now))) }
    ensures value { seen fields_view result ≡ listed_fields tick listed.now (table_view table.now) }
{
    let server = text_at(table, "server")?;
    let units = numbers_at(tick, Rounding::Up, table, "units")?;
    let within = optional_ticks_at(tick, Rounding::Down, table, "within")?;
    let overrun = optional_numbers_at(tick, Rounding::Up, table, "overrun")?;
    let jitter = optional_ticks_at(tick, Rounding::Up, table, "jitter")?;
    let first = first_listed(listed);
    let others = others(listed);
    let least = least_gap(first, others);
    let greatest = least.max(greatest_gap(first, others));
    Ok(SourceFields {
        server,
        first: Some(first as i64),
        every: Some((least as i64, greatest as i64)),
        units,
        jobs: Some(listed.len() as i64),
        within,
        overrun,
        jitter,
    })
}

/// Returns the source of an entry that lists its ticks, in a file with servers of these names. It may not say within how
/// many ticks its jobs are to be finished.
#[tactic(auto, unfolding(crate::specs::Sources::listed_entry))]
pub(crate) fn listed_entry(
    alloc: Global,
    tick: Option<u64>,
    names: &[String],
    entry: &Value,
) -> Result<(SourceTerms, Vec<u64>), FileKind>
    requires { length names.now ≤ most_servers }
    ensures value { Gives OutOfMemory source_view result
        (listed_entry tick (map string_bytes names.now) (view entry.now)) }
    ensures lawful { IfOk result (λ s. IsSource (length names.now) (due_within 0 s.0)) }
    ensures listed { IfOk result (λ s. IsListed s.0 s.1.items) }
{
    let table = table_with(
        entry,
        &["server", "at", "units"],
        &["within", "overrun", "jitter"],
    )?;
    let listed = listed_ticks(alloc, tick, table)?;
    let fields = listed_fields(tick, &listed, table)?;
    let terms = spelled_by(names, fields)?;
    Ok((terms, listed))
}
