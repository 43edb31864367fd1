//! One source of a load file.

ghost use Rattle.std.specs.Prelude.{◌≡◌, ◌≤◌, ◌<◌, length, map, bytes_eq, string_bytes, IfOk, IfSome};
ghost use Rattle.std.specs.List.{position};
ghost use Rattle.toml.specs.View.{view, table_view};
ghost use Rattle.cbs_rate.specs.Limits.{most_servers};
ghost use Rattle.cbsrun_toml_tables.specs.declared.fault.FileKind.TheVariants.{OutOfMemory};
ghost use Rattle.cbsrun_toml_tables.specs.Fields.{Gives, seen, of_some};
ghost use Rattle.cbsrun_simulate.specs.Drawing.{IsListed};
ghost use Rattle.cbsrun_entries.specs.Sources.{two_numbers, two_ticks, numbers_at, optional_numbers_at, range_within, server_named, source_fields, due_within, spelled_by, terms_entry, fields_view, source_view, IsSource};

use crate::listed::{is_listing, listed_entry};
use crate::times::{optional_ticks_at, ticks};
use cbs_job::MAX_UNITS;
use cbs_rate::MAX_PERIOD;
use cbs_rules::LIMIT;
use cbsrun_simulate::{Range, SourceTerms};
use cbsrun_times::Rounding;
use cbsrun_toml_tables::{
    FileKind, all_integers, items, optional, optional_integer_at, optional_within, present,
    table_with, text_at, within,
};
use std::alloc::Global;
use toml::{Table, Value};

/// The values of a source's keys, each of its type.
#[derive(Clone, Copy)]
pub(crate) struct SourceFields<'a> {
    pub server: &'a str,
    pub first: Option<i64>,
    pub every: Option<(i64, i64)>,
    pub units: Option<(i64, i64)>,
    pub jobs: Option<i64>,
    pub within: Option<i64>,
    pub overrun: Option<Option<(i64, i64)>>,
    pub jitter: Option<i64>,
}

/// Returns two numbers of ticks, or `None` if there are fewer or more of them. Refuses a value of another type.
fn two_ticks(
    tick: Option<u64>,
    rounding: Rounding,
    values: &[Value],
) -> Result<Option<(i64, i64)>, FileKind>
    ensures { result ≡ two_ticks tick rounding (map view values.now) }
{
    let [first, second] = values else {
        all_integers(values)?;
        return Ok(None);
    };
    let least = ticks(tick, rounding, first)?;
    let greatest = ticks(tick, rounding, second)?;
    Ok(Some((least, greatest)))
}

/// Returns the least and the greatest number of ticks of a range. One number stands for both. Returns `None` for an array
/// of fewer or more than two numbers.
fn two_numbers(
    tick: Option<u64>,
    rounding: Rounding,
    value: &Value,
) -> Result<Option<(i64, i64)>, FileKind>
    ensures { result ≡ two_numbers tick rounding (view value.now) }
{
    if let Ok(values) = items(value) {
        return two_ticks(tick, rounding, values);
    }
    let number = ticks(tick, rounding, value)?;
    Ok(Some((number, number)))
}

/// Returns the least and the greatest number of ticks of the range at a key.
#[tactic(auto, unfolding(crate::specs::Sources::numbers_at))]
pub(crate) fn numbers_at(
    tick: Option<u64>,
    rounding: Rounding,
    table: &Table,
    key: &str,
) -> Result<Option<(i64, i64)>, FileKind>
    ensures { result ≡ numbers_at tick rounding key.now (table_view table.now) }
{
    two_numbers(tick, rounding, present(table, key)?)
}

/// Returns the least and the greatest number of ticks of the range at a key, or `None` if the table lacks the key.
#[tactic(auto, unfolding(crate::specs::Sources::optional_numbers_at))]
pub(crate) fn optional_numbers_at(
    tick: Option<u64>,
    rounding: Rounding,
    table: &Table,
    key: &str,
) -> Result<Option<Option<(i64, i64)>>, FileKind>
    ensures { result ≡ optional_numbers_at tick rounding key.now (table_view table.now) }
{
    match optional(table, key) {
        Some(value) => Ok(Some(two_numbers(tick, rounding, value)?)),
        None => Ok(None),
    }
}

/// Returns the range from the least to the greatest number. Refuses it unless the least is at least `low`, the greatest
/// is at most `high`, and the least is no greater than the greatest.
fn range_within(low: u64, high: u64, numbers: Option<(i64, i64)>) -> Result<Range, FileKind>
    ensures value { result ≡ range_within low high numbers }
    ensures bounds { IfOk result (λ r. (low ≤ r.least) × (r.greatest ≤ high)) }
    ensures ordered { IfOk result (λ r. r.least ≤ r.greatest) }
{
    let (least, greatest) = numbers.ok_or(FileKind::OutOfRange)?;
    let least = within(low, high, least)?;
    let greatest = within(least, high, greatest)?;
    match Range::new(least, greatest) {
        Some(range) => Ok(range),
        None => Err(FileKind::OutOfRange),
    }
}

/// Returns a range within `low` and `high`, if there are numbers. Refuses as [`range_within`] does.
fn optional_range(
    low: u64,
    high: u64,
    numbers: Option<Option<(i64, i64)>>,
) -> Result<Option<Range>, FileKind>
    ensures value { result ≡ of_some (range_within low high) numbers }
    ensures bounds { IfOk result (λ o. IfSome o (λ r. (low ≤ r.least) × (r.greatest ≤ high))) }
    ensures ordered { IfOk result (λ o. IfSome o (λ r. r.least ≤ r.greatest)) }
{
    match numbers {
        Some(numbers) => Ok(Some(range_within(low, high, numbers)?)),
        None => Ok(None),
    }
}

/// Returns the place of a name among the names, or `None` if it is not among them.
fn place_of(names: &[String], name: &str) -> Option<usize>
    ensures { result ≡ position (λ n. bytes_eq (string_bytes n) name.now) names.now }
{
    names.iter().position(|other| other.as_str() == name)
}

/// Returns the number of the server with this name. Refuses a name that no server has as out of range.
fn server_named(names: &[String], name: &str) -> Result<u16, FileKind>
    requires { length names.now ≤ most_servers }
    ensures value { result ≡ server_named (map string_bytes names.now) name.now }
    ensures within { IfOk result (λ server. server < length names.now) }
{
    match place_of(names, name) {
        Some(server) => Ok(server as u16),
        None => Err(FileKind::OutOfRange),
    }
}

/// Returns the values of an entry's keys, in a file with this tick, or the first fault over all of them. Work and jitter
/// are rounded up to ticks, and the times between jobs and within which they are wanted are rounded down.
#[tactic(auto, unfolding(crate::specs::Sources::source_fields))]
fn source_fields(tick: Option<u64>, entry: &Value) -> Result<SourceFields<'_>, FileKind>
    ensures { seen fields_view result ≡ source_fields tick (view entry.now) }
{
    let optional_keys = ["first", "jobs", "within", "overrun", "jitter"];
    let table = table_with(entry, &["server", "every", "units"], &optional_keys)?;
    let server = text_at(table, "server")?;
    let first = optional_ticks_at(tick, Rounding::Down, table, "first")?;
    let every = numbers_at(tick, Rounding::Down, table, "every")?;
    let units = numbers_at(tick, Rounding::Up, table, "units")?;
    let jobs = optional_integer_at(table, "jobs")?;
    let within = optional_ticks_at(tick, Rounding::Down, table, "within")?;
    let overrun = optional_numbers_at(tick, Rounding::Up, table, "overrun")?;
    let jitter = optional_ticks_at(tick, Rounding::Up, table, "jitter")?;
    Ok(SourceFields {
        server,
        first,
        every,
        units,
        jobs,
        within,
        overrun,
        jitter,
    })
}

/// Returns the source that the values spell, each in its range. The jitter is less than the least `every`.
#[tactic(auto, unfolding(crate::specs::Sources::spelled_by))]
pub(crate) fn spelled_by(
    names: &[String],
    fields: SourceFields<'_>,
) -> Result<SourceTerms, FileKind>
    requires { length names.now ≤ most_servers }
    ensures value { result ≡ spelled_by (map string_bytes names.now) (fields_view fields.entry) }
    ensures lawful { IfOk result (λ t. IsSource (length names.now) (due_within 0 t)) }
{
    let server = server_named(names, fields.server)?;
    let first = optional_within(0, LIMIT, fields.first)?;
    let every = range_within(1, LIMIT, fields.every)?;
    let units = range_within(1, u64::from(MAX_UNITS), fields.units)?;
    let jobs = optional_within(1, LIMIT, fields.jobs)?;
    let deadline = optional_within(1, LIMIT, fields.within)?;
    let overrun = optional_range(0, MAX_PERIOD, fields.overrun)?;
    let jitter = optional_within(0, every.least() - 1, fields.jitter)?;
    Ok(SourceTerms {
        server,
        first: first.unwrap_or(0),
        every,
        jitter: jitter.unwrap_or(0),
        units,
        jobs,
        within: deadline,
        overrun: overrun.unwrap_or(Range::fixed(0)),
    })
}

/// Returns a source with each job to be finished within so many ticks, if it does not say within how many.
pub fn due_within(ticks: u64, terms: SourceTerms) -> SourceTerms
    ensures { result ≡ due_within ticks terms }
{
    SourceTerms {
        within: Some(terms.within.unwrap_or(ticks)),
        ..terms
    }
}

/// Returns the source of one entry, in a file with servers of these names. It may not say within how many ticks its jobs
/// are to be finished.
pub fn terms_entry(
    alloc: Global,
    tick: Option<u64>,
    names: &[String],
    entry: &Value,
) -> Result<(SourceTerms, Vec<u64>), FileKind>
    requires { length names.now ≤ most_servers }
    ensures value { Gives OutOfMemory source_view result
        (terms_entry tick (map string_bytes names.now) (view entry.now)) }
    ensures lawful { IfOk result (λ s. IsSource (length names.now) (due_within 0 s.0)) }
    ensures listed { IfOk result (λ s. IsListed s.0 s.1.items) }
{
    if is_listing(entry) {
        return listed_entry(alloc, tick, names, entry);
    }
    let terms = spelled_by(names, source_fields(tick, entry)?)?;
    Ok((terms, Vec::new(alloc)))
}
