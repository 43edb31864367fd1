//! The steps of a record, each an entry of its array.

ghost use Rattle.std.specs.Prelude.{◌≡◌, ℕ, ◌≤◌, IfOk};
ghost use Rattle.toml.specs.View.{view, table_view};
ghost use Rattle.cbs_rate.specs.Limits.{most_servers};
ghost use Rattle.cbsrun_records.specs.Entries.{submit_entry, run_entry, advance_entry, close_entry, charge_entry, step_entry};
ghost use Rattle.cbsrun_records.specs.Records.{IsEntryOf};

use cbs_job::MAX_UNITS;
use cbs_rules::LIMIT;
use cbs_tape::Entry;
use cbsrun_toml_tables::{
    FileKind, below, integer_at, members, optional_integer_at, optional_within, text_at, with_keys,
    within,
};
use toml::{Table, Value};

#[tactic(auto, unfolding(crate::specs::Entries::submit_entry))]
fn submit_entry(servers: u64, table: &Table) -> Result<Entry, FileKind>
    requires { servers ≤ most_servers }
    ensures step { result ≡ submit_entry servers (table_view table.now) }
    ensures lawful { IfOk result (IsEntryOf servers) }
{
    with_keys(table, &["op", "server", "units"], &[])?;
    let server = integer_at(table, "server")?;
    let units = integer_at(table, "units")?;
    let server = below(servers, server)?;
    let units = within(1, u64::from(MAX_UNITS), units)?;
    Ok(Entry::Accepted {
        server: server as u8,
        units: units as u32,
    })
}

#[tactic(auto, unfolding(crate::specs::Entries::run_entry))]
fn run_entry(table: &Table) -> Result<Entry, FileKind>
    ensures step { result ≡ run_entry (table_view table.now) }
    ensures lawful { (servers : ℕ) → IfOk result (IsEntryOf servers) }
{
    with_keys(table, &["op"], &["times"])?;
    let times = optional_integer_at(table, "times")?;
    let times = optional_within(1, LIMIT, times)?;
    Ok(Entry::Units(times.unwrap_or(1)))
}

#[tactic(auto, unfolding(crate::specs::Entries::advance_entry))]
fn advance_entry(table: &Table) -> Result<Entry, FileKind>
    ensures step { result ≡ advance_entry (table_view table.now) }
    ensures lawful { (servers : ℕ) → IfOk result (IsEntryOf servers) }
{
    with_keys(table, &["op", "ticks"], &[])?;
    let ticks = integer_at(table, "ticks")?;
    let ticks = within(0, LIMIT, ticks)?;
    Ok(Entry::Advanced(ticks))
}

#[tactic(auto, unfolding(crate::specs::Entries::close_entry))]
fn close_entry(servers: u64, table: &Table) -> Result<Entry, FileKind>
    requires { servers ≤ most_servers }
    ensures step { result ≡ close_entry servers (table_view table.now) }
    ensures lawful { IfOk result (IsEntryOf servers) }
{
    with_keys(table, &["op", "server"], &[])?;
    let server = integer_at(table, "server")?;
    let server = below(servers, server)?;
    Ok(Entry::Closed(server as u8))
}

#[tactic(auto, unfolding(crate::specs::Entries::charge_entry))]
fn charge_entry(servers: u64, table: &Table) -> Result<Entry, FileKind>
    requires { servers ≤ most_servers }
    ensures step { result ≡ charge_entry servers (table_view table.now) }
    ensures lawful { IfOk result (IsEntryOf servers) }
{
    with_keys(table, &["op", "server", "ticks"], &[])?;
    let server = integer_at(table, "server")?;
    let ticks = integer_at(table, "ticks")?;
    let server = below(servers, server)?;
    let ticks = within(1, LIMIT, ticks)?;
    Ok(Entry::Charged {
        server: server as u8,
        ticks,
    })
}

/// Returns the step of one entry of `step`, in a record with this many servers.
#[tactic(auto, unfolding(crate::specs::Entries::step_entry))]
pub fn step_entry(servers: u64, entry: &Value) -> Result<Entry, FileKind>
    requires { servers ≤ most_servers }
    ensures step { result ≡ step_entry servers (view entry.now) }
    ensures lawful { IfOk result (IsEntryOf servers) }
{
    let table = members(entry)?;
    match text_at(table, "op")? {
        "submit" => submit_entry(servers, table),
        "run" => run_entry(table),
        "advance" => advance_entry(table),
        "close" => close_entry(servers, table),
        "charge" => charge_entry(servers, table),
        _ => Err(FileKind::OutOfRange),
    }
}
