//! The entries of a task file's arrays: each is one server or one step.

ghost use Rattle.std.specs.Prelude.{◌≡◌, ℕ, ◌≤◌, length, IfOk, Err};
ghost use Rattle.cbsrun_toml_tables.specs.declared.fault.FileKind.TheVariants.{OutOfMemory};
ghost use Rattle.toml.specs.View.{view, table_view};
ghost use Rattle.cbsrun_toml_tables.specs.Fields.{Gives, seen};
ghost use Rattle.cbsrun_task_steps.specs.Entries.{IsFileStep, job_of, reserved_entry, moded_entry, server_entry, submit_fields, submit_view, submit_entry, run_entry, advance_entry, close_entry, step_entry};
ghost use Rattle.cbsrun_toml_tables.specs.Plans.{reservation};
ghost use Rattle.cbs_rate.specs.Limits.{most_servers, most_units};

use crate::format::Format;
use cbs_core::Step;
use cbs_job::{FileJob, MAX_UNITS, PeakJob, SumJob, Task};
use cbs_rate::Reservation;
use cbs_rules::Mode;
use cbsrun_toml_tables::{
    FileKind, all_integers, below, integer_at, items_at, members, mode_of, only_keys, reservation,
    sized, table_with, text_at, units, with_keys, within,
};
use std::alloc::Global;
use toml::{Table, Value};

/// One server, as its entry gives it.
#[derive(Clone, Copy)]
pub struct ServerEntry {
    pub mode: Mode,
    pub reservation: Reservation,
}

/// Returns the reservation of one entry of `server`, in a file whose servers all follow one mode.
#[tactic(auto, unfolding(crate::specs::Entries::reserved_entry))]
fn reserved_entry(entry: &Value) -> Result<Reservation, FileKind>
    ensures { result ≡ reserved_entry (view entry.now) }
{
    let table = table_with(entry, &["budget", "period"], &[])?;
    let budget = integer_at(table, "budget")?;
    let period = integer_at(table, "period")?;
    reservation(budget, period)
}

/// Returns the server of one entry of `server`, in a file in which each server has its own mode.
#[tactic(auto, unfolding(crate::specs::Entries::moded_entry))]
fn moded_entry(entry: &Value) -> Result<ServerEntry, FileKind>
    ensures { result ≡ moded_entry (view entry.now) }
{
    let table = table_with(entry, &["budget", "period", "mode"], &[])?;
    let budget = integer_at(table, "budget")?;
    let period = integer_at(table, "period")?;
    let mode = text_at(table, "mode")?;
    let reservation = reservation(budget, period)?;
    let mode = mode_of(mode)?;
    Ok(ServerEntry { mode, reservation })
}

/// Returns the server of one entry of `server`. If `mode` is given, all servers have that mode, and the entry has none.
pub fn server_entry(mode: Option<Mode>, entry: &Value) -> Result<ServerEntry, FileKind>
    ensures { result ≡ server_entry mode (view entry.now) }
{
    let Some(mode) = mode else {
        return moded_entry(entry);
    };
    let reservation = reserved_entry(entry)?;
    Ok(ServerEntry { mode, reservation })
}

/// Returns the job of this kind over the numbers.
pub(crate) fn job_of(kind: &str, numbers: Vec<u32>) -> Result<FileJob, FileKind>
    requires { length numbers.items ≤ most_units }
    ensures { result ≡ job_of kind.now numbers.items }
{
    match kind {
        "sum" => Ok(FileJob::Sum(SumJob::new(numbers))),
        "peak" => Ok(FileJob::Peak(PeakJob::new(numbers))),
        _ => Err(FileKind::OutOfRange),
    }
}

/// The keys of a submit without its `op`, each of its type.
#[derive(Clone, Copy)]
struct SubmitFields<'a> {
    server: i64,
    job: &'a str,
    units: &'a Vec<Value>,
}

#[tactic(auto, unfolding(crate::specs::Entries::submit_fields))]
fn submit_fields(table: &Table) -> Result<SubmitFields<'_>, FileKind>
    ensures { seen submit_view result ≡ submit_fields (table_view table.now) }
{
    with_keys(table, &["op", "server", "job", "units"], &[])?;
    let server = integer_at(table, "server")?;
    let job = text_at(table, "job")?;
    let units = items_at(table, "units")?;
    all_integers(units)?;
    Ok(SubmitFields { server, job, units })
}

#[tactic(auto, unfolding(crate::specs::Entries::submit_entry))]
fn submit_entry(alloc: Global, servers: u64, table: &Table) -> Result<Step<FileJob>, FileKind>
    requires { servers ≤ most_servers }
    ensures step { Gives OutOfMemory (λ s. s) result (submit_entry servers (table_view table.now)) }
    ensures named { IfOk result (IsFileStep servers) }
{
    let fields = submit_fields(table)?;
    let server = below(servers, fields.server)?;
    sized(1, MAX_UNITS as usize, fields.units)?;
    let units = units(alloc, fields.units)?;
    let job = job_of(fields.job, units)?;
    match Task::new(job) {
        Ok(task) => Ok(Step::Submit(server as u16, task)),
        Err(_) => unreachable!(),
    }
}

#[tactic(auto, unfolding(crate::specs::Entries::run_entry))]
fn run_entry(table: &Table) -> Result<Step<FileJob>, FileKind>
    ensures step { result ≡ run_entry (table_view table.now) }
    ensures named { (servers : ℕ) → IfOk result (IsFileStep servers) }
{
    only_keys(table, &["op"])?;
    Ok(Step::Run)
}

#[tactic(auto, unfolding(crate::specs::Entries::advance_entry))]
fn advance_entry(format: Format, table: &Table) -> Result<Step<FileJob>, FileKind>
    ensures step { result ≡ advance_entry format (table_view table.now) }
    ensures named { (servers : ℕ) → IfOk result (IsFileStep servers) }
{
    with_keys(table, &["op", "ticks"], &[])?;
    let ticks = integer_at(table, "ticks")?;
    let ticks = within(0, format.longest_advance(), ticks)?;
    Ok(Step::Advance(ticks))
}

#[tactic(auto, unfolding(crate::specs::Entries::close_entry))]
fn close_entry(servers: u64, table: &Table) -> Result<Step<FileJob>, FileKind>
    requires { servers ≤ most_servers }
    ensures step { result ≡ close_entry servers (table_view table.now) }
    ensures named { IfOk result (IsFileStep servers) }
{
    with_keys(table, &["op", "server"], &[])?;
    let server = integer_at(table, "server")?;
    let server = below(servers, server)?;
    Ok(Step::Close(server as u16))
}

/// Returns the step of one entry of `step`, in a file of this format with this many servers.
#[tactic(auto, unfolding(crate::specs::Entries::step_entry))]
pub fn step_entry(
    alloc: Global,
    format: Format,
    servers: u64,
    entry: &Value,
) -> Result<Step<FileJob>, FileKind>
    requires { servers ≤ most_servers }
    ensures step { Gives OutOfMemory (λ s. s) result (step_entry format servers (view entry.now)) }
    ensures named { IfOk result (IsFileStep servers) }
{
    let table = members(entry)?;
    let word = text_at(table, "op")?;
    match word {
        "submit" => submit_entry(alloc, servers, table),
        "run" => run_entry(table),
        "advance" => advance_entry(format, table),
        "close" => close_entry(servers, table),
        _ => Err(FileKind::OutOfRange),
    }
}
