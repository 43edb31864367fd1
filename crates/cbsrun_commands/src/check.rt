//! The command `check`: from the bytes of a load, a task file or a record to a status.

ghost use Rattle.std.specs.Prelude.{◌≡◌, IfOk, Ok, codes, get_or, length, map, string_bytes};
ghost use Rattle.toml.specs.View.{table_view};
ghost use Rattle.cbsrun_sizing.specs.ServerLoads.{no_load};
ghost use Rattle.cbsrun_check_text.specs.Checks.{numbered};
ghost use Rattle.cbsrun_commands.specs.declared.check.AnyFile.{AnyFile};
ghost use Rattle.cbsrun_commands.specs.declared.check.AnyFile.TheVariants.{Tasks, Record as Recorded};
ghost use Rattle.cbsrun_toml_tables.specs.Documents.{no_memory};
ghost use Rattle.cbsrun_toml_tables.specs.Fields.{Gives};
ghost use Rattle.cbsrun_commands.specs.Outputs.{all_promised, any_file, check_command, checked_load, load_or_tasks, is_promised, ArePromised, AreSourcesPromised, IsCheckIn, IsCheckText, IsLoadCheck};
ghost use Rattle.cbsrun_commands.specs.Commands.{Does, EndsCheck};
ghost use Rattle.cbsrun_options.specs.declared.actions.Form.TheVariants.{Json};
ghost use Rattle.cbsrun_lines.specs.Writers.{MayWrite};

use crate::ending::{Stopped, print, status_of_check};
use crate::reading::record_file;
use cbs_guarantee::NotPromised;
use cbsrun_check_json::{check_json, check_plan_json};
use cbsrun_check_text::{check_load, check_plan, numbered};
use cbsrun_io::ByteOutput;
use cbsrun_loads::{Load, load_in};
use cbsrun_options::Form;
use cbsrun_records::{Record, is_record};
use cbsrun_roundings::RoundingsText;
use cbsrun_simulate::SourceTerms;
use cbsrun_sizing::{ServerLoad, is_within, server_loads};
use cbsrun_tasks::{FileFault, Found, TaskFile, find_within};
use cbsrun_toml_tables::{FileKind, Place, faulty};
use std::alloc::{AllocError, Global};
use toml::Table;

/// A file of any kind.
#[derive(Drop)]
enum AnyFile {
    /// A load, and what is told of its times that are no whole number of ticks.
    Load(Load, RoundingsText),
    /// A task file.
    Tasks(TaskFile),
    /// A record.
    Record(Record),
}

/// Returns the load that a top table spells, and what is told of its times that are no whole number of ticks; or the first
/// fault.
fn checked_load(alloc: Global, table: &Table) -> Result<AnyFile, FileFault>
    ensures { Gives no_memory (λ f. f) result (checked_load (table_view table.now)) }
{
    let load = load_in(alloc, table)?;
    let Ok(rounded) = RoundingsText::of(alloc, load.tick(), table) else {
        return Err(faulty(Place::Top, FileKind::OutOfMemory));
    };
    Ok(AnyFile::Load(load, rounded))
}

/// Returns the load or the task file that the bytes spell, or its first fault. If it has to be read as one document that
/// needs more than `memory` bytes of memory, returns out of memory.
#[tactic(auto, unfolding(crate::specs::Outputs::load_or_tasks))]
fn load_or_tasks(alloc: Global, memory: u64, bytes: &[u8]) -> Result<AnyFile, FileFault>
    ensures { Gives no_memory (λ f. f) result (load_or_tasks bytes.now) }
{
    match find_within(alloc, memory, bytes).into_result()? {
        Found::Tasks(file) => Ok(AnyFile::Tasks(file)),
        Found::Load(table) => checked_load(alloc, &table),
    }
}

/// Returns the file that the bytes spell, or its first fault. If it has to be read as one document that needs more than
/// `memory` bytes of memory, returns out of memory.
#[tactic(auto, unfolding(crate::specs::Outputs::any_file))]
fn read_any(alloc: Global, memory: u64, bytes: &[u8]) -> Result<AnyFile, FileFault>
    ensures { Gives no_memory (λ f. f) result (any_file bytes.now) }
{
    if is_record(bytes) {
        let record = record_file(alloc, memory, bytes)?;
        Ok(AnyFile::Record(record))
    } else {
        load_or_tasks(alloc, memory, bytes)
    }
}

/// Returns the text that `check` prints about a load, with what is told of its times that are no whole number of ticks.
fn load_text(alloc: Global, load: &Load, rounded: &RoundingsText) -> Result<String, AllocError>
    ensures { IfOk result (λ text. IsLoadCheck load.now rounded.now (string_bytes text)) }
{
    let mut text = check_load(alloc, load)?;
    text.push_str(rounded.text())?;
    Ok(text)
}

/// Returns names for the servers of a task file, which have no names of their own: each is the word `front` and the server's
/// number.
pub(crate) fn numbers(
    alloc: Global,
    front: &str,
    file: &TaskFile,
) -> Result<Vec<String>, AllocError>
    ensures names { IfOk result (λ names. map string_bytes names.items
        ≡ numbered front.now (length file.now.plan.rates)) }
    ensures count { IfOk result (λ names. length names.items ≡ length file.now.plan.rates) }
    ensures moded { length file.now.modes ≡ length file.now.plan.rates }
{
    // Reading the modes gives the proof that each server has one.
    let _modes = file.modes();
    numbered(alloc, front, file.plan().len() as u16)
}

/// Returns the text that `check` prints about a task file.
fn tasks_text(alloc: Global, file: &TaskFile) -> Result<String, AllocError>
    ensures { IfOk result (λ text. IsCheckText (Tasks file.now) (string_bytes text)) }
{
    let names = numbers(alloc, "server ", file)?;
    check_plan(alloc, None, &names, file.modes(), file.plan())
}

/// Returns the text that `check` prints about a record.
fn record_text(alloc: Global, record: &Record) -> Result<String, AllocError>
    ensures { IfOk result (λ text. IsCheckText (Recorded record.now) (string_bytes text)) }
{
    let names = record.names();
    check_plan(alloc, record.tick(), names, record.modes(), record.plan())
}

/// Returns the text that `check` prints about a file.
fn check_text(alloc: Global, file: &AnyFile) -> Result<String, AllocError>
    ensures { IfOk result (λ text. IsCheckText file.now (string_bytes text)) }
{
    match file {
        AnyFile::Load(load, rounded) => load_text(alloc, load, rounded),
        AnyFile::Tasks(file) => tasks_text(alloc, file),
        AnyFile::Record(record) => record_text(alloc, record),
    }
}

/// Returns what `check` tells of a task file as JSON, which names the file so.
fn tasks_object(alloc: Global, name: &str, file: &TaskFile) -> Result<String, AllocError>
    ensures { IfOk result (λ text. IsCheckIn Json name.now (Tasks file.now) (string_bytes text)) }
{
    let names = numbers(alloc, "server ", file)?;
    check_plan_json(alloc, name, &names, file.modes(), file.plan())
}

/// Returns what `check` tells of a record as JSON, which names the file so.
fn record_object(alloc: Global, name: &str, record: &Record) -> Result<String, AllocError>
    ensures { IfOk result (λ text. IsCheckIn Json name.now (Recorded record.now)
        (string_bytes text)) }
{
    let names = record.names();
    check_plan_json(alloc, name, names, record.modes(), record.plan())
}

/// Returns what `check` tells of a file as JSON, which names the file so.
fn check_object(alloc: Global, name: &str, file: &AnyFile) -> Result<String, AllocError>
    ensures { IfOk result (λ text. IsCheckIn Json name.now file.now (string_bytes text)) }
{
    match file {
        AnyFile::Load(load, _) => check_json(alloc, name, load),
        AnyFile::Tasks(file) => tasks_object(alloc, name, file),
        AnyFile::Record(record) => record_object(alloc, name, record),
    }
}

/// Returns what `check` prints about a file in this form.
fn told(alloc: Global, form: Form, name: &str, file: &AnyFile) -> Result<String, AllocError>
    ensures { IfOk result (λ text. IsCheckIn form name.now file.now (string_bytes text)) }
{
    match form {
        Form::Report => check_text(alloc, file),
        Form::Json => check_object(alloc, name, file),
    }
}

/// Returns whether so many ticks are promised that they are at most the wanted ones.
fn is_promised(promised: Result<u64, NotPromised>, within: Option<u64>) -> bool
    ensures { result ≡ is_promised promised within }
{
    match promised {
        Ok(time) => is_within(time, within),
        Err(_) => false,
    }
}

/// Returns within how many ticks the jobs of a server are promised to be finished, or why they are not.
fn promised_for(loads: &[ServerLoad], server: u16) -> Result<u64, NotPromised>
    ensures { result ≡ (get_or loads.now server no_load).promised }
{
    match loads.get(usize::from(server)) {
        Some(load) => load.promised,
        None => Ok(0),
    }
}

/// Returns whether the jobs of each source are promised to be in time, by the figures of the servers.
fn all_promised(loads: &[ServerLoad], sources: &[SourceTerms]) -> bool
    ensures { result ≡ all_promised loads.now sources.now }
{
    sources.iter().all(|source| is_promised(promised_for(loads, source.server), source.within))
}

/// Returns whether the jobs of each source of a load are promised to be in time.
fn sources_are_promised(alloc: Global, load: &Load) -> Result<bool, AllocError>
    ensures { IfOk result (AreSourcesPromised load.now) }
{
    let loads = server_loads(alloc, load)?;
    Ok(all_promised(&loads, load.sources()))
}

/// Returns whether the jobs of each source of a file are promised to be in time. Only a load has sources.
fn are_promised(alloc: Global, file: &AnyFile) -> Result<bool, AllocError>
    ensures { IfOk result (ArePromised file.now) }
{
    match file {
        AnyFile::Load(load, _) => sources_are_promised(alloc, load),
        AnyFile::Tasks(_) | AnyFile::Record(_) => Ok(true),
    }
}

/// Prints what `check` tells of the file that the bytes spell, in this form. Returns whether the jobs of each source are
/// promised to be in time.
fn check<O: ByteOutput>(
    alloc: Global,
    memory: u64,
    form: Form,
    name: &str,
    bytes: &[u8],
    out: &mut O,
) -> Result<bool, Stopped>
    requires { MayWrite (O.state out.old) }
    ensures printed { Does (check_command form name.now) bytes.now result
        (O.state out.old) (O.state out.new) }
    ensures answer { IfOk result (λ answer. (f : AnyFile) × (any_file bytes.now ≡ Ok f)
        × ArePromised f answer) }
{
    let file = read_any(alloc, memory, bytes)?;
    let text = told(alloc, form, name, &file)?;
    let promised = are_promised(alloc, &file)?;
    print(&text, out)?;
    Ok(promised)
}

/// Checks the file that the bytes spell, and prints what it holds, in this form. The bytes are a record if
/// [`is_record`] says so, a load if the top table has the key `load`, and else a task file. JSON and the explanation of a fault name the file `name`. Returns the status.
///
/// At status 0 the whole text is on `out`, or a prefix of it if a write found a closed pipe, and nothing on `err`. At
/// status 3 the file has a fault: the line of the first fault goes to `err`, with an explanation below it, and nothing to
/// `out`. Of a load, up to nine other faults are explained below that, and the last line says how many more there are.
/// At status 4 the run ended early: the line of the run fault goes to `err`, and `out` has a prefix of the text. That
/// prefix is empty unless a write failed. A line that cannot be written changes no status.
///
/// If `strict` is true, the status is 1 in the place of 0 if the jobs of a source are not promised to be in time, and a
/// closed pipe is a write that failed as any other.
///
/// A file that has to be read as one document may need `memory` bytes of memory. If it needs more, the status is 3, and the
/// line of out of memory goes to `err`.
pub fn check_bytes_within<O: ByteOutput, E: ByteOutput>(
    alloc: Global,
    memory: u64,
    form: Form,
    strict: bool,
    name: &str,
    bytes: &[u8],
    out: &mut O,
    err: &mut E,
) -> u8
    requires out { MayWrite (O.state out.old) }
    requires err { MayWrite (E.state err.old) }
    ensures { EndsCheck (check_command form name.now) ArePromised strict
        name.now bytes.now (O.closed out.new)
        (O.state out.old) (O.state out.new) (E.state err.old) (E.state err.new) result }
{
    let ended = check(alloc, memory, form, name, bytes, out);
    status_of_check(
        alloc,
        memory,
        strict,
        name,
        bytes,
        ended,
        out.is_closed(),
        err,
    )
}
