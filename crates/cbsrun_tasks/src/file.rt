//! A task file, read from its bytes.

ghost use Rattle.std.specs.Prelude.{◌≡◌, ◌<◌, ◌≤◌, ℕ, true, List, map, Ok, IfOk, IfSome, All};
ghost use Rattle.std.specs.Str.{is_utf8};
ghost use Rattle.toml.specs.Parse.{parse_document};
ghost use Rattle.toml.specs.View.{view, table_view};
ghost use Rattle.cbsrun_toml_tables.specs.declared.fault.FileKind.TheVariants.{OutOfMemory};
ghost use Rattle.cbsrun_toml_tables.specs.declared.fault.Place.TheVariants.{Step as AtStep};
ghost use Rattle.cbsrun_task_steps.specs.Entries.{step_entry, IsFileStep};
ghost use Rattle.cbsrun_toml_tables.specs.Fields.{Gives, seen, each_from};
ghost use Rattle.cbsrun_toml_tables.specs.Memory.{IsBounded, result_of};
ghost use Rattle.cbsrun_tasks.specs.Streams.{IsDocument};
ghost use Rattle.cbsrun_tasks.specs.Spelling.{file, file_in, admitted_entry};
ghost use Rattle.cbsrun_toml_tables.specs.Documents.{document, faulty, at, no_memory, taken_in};
ghost use Rattle.cbs_rate.specs.Limits.{most_servers};
ghost use Rattle.cbs_rules.specs.Setups.{no_servers};

use crate::stream::{Document, read_document};
use crate::task_file::TaskFile;
use crate::top::top_table;
use cbs_core::Step;
use cbs_job::FileJob;
use cbs_rate::Bound;
use cbs_rules::{Mode, Setup};
use cbsrun_task_steps::{Format, server_entry, step_entry};
use cbsrun_toml::Stop;
use cbsrun_toml_tables::{
    Bounded, FileFault, FileKind, MEMORY, Place, at, document, faulty, wants_within,
};
use std::alloc::Global;
use toml::{Table, Value};

/// Admits the server of one entry. If `mode` is given, all servers have that mode, and the entry has none.
fn admit_entry(setup: &mut Setup, mode: Option<Mode>, entry: &Value) -> Result<(), FileKind>
    ensures { seen (λ _. setup.new) result ≡ admitted_entry mode setup.old (view entry.now) }
{
    let server = server_entry(mode, entry)?;
    match setup.admit(server.reservation, server.mode) {
        Ok(_) => Ok(()),
        Err(_) => Err(FileKind::NotAdmitted),
    }
}

/// Returns the servers of the entries of `server`. If `mode` is given, all servers have that mode, and the entries have
/// none.
fn setup_of(bound: Bound, mode: Option<Mode>, entries: &[Value]) -> Result<Setup, FileFault>
    ensures { result ≡ taken_in (admitted_entry mode) 0 (no_servers bound) (map view entries.now) }
{
    let mut setup = Setup::new(bound);
    for (i, entry) in entries.iter().enumerate() {
        at(
            Place::Server(i as u64),
            admit_entry(&mut setup, mode, entry),
        )?;
    }
    Ok(setup)
}

/// Returns the steps of the entries of `step`, in a file of this format with this many servers.
fn steps_of(
    alloc: Global,
    format: Format,
    servers: u64,
    entries: &[Value],
) -> Result<Vec<Step<FileJob>>, FileFault>
    requires { servers ≤ most_servers }
    ensures steps { Gives no_memory (λ v. v.items) result
        (each_from 0 (λ i entry. at (AtStep i) (step_entry format servers entry))
        (map view entries.now)) }
    ensures named { IfOk result (λ v. All (IsFileStep servers) v.items) }
{
    let mut steps = Vec::new(alloc);
    for (i, entry) in entries.iter().enumerate() {
        let step = at(
            Place::Step(i as u64),
            step_entry(alloc, format, servers, entry),
        )?;
        let Ok(()) = steps.push(step) else {
            return Err(faulty(Place::Top, FileKind::OutOfMemory));
        };
    }
    Ok(steps)
}

/// Returns the task file that a top table spells, or its first fault.
pub(crate) fn tasks_in(alloc: Global, table: &Table) -> Result<TaskFile, FileFault>
    ensures { Gives no_memory (λ f. f) result (file_in (table_view table.now)) }
{
    let top = match top_table(table) {
        Ok(top) => top,
        Err(kind) => return Err(faulty(Place::Top, kind)),
    };
    let setup = setup_of(top.bound, top.mode, top.servers)?;
    let servers = setup.plan().len() as u64;
    let steps = steps_of(alloc, top.format, servers, top.steps)?;
    Ok(TaskFile {
        setup,
        backlog: top.backlog,
        ring: top.ring,
        steps,
    })
}

/// Returns the task file that the bytes spell, or its first fault. The whole document is held in memory.
#[tactic(auto, unfolding(crate::specs::Spelling::file))]
fn read_whole(alloc: Global, bytes: &[u8]) -> Result<TaskFile, FileFault>
    ensures { Gives no_memory (λ f. f) result (file bytes.now) }
{
    let table = at(Place::Top, document(alloc, bytes))?;
    tasks_in(alloc, &table)
}

/// Returns the file of a document whose steps were read apart, or its first fault. Returns `None` if the steps were
/// read by other terms than the document sets.
pub(crate) fn finish(alloc: Global, document: Document) -> Option<Result<TaskFile, FileFault>>
    requires { IfSome document.read (λ r. All (IsFileStep document.terms.servers) r.steps.items) }
    ensures { (text : List ℕ) → is_utf8 text ≡ true
        → IsDocument document document.read (parse_document text)
        → IfSome result (λ r. Gives no_memory (λ f. f) r (file text)) }
{
    let Document {
        mut table,
        terms,
        read,
    } = document;
    let read = read?;
    let Ok(key) = String::from_str(alloc, "step") else {
        return Some(Err(faulty(Place::Top, FileKind::OutOfMemory)));
    };
    let Ok(_) = table.insert(key, Value::Array(Vec::new(alloc))) else {
        return Some(Err(faulty(Place::Top, FileKind::OutOfMemory)));
    };
    let top = match top_table(&table) {
        Ok(top) => top,
        Err(kind) => return Some(Err(faulty(Place::Top, kind))),
    };
    let setup = match setup_of(top.bound, top.mode, top.servers) {
        Ok(setup) => setup,
        Err(fault) => return Some(Err(fault)),
    };
    if !terms.are_of(top.format, setup.plan().len() as u64) {
        return None;
    }
    match read.into_steps() {
        Ok(steps) => Some(Ok(TaskFile {
            setup,
            backlog: top.backlog,
            ring: top.ring,
            steps,
        })),
        Err(fault) => Some(Err(fault)),
    }
}

/// Returns the file that the bytes spell, or its first fault. The document must have only simple keys, and the array of
/// the steps must stand last. Returns `None` for another shape.
fn read_apart(alloc: Global, bytes: &[u8]) -> Option<Result<TaskFile, FileFault>>
    ensures { IfSome result (λ r. Gives no_memory (λ f. f) r (file bytes.now)) }
{
    let Ok(text) = std::str::from_utf8(bytes) else {
        return None;
    };
    match read_document(alloc, text) {
        Ok(document) => finish(alloc, document),
        Err(Stop::NotToml) => Some(Err(faulty(Place::Top, FileKind::NotToml))),
        Err(Stop::OutOfMemory) => Some(Err(faulty(Place::Top, FileKind::OutOfMemory))),
        Err(Stop::Unusual) => None,
    }
}

/// Returns the task file that the bytes spell, or its first fault, as [`read_file`] does, with a bound on memory.
///
/// A file with only simple keys whose steps stand last is read piece by piece, and the bound is not asked. Any other
/// file is read as one document. If that needs more than `memory` bytes, returns [`Bounded::TooLarge`], before the
/// document is parsed.
pub fn read_file_within(alloc: Global, memory: u64, bytes: &[u8]) -> Bounded<TaskFile>
    ensures read { Gives no_memory (λ f. f) (result_of result) (file bytes.now) }
    ensures bounded { IsBounded memory bytes.now result }
{
    if let Some(read) = read_apart(alloc, bytes) {
        return Bounded::InPieces(read);
    }
    if !wants_within(bytes, memory) {
        return Bounded::TooLarge;
    }
    Bounded::Whole(read_whole(alloc, bytes))
}

/// Returns the task file that the bytes spell, or its first fault.
///
/// The bytes are parsed as TOML. Then the top table is tested, then each entry of `server` in order, then each entry of
/// `step`. Each table is tested in four turns, each over all its keys: unknown keys, missing keys, types of values,
/// ranges of values. After its tests, an entry of `server` is admitted to the plan. The `format` of the top table and
/// the `op` of a step are tested before the other keys.
///
/// [`FileKind::OutOfMemory`] may come at any time, and its place is the top. A file that has to be read as one document
/// and then needs more than [`MEMORY`] bytes is refused so before it is parsed.
pub fn read_file(alloc: Global, bytes: &[u8]) -> Result<TaskFile, FileFault>
    ensures read { Gives no_memory (λ f. f) result (file bytes.now) }
{
    read_file_within(alloc, MEMORY, bytes).into_result()
}
