//! Files of either kind: a load has the key `load` in its top table, and a task file has not.

ghost use Rattle.std.specs.Prelude.{◌≡◌, List, ℕ, IfSome, codes, false, Ok};
ghost use Rattle.cbsrun_toml_tables.specs.Memory.{IsBounded, result_of};
ghost use Rattle.cbsrun_toml_tables.specs.Documents.{has_key, no_memory};
ghost use Rattle.cbsrun_toml_tables.specs.Fields.{Gives};
ghost use Rattle.cbsrun_tasks.specs.Spelling.{Finds, file};

use crate::file::{finish, tasks_in};
use crate::stream::{Document, read_document};
use crate::task_file::TaskFile;
use cbsrun_toml::Stop;
use cbsrun_toml_tables::{Bounded, FileFault, FileKind, Place, at, document, faulty, wants_within};
use std::alloc::Global;
use toml::Table;

/// What bytes spell.
#[derive(Drop)]
pub enum Found {
    /// A task file.
    Tasks(TaskFile),
    /// A load, by its top table.
    Load(Table),
}

/// Returns a task file as what was found.
fn tasks_found(read: Result<TaskFile, FileFault>) -> Result<Found, FileFault>
    ensures { (bytes : List ℕ) → has_key (codes "load") bytes ≡ Ok false
        → Gives no_memory (λ f. f) read (file bytes) → Finds bytes result }
{
    Ok(Found::Tasks(read?))
}

/// Returns what the bytes spell. The document must have only simple keys, and the array of the steps must stand last.
/// Returns `None` for another shape, and for a load with steps.
fn find_apart(alloc: Global, bytes: &[u8]) -> Option<Result<Found, FileFault>>
    ensures { IfSome result (Finds bytes.now) }
{
    let Ok(text) = std::str::from_utf8(bytes) else {
        return None;
    };
    match read_document(alloc, text) {
        Ok(document) => {
            if !document.table.contains_key("load") {
                return Some(tasks_found(finish(alloc, document)?));
            }
            let Document { table, read, .. } = document;
            match read {
                None => Some(Ok(Found::Load(table))),
                Some(_) => None,
            }
        }
        Err(Stop::NotToml) => Some(Err(faulty(Place::Top, FileKind::NotToml))),
        Err(Stop::OutOfMemory) => Some(Err(faulty(Place::Top, FileKind::OutOfMemory))),
        Err(Stop::Unusual) => None,
    }
}

/// Returns what the bytes spell. The whole document is held in memory.
fn find_whole(alloc: Global, bytes: &[u8]) -> Result<Found, FileFault>
    ensures { Finds bytes.now result }
{
    let table = at(Place::Top, document(alloc, bytes))?;
    if !table.contains_key("load") {
        return tasks_found(tasks_in(alloc, &table));
    }
    Ok(Found::Load(table))
}

/// Returns what the bytes spell: the task file, or the top table of a load, which has the key `load`. Reads the bytes
/// once.
///
/// The fault is that of the document or of the task file: a load is not tested further. The bound on memory is asked as
/// in [`read_file_within`](crate::read_file_within), and also for a load with steps.
pub fn find_within(alloc: Global, memory: u64, bytes: &[u8]) -> Bounded<Found>
    ensures found { Finds bytes.now (result_of result) }
    ensures bounded { IsBounded memory bytes.now result }
{
    if let Some(found) = find_apart(alloc, bytes) {
        return Bounded::InPieces(found);
    }
    if !wants_within(bytes, memory) {
        return Bounded::TooLarge;
    }
    Bounded::Whole(find_whole(alloc, bytes))
}
