//! Files of each kind, read within a bound on memory.

ghost use Rattle.cbsrun_tasks.specs.Spelling.{file};
ghost use Rattle.std.specs.Prelude.{◌≡◌};
ghost use Rattle.cbsrun_loads.specs.Sketches.{sketch};
ghost use Rattle.cbsrun_loads.specs.Spelling.{load};
ghost use Rattle.cbsrun_records.specs.Spelling.{record_of};
ghost use Rattle.cbsrun_commands.specs.Outputs.{changed, changed_load};
ghost use Rattle.cbsrun_toml_tables.specs.Documents.{no_memory};
ghost use Rattle.cbsrun_toml_tables.specs.Fields.{Gives};

use cbsrun_loads::{Load, Sketch, read_load_within, read_sketch_within};
use cbsrun_options::Changes;
use cbsrun_records::{Record, read_record_within};
use cbsrun_tasks::{FileFault, TaskFile, read_file_within};
use std::alloc::Global;

/// Returns the task file that the bytes spell, or its first fault. If it has to be read as one document that needs more
/// than `memory` bytes of memory, returns out of memory.
pub(crate) fn task_file(alloc: Global, memory: u64, bytes: &[u8]) -> Result<TaskFile, FileFault>
    ensures { Gives no_memory (λ f. f) result (file bytes.now) }
{
    read_file_within(alloc, memory, bytes).into_result()
}

/// Returns the load that the bytes spell, as it stands there, or its first fault. If it has to be read as one document that
/// needs more than `memory` bytes of memory, returns out of memory.
fn written_load(alloc: Global, memory: u64, bytes: &[u8]) -> Result<Load, FileFault>
    ensures { Gives no_memory (λ f. f) result (load bytes.now) }
{
    read_load_within(alloc, memory, bytes).into_result()
}

/// Returns the sketch that the bytes spell, or its first fault. If it has to be read as one document that needs more than
/// `memory` bytes of memory, returns out of memory.
pub(crate) fn sketch_file(alloc: Global, memory: u64, bytes: &[u8]) -> Result<Sketch, FileFault>
    ensures { Gives no_memory (λ k. k) result (sketch bytes.now) }
{
    read_sketch_within(alloc, memory, bytes).into_result()
}

/// Returns the record that the bytes spell, or its first fault. If it has to be read as one document that needs more than
/// `memory` bytes of memory, returns out of memory.
pub(crate) fn record_file(alloc: Global, memory: u64, bytes: &[u8]) -> Result<Record, FileFault>
    ensures { Gives no_memory (λ f. f) result (record_of bytes.now) }
{
    read_record_within(alloc, memory, bytes).into_result()
}

/// Returns a load with what takes the place of its own seed and its own end.
fn changed(load: Load, changes: Changes) -> Load
    ensures { result ≡ changed changes load }
{
    let load = match changes.seed {
        Some(seed) => load.with_seed(seed),
        None => load,
    };
    match changes.until {
        Some(until) => load.with_until(until),
        None => load,
    }
}

/// Returns the load that the bytes spell, with these changes, or its first fault. If it has to be read as one document
/// that needs more than `memory` bytes of memory, returns out of memory.
pub(crate) fn load_file(
    alloc: Global,
    memory: u64,
    changes: Changes,
    bytes: &[u8],
) -> Result<Load, FileFault>
    ensures { Gives no_memory (λ f. f) result (changed_load changes bytes.now) }
{
    match written_load(alloc, memory, bytes) {
        Ok(load) => Ok(changed(load, changes)),
        Err(fault) => Err(fault),
    }
}
