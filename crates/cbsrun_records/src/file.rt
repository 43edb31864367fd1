//! A record, read from its bytes.

ghost use Rattle.std.specs.Prelude.{◌≡◌, ◌≤◌, ℕ, List, map, option_map, IfOk, All};
ghost use Rattle.toml.specs.View.{view, table_view};
ghost use Rattle.cbs_rate.specs.Limits.{most_servers};
ghost use Rattle.cbsrun_toml_tables.specs.declared.fault.Place.TheVariants.{Top, Step as AtStep};
ghost use Rattle.cbsrun_toml_tables.specs.Documents.{at, document, no_memory};
ghost use Rattle.cbsrun_toml_tables.specs.Fields.{Gives, each_from};
ghost use Rattle.cbsrun_toml_tables.specs.Memory.{IsBounded, result_of};
ghost use Rattle.cbsrun_records.specs.Entries.{step_entry};
ghost use Rattle.cbsrun_records.specs.Records.{IsEntryOf};
ghost use Rattle.cbsrun_records.specs.Parts.{text_of};
ghost use Rattle.cbsrun_records.specs.Spelling.{record_in, record_of, steps_in};

use crate::entries::step_entry;
use crate::parts::{tape_of, text_of};
use crate::record::Record;
use crate::taped::taped_entries;
use crate::top::top_table;
use cbs_tape::Entry;
use cbsrun_loads::servers_of;
use cbsrun_toml_tables::{
    Bounded, FileFault, FileKind, MEMORY, Place, at, document_within, faulty,
};
use std::alloc::Global;
use toml::{Table, Value};

/// Returns the steps of the entries of `step`, in a record with this many servers.
fn entries_of(alloc: Global, servers: u64, steps: &[Value]) -> Result<Vec<Entry>, FileFault>
    requires { servers ≤ most_servers }
    ensures entries { Gives no_memory (λ v. v.items) result
        (each_from 0 (λ i e. at (AtStep i) (step_entry servers e)) (map view steps.now)) }
    ensures lawful { IfOk result (λ v. All (IsEntryOf servers) v.items) }
{
    let mut entries = Vec::new(alloc);
    for (i, step) in steps.iter().enumerate() {
        let entry = at(Place::Step(i as u64), step_entry(servers, step))?;
        let Ok(()) = entries.push(entry) else {
            return Err(faulty(Place::Top, FileKind::OutOfMemory));
        };
    }
    Ok(entries)
}

/// Returns the steps of a record with this many servers: those of its entries of `step`, or those that its tape tells.
fn steps_in(
    alloc: Global,
    servers: u64,
    steps: &[Value],
    tape: Option<&[u8]>,
) -> Result<Vec<Entry>, FileFault>
    requires { servers ≤ most_servers }
    ensures entries { Gives no_memory (λ v. v.items) result
        (steps_in servers (map view steps.now) (option_map (λ tape. tape.now) tape.entry)) }
    ensures lawful { IfOk result (λ v. All (IsEntryOf servers) v.items) }
{
    match tape {
        None => entries_of(alloc, servers, steps),
        Some(tape) => taped_entries(alloc, servers, tape),
    }
}

/// Returns the record that the top table of a document spells, with this tape, if it has one, or its first fault. The
/// faults, and their order, are those of [`read_record`].
#[tactic(auto, unfolding(crate::specs::Spelling::record_in))]
pub fn record_in(alloc: Global, tape: Option<&[u8]>, table: &Table) -> Result<Record, FileFault>
    ensures { Gives no_memory (λ f. f) result
        (record_in (option_map (λ tape. tape.now) tape.entry) (table_view table.now)) }
{
    let top = match top_table(tape.is_some(), table) {
        Ok(top) => top,
        Err(kind) => return Err(faulty(Place::Top, kind)),
    };
    let (names, setup) = servers_of(alloc, top.tick, top.bound, top.servers)?;
    let servers = setup.plan().len() as u64;
    let entries = steps_in(alloc, servers, top.steps, tape)?;
    Ok(Record {
        tick: top.tick,
        names,
        setup,
        backlog: top.backlog,
        entries,
    })
}

/// Returns the record that the bytes spell, whose text was read as this document, or its first fault.
fn record_read(
    alloc: Global,
    bytes: &[u8],
    read: Result<Table, FileFault>,
) -> Result<Record, FileFault>
    ensures { Gives no_memory table_view read (at Top (document (text_of bytes.now)))
        → Gives no_memory (λ f. f) result (record_of bytes.now) }
{
    let table = read?;
    let Ok(tape) = tape_of(alloc, bytes) else {
        return Err(faulty(Place::Top, FileKind::OutOfMemory));
    };
    match tape {
        Some(tape) => record_in(alloc, Some(&tape), &table),
        None => record_in(alloc, None, &table),
    }
}

/// Returns the record that the bytes spell, or its first fault, as [`read_record`] does, with a bound on memory.
///
/// A file with only simple keys, whose headers are all in double brackets, is read in pieces if it takes at most 64 MiB,
/// and the bound is not asked. Any other file is read as one document. If that needs more than `memory` bytes, returns
/// [`Bounded::TooLarge`], before the document is parsed.
pub fn read_record_within(alloc: Global, memory: u64, bytes: &[u8]) -> Bounded<Record>
    ensures read { Gives no_memory (λ f. f) (result_of result) (record_of bytes.now) }
    ensures bounded { IsBounded memory (text_of bytes.now) result }
{
    match document_within(alloc, memory, text_of(bytes)) {
        Bounded::InPieces(read) => Bounded::InPieces(record_read(alloc, bytes, read)),
        Bounded::Whole(read) => Bounded::Whole(record_read(alloc, bytes, read)),
        Bounded::TooLarge => Bounded::TooLarge,
    }
}

/// Returns the record that the bytes spell, or its first fault.
///
/// The bytes up to the first byte 3 are parsed as TOML. If there is such a byte, blocks with the tape stand after it
/// ([`cbs_sums`]): then the top table has no key `step`, and the tape tells the steps. Then the top table is tested, then
/// each entry of `server` in order, then each entry of `step`. Each table is tested in four turns, each over all its
/// keys: unknown keys, missing keys, types of values, ranges of values. After its tests, an entry of `server` is admitted
/// to the plan. The key `record` of the top table and the `op` of a step are tested before the other keys.
///
/// An entry of a tape has to be one that `step` could have, and its place is its number. Bytes that are no entry, and a
/// block whose length or sum is wrong, are a fault at the place after the last one. A tape may be cut: the steps before
/// the cut are those of the record.
///
/// [`FileKind::OutOfMemory`] may come at any time, and its place is the top. A file that has to be read as one document
/// and then needs more than [`MEMORY`] bytes is refused so before it is parsed.
pub fn read_record(alloc: Global, bytes: &[u8]) -> Result<Record, FileFault>
    ensures read { Gives no_memory (λ f. f) result (record_of bytes.now) }
{
    read_record_within(alloc, MEMORY, bytes).into_result()
}
