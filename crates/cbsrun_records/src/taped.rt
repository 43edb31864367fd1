//! The steps of a record that has a tape.

ghost use Rattle.std.specs.Prelude.{◌≡◌, true, ◌≤◌, IfOk, OnOk, All};
ghost use Rattle.cbs_rate.specs.Limits.{most_servers};
ghost use Rattle.cbsrun_toml_tables.specs.declared.fault.Place.TheVariants.{Step as AtStep};
ghost use Rattle.cbsrun_toml_tables.specs.Documents.{at, no_memory};
ghost use Rattle.cbsrun_toml_tables.specs.Fields.{Gives, each_from, seen};
ghost use Rattle.cbsrun_records.specs.Records.{IsEntryOf};
ghost use Rattle.cbsrun_records.specs.Taped.{cut_after, is_entry_of, taped, taped_entry};

use crate::parts::tape_of;
use cbs_job::MAX_UNITS;
use cbs_rules::LIMIT;
use cbs_tape::{Ending, Entry, read};
use cbsrun_toml_tables::{FileFault, FileKind, Place, at, faulty};
use std::alloc::{AllocError, Global};

/// Returns whether a record with this many servers may hold an entry.
fn is_entry_of(servers: u64, entry: Entry) -> bool
    ensures value { result ≡ is_entry_of servers entry }
    ensures lawful { result ≡ true → IsEntryOf servers entry }
{
    match entry {
        Entry::Accepted { server, units } => {
            u64::from(server) < servers && 1 <= units && units <= MAX_UNITS
        }
        Entry::Units(units) => 1 <= units && units <= LIMIT,
        Entry::Advanced(ticks) => ticks <= LIMIT,
        Entry::Charged { server, ticks } => {
            u64::from(server) < servers && 1 <= ticks && ticks <= LIMIT
        }
        Entry::Closed(server) => u64::from(server) < servers,
    }
}

/// Returns an entry of a tape, if a record with this many servers may hold it.
fn taped_entry(servers: u64, entry: Entry) -> Result<Entry, FileKind>
    ensures entry { result ≡ taped_entry servers entry }
    ensures lawful { OnOk result (IsEntryOf servers entry) }
{
    if is_entry_of(servers, entry) {
        Ok(entry)
    } else {
        Err(FileKind::OutOfRange)
    }
}

/// Tests the entries of a tape, in order, and returns the first fault, if there is one.
fn tested(servers: u64, entries: &[Entry]) -> Result<(), FileFault>
    ensures entries { seen (λ _. entries.now) result
        ≡ each_from 0 (λ i e. at (AtStep i) (taped_entry servers e)) entries.now }
    ensures lawful { OnOk result (All (IsEntryOf servers) entries.now) }
{
    for (i, entry) in entries.iter().enumerate() {
        let _entry = at(Place::Step(i as u64), taped_entry(servers, *entry))?;
    }
    Ok(())
}

/// Returns the steps that a tape tells, in a record with this many servers, or the first fault. A tape may be cut.
#[tactic(auto, unfolding(crate::specs::Taped::taped))]
pub(crate) fn taped_entries(
    alloc: Global,
    servers: u64,
    tape: &[u8],
) -> Result<Vec<Entry>, FileFault>
    ensures entries { Gives no_memory (λ v. v.items) result (taped servers tape.now) }
    ensures lawful { IfOk result (λ v. All (IsEntryOf servers) v.items) }
{
    let Ok(read) = read(alloc, tape) else {
        return Err(faulty(Place::Top, FileKind::OutOfMemory));
    };
    tested(servers, &read.entries)?;
    match read.ending {
        Ending::Marked | Ending::Cut => Ok(read.entries),
        Ending::Unknown => {
            let place = Place::Step(read.entries.len() as u64);
            Err(faulty(place, FileKind::OutOfRange))
        }
    }
}

/// Returns how many entries the tape of a record has, if it has one that is cut: there may have been more steps. The only
/// error is out of memory.
pub fn cut_after(alloc: Global, bytes: &[u8]) -> Result<Option<u64>, AllocError>
    ensures { IfOk result (λ cut. cut ≡ cut_after bytes.now) }
{
    let Some(tape) = tape_of(alloc, bytes)? else {
        return Ok(None);
    };
    let read = read(alloc, &tape)?;
    match read.ending {
        Ending::Cut => Ok(Some(read.entries.len() as u64)),
        Ending::Marked | Ending::Unknown => Ok(None),
    }
}
