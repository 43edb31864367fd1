//! The faults of a load file: the first ones, and how many there are.

ghost use Rattle.std.specs.Prelude.{◌≡◌, ◌⊎◌, ◌≤◌, length, map, string_bytes, IfOk, IfErr};
ghost use Rattle.toml.specs.View.{view, table_view};
ghost use Rattle.cbs_rate.specs.Limits.{most_servers};
ghost use Rattle.cbsrun_toml_tables.specs.declared.fault.FileKind.TheVariants.{OutOfMemory};
ghost use Rattle.cbsrun_toml_tables.specs.Fields.{Gives};
ghost use Rattle.cbsrun_loads.specs.Faults.{named_entry, server_faults, source_faults, load_faults, none_named, BeginWith};
ghost use Rattle.cbsrun_entries.specs.Noted.{AreFaults};
ghost use Rattle.cbsrun_loads.specs.Due.{due_in_plan};
ghost use Rattle.cbsrun_loads.specs.Spelling.{load_in};

use crate::due::source_entry;
use crate::file::{admit_entry, servers_of};
use crate::top::top_table;
use cbs_rate::{Bound, Plan};
use cbs_rules::Setup;
use cbsrun_entries::{Faults, is_taken, server_entry};
use cbsrun_toml_tables::{FileKind, Place};
use std::alloc::{AllocError, Global};
use toml::{Table, Value};

/// Adds the name of the server of one entry. Refuses a name that another server has. Whether the plan takes the server is
/// not asked.
fn name_entry(
    alloc: Global,
    tick: Option<u64>,
    names: &mut Vec<String>,
    entry: &Value,
) -> Result<(), FileKind>
    ensures named { Gives OutOfMemory (λ _. map string_bytes names.new.items) result
        (named_entry tick (map string_bytes names.old.items) (view entry.now)) }
    ensures kept { IfErr result (λ kind. (kind ≡ OutOfMemory)
        ⊎ (names.new.items ≡ names.old.items)) }
{
    let server = match server_entry(tick, entry) {
        Ok(server) => server,
        Err(kind) => return Err(kind),
    };
    if is_taken(names, server.name) {
        return Err(FileKind::OutOfRange);
    }
    names.push(String::from_str(alloc, server.name)?)?;
    Ok(())
}

/// Returns the faults of the entries of `server`, at most `most` of them. Up to the first faulty server each is admitted to
/// the plan, and after it none. The only error is out of memory.
fn server_faults(
    alloc: Global,
    tick: Option<u64>,
    bound: Bound,
    entries: &[Value],
    most: usize,
) -> Result<Faults, AllocError>
    ensures { IfOk result (AreFaults most (server_faults tick 0 (none_named bound)
        (map view entries.now))) }
{
    let mut names = Vec::new(alloc);
    let mut setup = Setup::new(bound);
    let mut faults = Faults::new(alloc);
    for (i, entry) in entries.iter().enumerate() {
        let read = if faults.count == 0 {
            admit_entry(alloc, tick, &mut names, &mut setup, entry)
        } else {
            name_entry(alloc, tick, &mut names, entry)
        };
        faults.note(most, Place::Server(i as u64), read.err())?;
    }
    Ok(faults)
}

/// Returns the faults of the entries of `source`, at most `most` of them, in a file with servers of these names. The only
/// error is out of memory.
fn source_faults(
    alloc: Global,
    tick: Option<u64>,
    names: &[String],
    plan: &Plan,
    entries: &[Value],
    most: usize,
) -> Result<Faults, AllocError>
    requires few { length names.now ≤ most_servers }
    requires named { length names.now ≡ length plan.now.rates }
    ensures { IfOk result (AreFaults most (source_faults tick (map string_bytes names.now)
        (due_in_plan plan.now.rates) (map view entries.now))) }
{
    let mut faults = Faults::new(alloc);
    for (i, entry) in entries.iter().enumerate() {
        let read = source_entry(alloc, tick, names, plan, entry);
        faults.note(most, Place::Source(i as u64), read.err())?;
    }
    Ok(faults)
}

/// Returns the faults of the load that the top table of a document spells: the first `most` of them, and how many there
/// are. The first is that of [`load_in`](crate::load_in), and there is none exactly if that returns a load. The only error
/// is out of memory.
///
/// A fault of the top table is told alone. Else a table with a fault is left out, and the next of the same array is
/// tested. The entries of `source` are tested only if no entry of `server` has a fault. After a faulty server, it is not
/// asked any more whether the plan takes a server.
#[tactic(auto, using(crate::proofs::Begins::begins))]
pub fn load_faults(alloc: Global, table: &Table, most: usize) -> Result<Faults, AllocError>
    ensures faults { IfOk result (AreFaults most (load_faults (table_view table.now))) }
    ensures first { BeginWith (load_in (table_view table.now))
        (load_faults (table_view table.now)) }
{
    let top = match top_table(table) {
        Ok(top) => top,
        Err(kind) => {
            let mut faults = Faults::new(alloc);
            faults.note(most, Place::Top, Some(kind))?;
            return Ok(faults);
        }
    };
    let fault = match servers_of(alloc, top.tick, top.bound, top.servers) {
        Ok((names, setup)) => {
            return source_faults(alloc, top.tick, &names, setup.plan(), top.sources, most);
        }
        Err(fault) => fault,
    };
    if fault.kind == FileKind::OutOfMemory {
        return Err(AllocError);
    }
    server_faults(alloc, top.tick, top.bound, top.servers, most)
}
