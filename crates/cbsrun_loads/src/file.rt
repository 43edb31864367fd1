//! A load file, read from its bytes.

ghost use Rattle.std.specs.Prelude.{◌≡◌, ◌≤◌, ◌⊎◌, ℕ, List, [], length, map, string_bytes, IfOk, IfErr, OnOk, All};
ghost use Rattle.toml.specs.View.{view, table_view};
ghost use Rattle.cbs_rate.specs.Limits.{most_servers};
ghost use Rattle.cbs_rules.specs.Setups.{no_servers};
ghost use Rattle.cbsrun_toml_tables.specs.declared.fault.FileKind.TheVariants.{OutOfMemory};
ghost use Rattle.cbsrun_toml_tables.specs.declared.fault.Place.TheVariants.{Top, Source as AtSource};
ghost use Rattle.cbsrun_toml_tables.specs.Documents.{at, document, no_memory, taken_in};
ghost use Rattle.cbsrun_toml_tables.specs.Fields.{Gives, each_from};
ghost use Rattle.cbsrun_toml_tables.specs.Memory.{IsBounded, result_of};
ghost use Rattle.cbsrun_entries.specs.Sources.{IsSource, sources_view};
ghost use Rattle.cbsrun_loads.specs.Due.{source_entry};
ghost use Rattle.cbsrun_simulate.specs.Drawing.{AreListed};
ghost use Rattle.cbsrun_loads.specs.Spelling.{admitted_entry, load, load_in, named_view};

use crate::due::{Due, source_entry};
use crate::load::Load;
use crate::top::top_table;
use cbs_rate::Bound;
use cbs_rules::Setup;
use cbsrun_entries::{is_taken, server_entry};
use cbsrun_simulate::SourceTerms;
use cbsrun_toml_tables::{
    Bounded, FileFault, FileKind, MEMORY, Place, at, document_within, faulty,
};
use std::alloc::Global;
use toml::{Table, Value};

/// Admits the server of one entry: adds its name, and its reservation and mode. Refuses a name that another server has,
/// and a server that the plan does not take. A refused server adds no name.
pub(crate) fn admit_entry(
    alloc: Global,
    tick: Option<u64>,
    names: &mut Vec<String>,
    setup: &mut Setup,
    entry: &Value,
) -> Result<(), FileKind>
    requires { length names.old.items ≡ length setup.old.plan.rates }
    ensures servers { Gives OutOfMemory (λ _. named_view names.new.items setup.new) result
        (admitted_entry tick (named_view names.old.items setup.old) (view entry.now)) }
    ensures named { OnOk result (length names.new.items ≡ length setup.new.plan.rates) }
    ensures kept { IfErr result (λ kind. (kind ≡ OutOfMemory)
        ⊎ (names.new.items ≡ names.old.items)) }
{
    let server = match server_entry(tick, entry) {
        Ok(server) => server,
        Err(kind) => return Err(kind),
    };
    if is_taken(names, server.name) {
        return Err(FileKind::OutOfRange);
    }
    match setup.admit(server.reservation, server.mode) {
        Ok(_) => {}
        Err(_) => return Err(FileKind::NotAdmitted),
    }
    names.push(String::from_str(alloc, server.name)?)?;
    Ok(())
}

/// Returns the names, the plan and the modes of the servers of the entries of `server`, or the first fault. Each entry is
/// tested, and then its server is admitted to the plan. A name that an earlier server has is refused as out of range.
pub fn servers_of(
    alloc: Global,
    tick: Option<u64>,
    bound: Bound,
    entries: &[Value],
) -> Result<(Vec<String>, Setup), FileFault>
    ensures servers { Gives no_memory (λ s. named_view s.0.items s.1) result
        (taken_in (admitted_entry tick) 0 (named_view [] (no_servers bound)) (map view entries.now)) }
    ensures named { IfOk result (λ s. length s.0.items ≡ length s.1.plan.rates) }
{
    let mut names = Vec::new(alloc);
    let mut setup = Setup::new(bound);
    for (i, entry) in entries.iter().enumerate() {
        at(
            Place::Server(i as u64),
            admit_entry(alloc, tick, &mut names, &mut setup, entry),
        )?;
    }
    Ok((names, setup))
}

/// Returns the sources of the entries of `source`, in a file with servers of these names: their terms, and the nominal
/// ticks that are listed of each.
pub fn sources_of<D: Due>(
    alloc: Global,
    tick: Option<u64>,
    names: &[String],
    servers: &D,
    entries: &[Value],
) -> Result<(Vec<SourceTerms>, Vec<Vec<u64>>), FileFault>
    requires few { length names.now ≤ most_servers }
    requires named { length names.now ≡ D.servers servers.now }
    ensures sources { Gives no_memory sources_view result
        (each_from 0 (λ i e. at (AtSource i) (source_entry tick (map string_bytes names.now)
        (D.due servers.now) e)) (map view entries.now)) }
    ensures lawful { IfOk result (λ s. All (IsSource (length names.now)) s.0.items) }
    ensures listed { IfOk result (λ s. AreListed s.0.items (map (λ v. v.items) s.1.items)) }
    ensures count { IfOk result (λ s. length s.0.items ≡ length entries.now) }
    ensures paired { IfOk result (λ s. length s.1.items ≡ length s.0.items) }
{
    let mut sources = Vec::new(alloc);
    let mut listed = Vec::new(alloc);
    for (i, entry) in entries.iter().enumerate() {
        let (terms, ticks) = at(
            Place::Source(i as u64),
            source_entry(alloc, tick, names, servers, entry),
        )?;
        let Ok(()) = sources.push(terms) else {
            return Err(faulty(Place::Top, FileKind::OutOfMemory));
        };
        let Ok(()) = listed.push(ticks) else {
            return Err(faulty(Place::Top, FileKind::OutOfMemory));
        };
    }
    Ok((sources, listed))
}

/// Returns the load that the top table of a document spells, or its first fault. The faults, and their order, are those
/// of [`read_load`].
#[tactic(auto, unfolding(crate::specs::Spelling::load_in))]
pub fn load_in(alloc: Global, table: &Table) -> Result<Load, FileFault>
    ensures { Gives no_memory (λ f. f) result (load_in (table_view table.now)) }
{
    let top = match top_table(table) {
        Ok(top) => top,
        Err(kind) => return Err(faulty(Place::Top, kind)),
    };
    let (names, setup) = servers_of(alloc, top.tick, top.bound, top.servers)?;
    let (sources, listed) = sources_of(alloc, top.tick, &names, setup.plan(), top.sources)?;
    Ok(Load {
        tick: top.tick,
        names,
        setup,
        backlog: top.backlog,
        until: top.until,
        seed: top.seed,
        sources,
        listed,
    })
}

/// Returns the load that a document spells, or its first fault.
fn load_of(alloc: Global, read: Result<Table, FileFault>) -> Result<Load, FileFault>
    ensures { (bytes : List ℕ) → Gives no_memory table_view read (at Top (document bytes))
        → Gives no_memory (λ f. f) result (load bytes) }
{
    let table = read?;
    load_in(alloc, &table)
}

/// Returns the load that the bytes spell, or its first fault, as [`read_load`] does, with a bound on memory.
///
/// A file with only simple keys, whose headers are all in double brackets, is read in pieces if it takes at most 64 MiB,
/// and the bound is not asked. Any other file is read as one document. If that needs more than `memory` bytes, returns
/// [`Bounded::TooLarge`], before the document is parsed.
pub fn read_load_within(alloc: Global, memory: u64, bytes: &[u8]) -> Bounded<Load>
    ensures read { Gives no_memory (λ f. f) (result_of result) (load bytes.now) }
    ensures bounded { IsBounded memory bytes.now result }
{
    match document_within(alloc, memory, bytes) {
        Bounded::InPieces(read) => Bounded::InPieces(load_of(alloc, read)),
        Bounded::Whole(read) => Bounded::Whole(load_of(alloc, read)),
        Bounded::TooLarge => Bounded::TooLarge,
    }
}

/// Returns the load that the bytes spell, or its first fault.
///
/// The bytes are parsed as TOML. Then the top table is tested, then each entry of `server` in order, then each entry of
/// `source`. Each table is tested in four turns, each over all its keys: unknown keys, missing keys, types of values,
/// ranges of values. After its tests, an entry of `server` is admitted to the plan. The key `load` of the top table is
/// tested before the other keys.
///
/// [`FileKind::OutOfMemory`] may come at any time, and its place is the top. A file that has to be read as one document
/// and then needs more than [`MEMORY`] bytes is refused so before it is parsed.
pub fn read_load(alloc: Global, bytes: &[u8]) -> Result<Load, FileFault>
    ensures read { Gives no_memory (λ f. f) result (load bytes.now) }
{
    read_load_within(alloc, MEMORY, bytes).into_result()
}
