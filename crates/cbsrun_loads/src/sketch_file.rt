//! A sketch of a load, read from its bytes.

ghost use Rattle.std.specs.Prelude.{◌≡◌, ◌≤◌, ℕ, List, [], length, ltb, map, string_bytes, IfOk, OnOk};
ghost use Rattle.toml.specs.View.{view, table_view};
ghost use Rattle.cbs_rate.specs.Limits.{most_servers};
ghost use Rattle.cbsrun_toml_tables.specs.declared.fault.FileKind.TheVariants.{OutOfMemory};
ghost use Rattle.cbsrun_toml_tables.specs.declared.fault.Place.TheVariants.{Top};
ghost use Rattle.cbsrun_toml_tables.specs.Documents.{at, document, no_memory, taken_in};
ghost use Rattle.cbsrun_toml_tables.specs.Fields.{Gives};
ghost use Rattle.cbsrun_toml_tables.specs.Memory.{IsBounded, result_of};
ghost use Rattle.cbsrun_loads.specs.Sketches.{due_in, due_in_sketch, sketch, sketch_in, sketched_entry, sketched_view};

use crate::due::Due;
use crate::file::sources_of;
use crate::sketch::{Given, ServerSketch, Sketch};
use crate::sketch_server::sketch_entry;
use crate::top::top_table;
use cbs_rate::MAX_SERVERS;
use cbsrun_entries::is_taken;
use cbsrun_simulate::SourceTerms;
use cbsrun_toml_tables::{Bounded, FileFault, FileKind, Place, at, document_within, faulty};
use std::alloc::Global;
use toml::{Table, Value};

/// Returns whether there are fewer servers than one executor serves.
fn has_room(names: &[String]) -> bool
    ensures { result ≡ ltb (length names.now) most_servers }
{
    names.len() < MAX_SERVERS
}

/// Adds the name and the server of one entry. Refuses a name that another server has, and the 65th server.
fn add_entry(
    alloc: Global,
    tick: Option<u64>,
    names: &mut Vec<String>,
    servers: &mut Vec<ServerSketch>,
    entry: &Value,
) -> Result<(), FileKind>
    requires { length names.old.items ≡ length servers.old.items }
    ensures servers { Gives OutOfMemory (λ _. sketched_view names.new.items servers.new.items)
        result (sketched_entry tick (sketched_view names.old.items servers.old.items)
        (view entry.now)) }
    ensures named { OnOk result (length names.new.items ≡ length servers.new.items) }
    ensures few { OnOk result (length names.new.items ≤ most_servers) }
{
    let one = match sketch_entry(tick, entry) {
        Ok(one) => one,
        Err(kind) => return Err(kind),
    };
    if is_taken(names, one.name) {
        return Err(FileKind::OutOfRange);
    }
    if !has_room(names) {
        return Err(FileKind::NotAdmitted);
    }
    names.push(String::from_str(alloc, one.name)?)?;
    servers.push(one.server)?;
    Ok(())
}

/// Returns the names and the servers of the entries of `server`.
fn servers_of(
    alloc: Global,
    tick: Option<u64>,
    entries: &[Value],
) -> Result<(Vec<String>, Vec<ServerSketch>), FileFault>
    ensures servers { Gives no_memory (λ s. sketched_view s.0.items s.1.items) result
        (taken_in (sketched_entry tick) 0 (sketched_view [] []) (map view entries.now)) }
    ensures named { IfOk result (λ s. length s.0.items ≡ length s.1.items) }
    ensures few { IfOk result (λ s. length s.0.items ≤ most_servers) }
{
    let mut names = Vec::new(alloc);
    let mut servers = Vec::new(alloc);
    for (i, entry) in entries.iter().enumerate() {
        at(
            Place::Server(i as u64),
            add_entry(alloc, tick, &mut names, &mut servers, entry),
        )?;
    }
    Ok((names, servers))
}

/// Returns within how many ticks a source wants its jobs finished, if it does not say so. `distance` is the least number
/// of ticks to its next job.
fn due_in(given: Option<Given>, distance: u64) -> u64
    ensures { result ≡ due_in given distance }
{
    match given {
        Some(given) => given.period,
        None => distance,
    }
}

impl Due for Vec<ServerSketch> {
    ghost due = { λ servers terms. due_in_sketch servers.items terms };

    ghost servers = { λ servers. length servers.items };

    fn due(&self, terms: &SourceTerms) -> u64 {
        due_in(self[usize::from(terms.server)].given, terms.distance())
    }
}

/// Returns the sketch that the top table of a document spells, or its first fault.
#[tactic(auto, unfolding(crate::specs::Sketches::sketch_in))]
fn sketch_in(alloc: Global, table: &Table) -> Result<Sketch, FileFault>
    ensures { Gives no_memory (λ k. k) result (sketch_in (table_view table.now)) }
{
    let top = match top_table(table) {
        Ok(top) => top,
        Err(kind) => return Err(faulty(Place::Top, kind)),
    };
    let (names, servers) = servers_of(alloc, top.tick, top.servers)?;
    let (sources, listed) = sources_of(alloc, top.tick, &names, &servers, top.sources)?;
    Ok(Sketch {
        tick: top.tick,
        names,
        servers,
        bound: top.bound,
        backlog: top.backlog,
        until: top.until,
        seed: top.seed,
        sources,
        listed,
    })
}

/// Returns the sketch that a document spells, or its first fault.
fn sketch_of(alloc: Global, read: Result<Table, FileFault>) -> Result<Sketch, FileFault>
    ensures { (bytes : List ℕ) → Gives no_memory table_view read (at Top (document bytes))
        → Gives no_memory (λ k. k) result (sketch bytes) }
{
    let table = read?;
    sketch_in(alloc, &table)
}

/// Returns the sketch that the bytes spell, or its first fault, with a bound on memory.
///
/// A sketch is a load in which an entry of `server` may have neither `budget` nor `period`. The faults, and their order,
/// are those of [`read_load_within`](crate::read_load_within). Besides, one of the two keys alone is a missing key, and a
/// server is not admitted only if 64 are there: whether all fit is not asked yet. If a source has no `within`, its jobs
/// are to be finished within its server's period, or, if that is left out, before its next job may come.
pub fn read_sketch_within(alloc: Global, memory: u64, bytes: &[u8]) -> Bounded<Sketch>
    ensures read { Gives no_memory (λ k. k) (result_of result) (sketch bytes.now) }
    ensures bounded { IsBounded memory bytes.now result }
{
    match document_within(alloc, memory, bytes) {
        Bounded::InPieces(read) => Bounded::InPieces(sketch_of(alloc, read)),
        Bounded::Whole(read) => Bounded::Whole(sketch_of(alloc, read)),
        Bounded::TooLarge => Bounded::TooLarge,
    }
}
