//! What may be meant by a key that a table may not have: a key that other tools call so, the same key of another kind of
//! table, or a misspelt key.

use crate::keys::Subject;
use crate::nearest::nearest_key;
use crate::spot::Spot;
use cbsrun_toml_tables::optional;
use std::alloc::{AllocError, Global};
use toml::Table;

/// What may be meant by a key that a table may not have.
#[derive(Clone, Copy)]
pub enum Meant {
    /// This key, which the table lacks.
    Key(&'static str),
    /// The same key, of a table that is called so.
    Elsewhere(&'static str),
}

/// A word of other tools, and the key for it.
type Synonym = (&'static str, &'static str);

static OF_SOURCES: [Synonym; 13] = [
    ("deadline", "within"),
    ("wcet", "units"),
    ("cost", "units"),
    ("time", "units"),
    ("runtime", "units"),
    ("period", "every"),
    ("interval", "every"),
    ("offset", "first"),
    ("phase", "first"),
    ("start", "first"),
    ("count", "jobs"),
    ("arrivals", "at"),
    ("releases", "at"),
];

static OF_SERVERS: [Synonym; 4] = [
    ("runtime", "budget"),
    ("capacity", "budget"),
    ("quota", "budget"),
    ("deadline", "period"),
];

static OF_LOADS: [Synonym; 3] = [
    ("duration", "until"),
    ("end", "until"),
    ("horizon", "until"),
];

/// A kind of table, and what it is called in a file of another kind or in another table.
type Other = (Subject, &'static str);

static BESIDE_LOADS: [Other; 3] = [
    (Subject::FormatTwo, "a task file"),
    (Subject::NamedServer, "a server"),
    (Subject::Source, "a source"),
];

static BESIDE_TASKS: [Other; 2] = [
    (Subject::Load, "a load file"),
    (Subject::ModedServer, "a server"),
];

static BESIDE_RECORDS: [Other; 3] = [
    (Subject::FormatTwo, "a task file"),
    (Subject::Load, "a load file"),
    (Subject::NamedServer, "a server"),
];

static BESIDE_SUBMITS_OF_RECORDS: [Other; 1] = [(Subject::Submit, "a submit of a task file")];

static BESIDE_SERVERS_OF_LOADS: [Other; 2] = [
    (Subject::Source, "a source"),
    (Subject::Load, "the top of the file"),
];

static BESIDE_SERVERS_OF_TASKS: [Other; 2] = [
    (Subject::FormatOne, "the top of the file"),
    (Subject::NamedServer, "a server of a load file"),
];

static BESIDE_SOURCES: [Other; 2] = [
    (Subject::NamedServer, "a server"),
    (Subject::Load, "the top of the file"),
];

/// Returns the words of other tools for the keys of a kind of table.
fn synonyms(subject: Subject) -> &'static [Synonym] {
    match subject {
        Subject::Load => &OF_LOADS,
        Subject::PlainServer | Subject::ModedServer | Subject::NamedServer => &OF_SERVERS,
        Subject::Source | Subject::ListingSource => &OF_SOURCES,
        _ => &[],
    }
}

/// Returns the other kinds of tables to which a key may belong that stands in this kind of table.
fn others(subject: Subject) -> &'static [Other] {
    match subject {
        Subject::FormatOne | Subject::FormatTwo => &BESIDE_TASKS,
        Subject::Load => &BESIDE_LOADS,
        Subject::Record => &BESIDE_RECORDS,
        Subject::CountedSubmit => &BESIDE_SUBMITS_OF_RECORDS,
        Subject::PlainServer | Subject::ModedServer => &BESIDE_SERVERS_OF_TASKS,
        Subject::NamedServer => &BESIDE_SERVERS_OF_LOADS,
        Subject::Source | Subject::ListingSource => &BESIDE_SOURCES,
        _ => &[],
    }
}

/// Returns the key for a word of other tools, or `None` if there is none or the table has it.
fn synonym(subject: Subject, table: &Table, word: &str) -> Option<&'static str> {
    for synonym in synonyms(subject) {
        let (other, key) = *synonym;
        if other.eq_ignore_ascii_case(word) && optional(table, key).is_none() {
            return Some(key);
        }
    }
    None
}

/// Returns what a kind of table is called that has a key, or `None` if there is none.
fn elsewhere(subject: Subject, name: &str) -> Option<&'static str> {
    for other in others(subject) {
        let (kind, phrase) = *other;
        if kind.has_key(name) {
            return Some(phrase);
        }
    }
    None
}

/// Returns what may be meant by a key that the table may not have, or `None` if nothing is known. The only error is out
/// of memory.
pub fn meant_by(alloc: Global, spot: &Spot<'_>, key: &str) -> Result<Option<Meant>, AllocError> {
    let Some(table) = spot.table else {
        return Ok(None);
    };
    if let Some(name) = synonym(spot.subject, table, key) {
        return Ok(Some(Meant::Key(name)));
    }
    if let Some(phrase) = elsewhere(spot.subject, key) {
        return Ok(Some(Meant::Elsewhere(phrase)));
    }
    Ok(nearest_key(alloc, spot, key)?.map(Meant::Key))
}
