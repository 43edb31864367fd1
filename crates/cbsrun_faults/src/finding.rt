//! The subject of a fault: the first key that fails.

use crate::document::{name_of, server_named, value_at};
use crate::keys::{Key, Subject};
use crate::spot::Spot;
use crate::wants::test;
use cbsrun_toml_tables::{FileKind, Place, optional};
use toml::{Table, Value};

/// The subject of a fault.
#[derive(Clone, Copy)]
pub enum Finding<'a> {
    /// A key that a table may not have.
    Unknown(&'a str, &'a Value),
    /// A key that is missing.
    Missing(Key),
    /// A value of a wrong type.
    WrongType(Key, &'a Value),
    /// A value that is out of range.
    OutOfRange(Key, &'a Value),
    /// A name that an earlier server has, with the number of that server.
    Taken(&'a Value, usize),
    /// An entry that is no table.
    NoTable(&'a Value),
}

/// Returns the fault of a key, or `None` if it has none.
fn fault_of(key: Key, table: &Table, spot: &Spot<'_>) -> Option<FileKind> {
    match optional(table, key.name) {
        Some(value) => test(key, value, spot).err(),
        None if key.required => Some(FileKind::MissingKey),
        None => None,
    }
}

/// Returns the first key with a fault of this kind, or `None` if there is none.
fn first_key(kind: FileKind, table: &Table, spot: &Spot<'_>) -> Option<Key> {
    for key in spot.subject.keys() {
        if fault_of(*key, table, spot) == Some(kind) {
            return Some(*key);
        }
    }
    None
}

/// Returns the first key that a table may not have, or `None` if there is none.
fn unknown<'a>(table: &'a Table, subject: Subject) -> Option<Finding<'a>> {
    for (name, value) in table.iter() {
        if !subject.has_key(name.as_str()) {
            return Some(Finding::Unknown(name.as_str(), value));
        }
    }
    None
}

/// Returns the number of the first server with the name of an entry, or `None` if there is none.
fn first_of_name(servers: &[Value], entry: &Value) -> Option<usize> {
    server_named(servers, name_of(entry)?)
}

/// Returns the name of a server, if an earlier server has the same name.
fn taken<'a>(spot: &Spot<'a>) -> Option<Finding<'a>> {
    let Place::Server(number) = spot.place else {
        return None;
    };
    let entry = spot.entry?;
    let other = first_of_name(spot.document.servers, entry)?;
    if other as u64 >= number {
        return None;
    }
    Some(Finding::Taken(value_at(entry, "name")?, other))
}

/// Returns the subject of a fault of this kind. `key` is the first key with such a fault.
fn found<'a>(kind: FileKind, table: &'a Table, key: Key) -> Option<Finding<'a>> {
    if kind == FileKind::MissingKey {
        return Some(Finding::Missing(key));
    }
    let value = optional(table, key.name)?;
    match kind {
        FileKind::WrongType => Some(Finding::WrongType(key, value)),
        FileKind::OutOfRange => Some(Finding::OutOfRange(key, value)),
        _ => None,
    }
}

/// Returns the subject of a fault of this kind, or `None` if it cannot be found.
pub fn find<'a>(kind: FileKind, spot: &Spot<'a>) -> Option<Finding<'a>> {
    let Some(table) = spot.table else {
        return Some(Finding::NoTable(spot.entry?));
    };
    if kind == FileKind::UnknownKey {
        return unknown(table, spot.subject);
    }
    match first_key(kind, table, spot) {
        Some(key) => found(kind, table, key),
        None if kind == FileKind::OutOfRange => taken(spot),
        None => None,
    }
}
