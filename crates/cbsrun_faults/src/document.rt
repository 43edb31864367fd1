//! Documents that are read again to explain a fault, and their entries.

ghost use Rattle.std.specs.Prelude.{◌≡◌, map, option_map};
ghost use Rattle.toml.specs.View.{view, table_view};
ghost use Rattle.cbsrun_faults.specs.Documents.{kind_of, IsDocument, entries_at, text_of, name_of, name_at};

use crate::refused::tick_in;
use cbsrun_toml_tables::{items_at, members, optional};
use std::alloc::{AllocError, Global};
use toml::{Table, Value};

/// The kind of a document.
#[derive(Clone, Copy, PartialEq, Eq)]
pub enum Kind {
    /// A task file of format 1.
    FormatOne,
    /// A task file of format 2.
    FormatTwo,
    /// A load file.
    Load,
    /// A record.
    Record,
}

/// Returns the kind of a document. It is a load file if it has a key `load`, and else a record if it has a key `record`.
fn kind_of(top: &Table) -> Kind
    ensures { result ≡ kind_of (table_view top.now) }
{
    if optional(top, "load").is_some() {
        return Kind::Load;
    }
    if optional(top, "record").is_some() {
        return Kind::Record;
    }
    match optional(top, "format") {
        Some(Value::Integer(1)) => Kind::FormatOne,
        _ => Kind::FormatTwo,
    }
}

/// A document that is read again to explain a fault.
#[derive(Clone, Copy)]
pub struct Document<'a> {
    /// The name of its file.
    pub name: &'a str,
    /// The text of the file.
    pub text: &'a str,
    /// The kind of the file.
    pub kind: Kind,
    /// Its top table.
    pub top: &'a Table,
    /// The nanoseconds of a tick, if the file says how long it is.
    pub tick: Option<u64>,
    /// The entries of `server`, or none if `server` is no array.
    pub servers: &'a [Value],
}

impl<'a> Document<'a> {
    /// Returns the document of a file, by its name, its text and the table that it spells.
    pub fn new(name: &'a str, text: &'a str, top: &'a Table) -> Document<'a>
        ensures document { IsDocument name.now (table_view top.now) result }
        ensures text { result.text.now ≡ text.now }
    {
        Document {
            name,
            text,
            kind: kind_of(top),
            top,
            tick: tick_in(top),
            servers: entries(top, "server"),
        }
    }

    /// Returns whether the top table has a key.
    pub fn has(self, key: &str) -> bool {
        optional(self.top, key).is_some()
    }

    /// Returns the name of the server with this number, or `None` if there is no such server or it has no name.
    pub fn server_name(self, number: usize) -> Option<&'a str>
        ensures { option_map (λ name. name.now) result
            ≡ name_at (map view self.entry.servers.now) number }
    {
        name_of(self.servers.get(number)?)
    }
}

/// Returns the entries of the array at a key, or none if there is no array.
pub(crate) fn entries<'a>(table: &'a Table, key: &str) -> &'a [Value]
    ensures { map view result.now ≡ entries_at key.now (table_view table.now) }
{
    match items_at(table, key) {
        Ok(items) => items,
        Err(_) => &[],
    }
}

/// Returns the value at a key of an entry, or `None` if the entry is no table or lacks the key.
pub(crate) fn value_at<'a>(entry: &'a Value, key: &str) -> Option<&'a Value> {
    optional(members(entry).ok()?, key)
}

/// Returns the text at a key of an entry, or `None` if the entry is no table or has no text there.
pub(crate) fn text_at<'a>(entry: &'a Value, key: &str) -> Option<&'a str>
    ensures { option_map (λ text. text.now) result ≡ text_of key.now (view entry.now) }
{
    match cbsrun_toml_tables::text_at(members(entry).ok()?, key) {
        Ok(text) => Some(text),
        Err(_) => None,
    }
}

/// Returns the name of a server, or `None` if its entry has none.
pub(crate) fn name_of(entry: &Value) -> Option<&str>
    ensures { option_map (λ name. name.now) result ≡ name_of (view entry.now) }
{
    text_at(entry, "name")
}

/// Returns the number of the first server with this name, or `None` if there is none.
pub(crate) fn server_named(servers: &[Value], name: &str) -> Option<usize> {
    for (place, entry) in servers.iter().enumerate() {
        if name_of(entry) == Some(name) {
            return Some(place);
        }
    }
    None
}

/// Returns the names of servers. The only error is out of memory.
pub fn server_names(alloc: Global, servers: &[Value]) -> Result<Vec<&str>, AllocError> {
    servers
        .iter()
        .filter_map(|entry| name_of(entry))
        .collect(alloc)
}
