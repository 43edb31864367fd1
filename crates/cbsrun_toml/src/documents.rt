//! Documents with simple keys: pairs, and then arrays of tables under headers in double brackets.

ghost use Rattle.std.specs.Prelude.{◌≡◌, ◌<◌, ◌≤◌, ℕ, length, List};
ghost use Rattle.toml.specs.Parse as spec;
ghost use Rattle.toml.specs.Tables.{Nodes, close};
ghost use Rattle.toml.specs.View.{table_view};
ghost use Rattle.cbsrun_toml.specs.Reading.{Gives, ReadsArrays};

use crate::lines::{array_header, pairs};
use crate::tables::tables as array_of_tables;
use cbsrun_toml_tokens::{Room, Stop};
use std::alloc::Global;
use toml::{Table, Value};
use toml_parser::text::{byte_at, first, skip_blank};

/// Returns the text after its byte order mark, or the whole text if it has none.
pub fn skip_bom(s: &str) -> &str
    ensures rest { result.now ≡ spec.skip_bom s.now }
    ensures within { length result.now ≤ length s.now }
{
    if first(s) == 0xEF && byte_at(s, 1) == 0xBB && byte_at(s, 2) == 0xBF {
        &s[3..]
    } else {
        s
    }
}

/// Adds to a table the arrays of tables of a text, up to its end or to a header with the key `last`. Returns the table,
/// and the text after that header, if it came.
pub fn arrays_before<'s>(
    alloc: Global,
    room: &mut Room,
    table: Table,
    last: &str,
    s: &'s str,
) -> Result<(Table, Option<&'s str>), Stop>
    ensures { (n : ℕ) (root : Nodes) (path : List (List ℕ)) → close root ≡ table_view table
        → length s.now < n
        → ReadsArrays last.now n (root, path) s.now result }
{
    let mut table = table;
    let mut rest = s;
    'arrays: loop {
        let start = skip_blank(rest, true);
        if start.is_empty() {
            return Ok((table, None));
        }
        let (key, body) = array_header(alloc, start)?;
        if table.contains_key(key.as_str()) {
            return Err(Stop::Unusual);
        }
        if key.as_str() == last {
            return Ok((table, Some(body)));
        }
        let (tables, after) = array_of_tables(alloc, room, key.as_str(), body)?;
        let Ok(_) = table.insert(key, Value::Array(tables)) else {
            return Err(Stop::OutOfMemory);
        };
        rest = after;
    }
}

/// Returns the top table of a text with simple keys whose headers are all in double brackets.
pub fn document(alloc: Global, s: &str) -> Result<Table, Stop>
    ensures { Gives table_view result (spec.parse_document s.now) }
{
    let mut room = Room::new();
    let (table, rest) = pairs(alloc, &mut room, skip_bom(s))?;
    // No header ends the arrays here, so one with an empty key is left to another reader.
    let (table, after_last) = arrays_before(alloc, &mut room, table, "", rest)?;
    if after_last.is_some() {
        return Err(Stop::Unusual);
    }
    Ok(table)
}
