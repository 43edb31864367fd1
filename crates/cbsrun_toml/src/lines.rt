//! Lines: pairs, and headers in double brackets.

ghost use Rattle.std.specs.Prelude.{◌≡◌, ℕ, [], ◌<◌, ◌≤◌, length, string_bytes, IfOk};
ghost use Rattle.toml.specs.Parse as spec;
ghost use Rattle.toml.specs.Tables.{Nodes, Document, array_table};
ghost use Rattle.cbsrun_toml.specs.Reading.{EndsPairs, IsPlace, Reads, ReadsPairs, Shortens};

use crate::values::{put, value};
use cbsrun_toml_tokens::{PAIR, Room, Stop, TABLE, dotted, ends_line, key_equals, simple};
use std::alloc::Global;
use std::collections::BTreeMap;
use toml::Table;
use toml_parser::text::{byte_at, first, skip, skip_blank, skip_ws};

/// Returns the table of the pairs at the start of a text, and the text after them. The pairs end at the end of the text
/// or at the first header.
pub fn pairs<'s>(alloc: Global, room: &mut Room, s: &'s str) -> Result<(Table, &'s str), Stop>
    ensures value { (n : ℕ) (at : Nodes → Document) → IsPlace at → length s.now < n
        → ReadsPairs n at s.now result }
    ensures within { IfOk result (λ p. length p.1.now ≤ length s.now) }
    ensures ends { IfOk result (λ p. EndsPairs p.1.now) }
{
    let Ok(()) = room.take(TABLE) else {
        return Err(Stop::Unusual);
    };
    let mut found = BTreeMap::new(alloc);
    let mut rest = s;
    'lines: loop {
        let start = skip_blank(rest, true);
        if start.is_empty() || first(start) == b'[' {
            return Ok((found, rest));
        }
        let (key, at_value) = key_equals(alloc, start)?;
        let Ok(()) = room.take(PAIR) else {
            return Err(Stop::Unusual);
        };
        let (member, after) = value(alloc, room, at_value, 80)?;
        if !ends_line(skip_ws(after)) {
            return Err(Stop::NotToml);
        }
        put(&mut found, key, member)?;
        rest = after;
    }
}

/// Returns the key of the header in double brackets at the start of a text, and the text after the header.
pub fn array_header(alloc: Global, s: &str) -> Result<(String, &str), Stop>
    ensures value { Reads (λ key. (([], string_bytes key), array_table)) result (spec.line s.now) }
    ensures shorter { Shortens s.now result }
{
    if first(s) != b'[' || byte_at(s, 1) != b'[' {
        return Err(Stop::Unusual);
    }
    let (key, closing) = dotted(alloc, skip_ws(skip(s, 2)))?;
    if first(closing) != b']' || byte_at(closing, 1) != b']' {
        return Err(Stop::NotToml);
    }
    let after = skip(closing, 2);
    if !ends_line(skip_ws(after)) {
        return Err(Stop::NotToml);
    }
    let key = simple(key)?;
    Ok((key, after))
}
