//! Arrays of tables, each under a header in double brackets.

ghost use Rattle.std.specs.Prelude.{◌≡◌, ℕ, ◌<◌, ◌≤◌, None, length, IfOk};
ghost use Rattle.toml.specs.Tables.{Nodes, get_node};
ghost use Rattle.cbsrun_toml.specs.Reading.{ReadsTables};

use crate::lines::{array_header, pairs};
use cbsrun_toml_tokens::{Room, Stop};
use std::alloc::Global;
use toml::Value;
use toml_parser::text::skip_blank;

/// Returns the tables of an array whose first header was read, and the text after them. The tables end at the end of
/// the text or at a header with another key.
pub fn tables<'s>(
    alloc: Global,
    room: &mut Room,
    key: &str,
    s: &'s str,
) -> Result<(Vec<Value>, &'s str), Stop>
    ensures value { (n : ℕ) (root : Nodes) → get_node key.now root ≡ None → length s.now < n
        → ReadsTables key.now n root s.now result }
    ensures within { IfOk result (λ p. length p.1.now ≤ length s.now) }
{
    let mut found = Vec::new(alloc);
    let mut rest = s;
    'tables: loop {
        let (table, after) = pairs(alloc, room, rest)?;
        let Ok(()) = found.push(Value::Table(table)) else {
            return Err(Stop::OutOfMemory);
        };
        let start = skip_blank(after, true);
        if start.is_empty() {
            return Ok((found, after));
        }
        let (next, body) = array_header(alloc, start)?;
        if next.as_str() != key {
            return Ok((found, after));
        }
        rest = body;
    }
}
