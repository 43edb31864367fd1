//! Values, arrays and inline tables.
ghost use Rattle.std.specs.Prelude.{◌≡◌, ℕ, ◌<◌, ◌≤◌, length, IfOk, IfErr};
ghost use Rattle.toml.specs.Data.{no_items};
ghost use Rattle.toml.specs.View.{view, array_view, table_view};
ghost use Rattle.toml.specs.Tables.{no_nodes, put};
ghost use Rattle.toml.specs.Parse as spec;
ghost use Rattle.toml_parser.specs.Reading.{key_view};
ghost use Rattle.cbsrun_toml.specs.Reading.{Gives, Reads, Shortens, nodes_of};
ghost use Rattle.cbsrun_toml_tokens.specs.declared.stop.Stop.TheVariants.{NotToml};

use cbsrun_toml_tokens::{PAIR, Room, Stop, atom, key_equals, simple, size_of_value};
use std::alloc::Global;
use std::collections::BTreeMap;
use toml::{Table, Value};
use toml_parser::Key;
use toml_parser::text::{first, skip, skip_blank};

/// Returns the value at the start of a text, and the text after it. Arrays and inline tables may be at most `depth`
/// deep, and no key may have dots.
#[cycle(value)]
pub fn value<'s>(
    alloc: Global,
    room: &mut Room,
    s: &'s str,
    depth: usize,
) -> Result<(Value, &'s str), Stop>
    ensures value { Reads view result (spec.val depth s.now) }
    ensures shorter { Shortens s.now result }
{
    let byte = first(s);
    let Ok(()) = room.take(size_of_value(byte)) else {
        return Err(Stop::Unusual);
    };
    if byte != b'[' && byte != b'{' {
        return atom(alloc, s);
    }
    if depth == 0 {
        return Err(Stop::NotToml);
    }
    if byte == b'[' {
        let (items, rest) = array(alloc, room, skip(s, 1), depth - 1)?;
        Ok((Value::Array(items), rest))
    } else {
        let (members, rest) = inline_table(alloc, room, skip(s, 1), depth - 1)?;
        Ok((Value::Table(members), rest))
    }
}

/// Returns the items of an array whose opening bracket was read, and the text after the array.
#[cycle(value)]
fn array<'s>(
    alloc: Global,
    room: &mut Room,
    s: &'s str,
    depth: usize,
) -> Result<(Vec<Value>, &'s str), Stop>
    ensures value { (n : ℕ) → length s.now < n
        → Reads array_view result (spec.items (spec.val depth) n no_items s.now) }
    ensures shorter { Shortens s.now result }
{
    let mut found = Vec::new(alloc);
    let mut rest = s;
    'items: loop {
        let start = skip_blank(rest, true);
        if first(start) == b']' {
            return Ok((found, skip(start, 1)));
        }
        let (item, after) = value(alloc, room, start, depth)?;
        let Ok(()) = found.push(item) else {
            return Err(Stop::OutOfMemory);
        };
        rest = after_element(after, b']')?;
    }
}

/// Returns the members of an inline table whose opening brace was read, and the text after the table.
#[cycle(value)]
fn inline_table<'s>(
    alloc: Global,
    room: &mut Room,
    s: &'s str,
    depth: usize,
) -> Result<(Table, &'s str), Stop>
    ensures value { (n : ℕ) → length s.now < n
        → Reads table_view result (spec.members (spec.val depth) n no_nodes s.now) }
    ensures shorter { Shortens s.now result }
{
    let mut found = BTreeMap::new(alloc);
    let mut rest = s;
    'members: loop {
        let start = skip_blank(rest, true);
        if first(start) == b'}' {
            return Ok((found, skip(start, 1)));
        }
        let (key, at_value) = key_equals(alloc, start)?;
        let Ok(()) = room.take(PAIR) else {
            return Err(Stop::Unusual);
        };
        let (member, after) = value(alloc, room, at_value, depth)?;
        put(&mut found, key, member)?;
        rest = after_element(after, b'}')?;
    }
}

/// Adds a pair to a table. Refuses a key with dots, and a key that the table already has.
pub fn put(table: &mut Table, key: Key, value: Value) -> Result<(), Stop>
    ensures { Gives (λ _. nodes_of (table_view table.new)) result
        (put (key_view key) (view value) (nodes_of (table_view table.old))) }
{
    let key = simple(key)?;
    if table.contains_key(key.as_str()) {
        return Err(Stop::NotToml);
    }
    match table.insert(key, value) {
        Ok(_) => Ok(()),
        Err(_) => Err(Stop::OutOfMemory),
    }
}

/// Returns the text after the comma that follows an element. If the closing bracket follows, returns the text from that
/// bracket on.
pub fn after_element(s: &str, closing: u8) -> Result<&str, Stop>
    ensures value { Gives (λ rest. rest.now) result (spec.after_element closing s.now) }
    ensures within { IfOk result (λ rest. length rest.now ≤ length s.now) }
    ensures refusal { IfErr result (λ e. e ≡ NotToml) }
{
    let rest = skip_blank(s, true);
    if first(rest) == b',' {
        Ok(skip(rest, 1))
    } else if first(rest) == closing {
        Ok(rest)
    } else {
        Err(Stop::NotToml)
    }
}
