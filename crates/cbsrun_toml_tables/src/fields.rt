//! The tests of one table.

ghost use Rattle.std.specs.Prelude.{◌≡◌, Ok, Err, Some, None, map, option_map, IfSome, ◌≤◌, ◌<◌, IfOk, length, is_some, ◌||◌, string_bytes};
ghost use Rattle.std.specs.List.{list_all};
ghost use Rattle.std.specs.BTreeMap.{keys as map_keys};
ghost use Rattle.toml.specs.Data.{as_integer, get_member};
ghost use Rattle.toml.specs.View.{view, table_view};
ghost use Rattle.cbsrun_toml_tables.specs.Fields.{seen, is_one_of, only_keys, with_keys, table_with, present, integer, text, items, members, integer_at, text_at, items_at, pair_at, optional_integer_at, natural, within, below, all_integers, pair, number, sized, of_some, each, Gives};
ghost use Rattle.cbs_rate.specs.Limits.{greatest_number};

use crate::fault::FileKind;
use std::alloc::Global;
use toml::{Table, Value};

/// Returns the value at a key. Refuses a table that lacks the key.
pub fn present<'a>(table: &'a Table, key: &str) -> Result<&'a Value, FileKind>
    ensures { seen (λ v. view v.now) result ≡ present key.now (table_view table.now) }
{
    match table.get(key) {
        Some(value) => Ok(value),
        None => Err(FileKind::MissingKey),
    }
}

/// Returns the value at a key, or `None` if the table lacks the key.
pub fn optional<'a>(table: &'a Table, key: &str) -> Option<&'a Value>
    ensures { option_map (λ v. view v.now) result ≡ get_member key.now (table_view table.now) }
{
    table.get(key)
}

/// Returns an integer, if there is a value. Refuses a value of another type.
pub fn optional_integer(value: Option<&Value>) -> Result<Option<i64>, FileKind>
    ensures { result ≡ of_some integer (option_map (λ v. view v.now) value.entry) }
{
    match value {
        Some(value) => Ok(Some(integer(value)?)),
        None => Ok(None),
    }
}

/// Returns a number from `low` to `high`, if there is one. Refuses a number out of that range.
pub fn optional_within(low: u64, high: u64, n: Option<i64>) -> Result<Option<u64>, FileKind>
    ensures value { result ≡ of_some (within low high) n }
    ensures bounds { IfOk result (λ o. IfSome o (λ n. (low ≤ n) × (n ≤ high))) }
{
    match n {
        Some(n) => Ok(Some(within(low, high, n)?)),
        None => Ok(None),
    }
}

/// Returns an integer. Refuses a value of another type.
pub fn integer(value: &Value) -> Result<i64, FileKind>
    ensures { result ≡ integer (view value.now) }
{
    match value.as_integer() {
        Some(n) => Ok(n),
        None => Err(FileKind::WrongType),
    }
}

/// Returns a text. Refuses a value of another type.
pub fn text(value: &Value) -> Result<&str, FileKind>
    ensures { seen (λ s. s.now) result ≡ text (view value.now) }
{
    match value.as_str() {
        Some(s) => Ok(s),
        None => Err(FileKind::WrongType),
    }
}

/// Returns an array. Refuses a value of another type.
pub fn items(value: &Value) -> Result<&Vec<Value>, FileKind>
    ensures { seen (λ v. map view v.now.items) result ≡ items (view value.now) }
{
    match value.as_array() {
        Some(v) => Ok(v),
        None => Err(FileKind::WrongType),
    }
}

/// Returns a table. Refuses a value of another type.
pub fn members(value: &Value) -> Result<&Table, FileKind>
    ensures { seen (λ m. table_view m.now) result ≡ members (view value.now) }
{
    match value.as_table() {
        Some(m) => Ok(m),
        None => Err(FileKind::WrongType),
    }
}

/// Returns a number that is not negative. Refuses a negative one as out of range.
pub fn natural(n: i64) -> Result<u64, FileKind>
    ensures { result ≡ natural n }
{
    match u64::try_from(n) {
        Ok(n) => Ok(n),
        Err(_) => Err(FileKind::OutOfRange),
    }
}

/// Returns a number from `low` to `high`. Refuses any other as out of range.
pub fn within(low: u64, high: u64, n: i64) -> Result<u64, FileKind>
    ensures value { result ≡ within low high n }
    ensures bounds { IfOk result (λ n. (low ≤ n) × (n ≤ high)) }
{
    match u64::try_from(n) {
        Ok(n) if low <= n && n <= high => Ok(n),
        _ => Err(FileKind::OutOfRange),
    }
}

fn is_listed(keys: &[&str], key: &str) -> bool
    ensures { result ≡ is_one_of keys.now key.now }
{
    keys.iter().any(|listed| *listed == key)
}

fn are_listed(table: &Table, keys: &[&str]) -> bool
    ensures { result ≡ list_all (λ k. is_one_of keys.now (string_bytes k)) (map_keys table.now) }
{
    table.keys().all(|key| is_listed(keys, key.as_str()))
}

/// Tests that each key of the table is in the list.
pub fn only_keys(table: &Table, keys: &[&str]) -> Result<(), FileKind>
    ensures { result ≡ only_keys (map (λ k. k.now) keys.now) (table_view table.now) }
{
    if are_listed(table, keys) {
        Ok(())
    } else {
        Err(FileKind::UnknownKey)
    }
}

/// Returns whether the table has a key.
fn has(table: &Table, key: &str) -> bool
    ensures { result ≡ is_some (get_member key.now (table_view table.now)) }
{
    optional(table, key).is_some()
}

fn has_all(table: &Table, keys: &[&str]) -> bool
    ensures { result ≡ list_all (λ k. is_some (get_member k.now (table_view table.now))) keys.now }
{
    keys.iter().all(|key| has(table, key))
}

fn is_among(required: &[&str], optional: &[&str], key: &str) -> bool
    ensures { result ≡ (is_one_of required.now key.now || is_one_of optional.now key.now) }
{
    is_listed(required, key) || is_listed(optional, key)
}

fn are_among(table: &Table, required: &[&str], optional: &[&str]) -> bool
    ensures { result ≡ list_all (λ k. is_one_of required.now (string_bytes k)
        || is_one_of optional.now (string_bytes k)) (map_keys table.now) }
{
    table
        .keys()
        .all(|key| is_among(required, optional, key.as_str()))
}

/// Tests that the table has each of the required keys, and else only optional ones. Unknown keys are tested first.
pub fn with_keys(table: &Table, required: &[&str], optional: &[&str]) -> Result<(), FileKind>
    ensures { result ≡ with_keys (map (λ k. k.now) required.now) (map (λ k.
        k.now) optional.now) (table_view table.now) }
{
    if !are_among(table, required, optional) {
        return Err(FileKind::UnknownKey);
    }
    if !has_all(table, required) {
        return Err(FileKind::MissingKey);
    }
    Ok(())
}

/// Returns a table with these keys. Refuses a value of another type, and then as [`with_keys`] does.
#[tactic(auto, unfolding(crate::specs::Fields::table_with))]
pub fn table_with<'a>(
    value: &'a Value,
    required: &[&str],
    optional: &[&str],
) -> Result<&'a Table, FileKind>
    ensures { seen (λ m. table_view m.now) result
        ≡ table_with (map (λ k. k.now) required.now) (map (λ k.
        k.now) optional.now) (view value.now) }
{
    let table = members(value)?;
    with_keys(table, required, optional)?;
    Ok(table)
}

/// Returns the integer at a key. Refuses a table that lacks the key, and a value of another type.
#[tactic(auto, unfolding(crate::specs::Fields::integer_at))]
pub fn integer_at(table: &Table, key: &str) -> Result<i64, FileKind>
    ensures { result ≡ integer_at key.now (table_view table.now) }
{
    integer(present(table, key)?)
}

/// Returns the text at a key. Refuses as [`integer_at`] does.
#[tactic(auto, unfolding(crate::specs::Fields::text_at))]
pub fn text_at<'a>(table: &'a Table, key: &str) -> Result<&'a str, FileKind>
    ensures { seen (λ s. s.now) result ≡ text_at key.now (table_view table.now) }
{
    text(present(table, key)?)
}

/// Returns the array at a key. Refuses as [`integer_at`] does.
#[tactic(auto, unfolding(crate::specs::Fields::items_at))]
pub fn items_at<'a>(table: &'a Table, key: &str) -> Result<&'a Vec<Value>, FileKind>
    ensures { seen (λ v. map view v.now.items) result ≡ items_at key.now (table_view table.now) }
{
    items(present(table, key)?)
}

/// Returns the two integers of the array at a key, or `None` if it has fewer or more of them. Refuses as [`integer_at`]
/// does, and an element of another type.
#[tactic(auto, unfolding(crate::specs::Fields::pair_at))]
pub fn pair_at(table: &Table, key: &str) -> Result<Option<(i64, i64)>, FileKind>
    ensures { result ≡ pair_at key.now (table_view table.now) }
{
    pair(items_at(table, key)?)
}

/// Returns the integer at a key, or `None` if the table lacks the key. Refuses a value of another type.
#[tactic(auto, unfolding(crate::specs::Fields::optional_integer_at))]
pub fn optional_integer_at(table: &Table, key: &str) -> Result<Option<i64>, FileKind>
    ensures { result ≡ optional_integer_at key.now (table_view table.now) }
{
    optional_integer(optional(table, key))
}

/// Returns a number below the limit. Refuses any other as out of range.
pub fn below(limit: u64, n: i64) -> Result<u64, FileKind>
    ensures value { result ≡ below limit n }
    ensures high { IfOk result (λ n. n < limit) }
{
    match u64::try_from(n) {
        Ok(n) if n < limit => Ok(n),
        _ => Err(FileKind::OutOfRange),
    }
}

/// Tests that there are `low` to `high` values. Refuses another count as out of range.
pub fn sized(low: usize, high: usize, values: &[Value]) -> Result<(), FileKind>
    ensures { result ≡ sized low high (map view values.now) }
{
    if low <= values.len() && values.len() <= high {
        Ok(())
    } else {
        Err(FileKind::OutOfRange)
    }
}

fn are_integers(values: &[Value]) -> bool
    ensures { result ≡ list_all (λ v. is_some (as_integer (view v))) values.now }
{
    values.iter().all(|value| value.is_integer())
}

/// Tests that each value is an integer.
pub fn all_integers(values: &[Value]) -> Result<(), FileKind>
    ensures { result ≡ all_integers (map view values.now) }
{
    if are_integers(values) {
        Ok(())
    } else {
        Err(FileKind::WrongType)
    }
}

/// Returns two integers, or `None` if there are fewer or more of them. Refuses a value of another type.
pub fn pair(values: &[Value]) -> Result<Option<(i64, i64)>, FileKind>
    ensures { result ≡ pair (map view values.now) }
{
    let [first, second] = values else {
        all_integers(values)?;
        return Ok(None);
    };
    Ok(Some((integer(first)?, integer(second)?)))
}

/// Returns an integer from `low` to `high`. Refuses a value of another type, and an integer out of that range.
pub fn number(low: u64, high: u64, value: &Value) -> Result<u64, FileKind>
    ensures value { result ≡ number low high (view value.now) }
    ensures high { IfOk result (λ n. n ≤ high) }
{
    within(low, high, integer(value)?)
}

/// Returns the numbers of an array, each 0 to 2^32 - 1. Refuses as [`number`] does, or if out of memory.
pub fn units(alloc: Global, values: &[Value]) -> Result<Vec<u32>, FileKind>
    ensures value { Gives FileKind.OutOfMemory (λ v.
        v.items) result (each (number 0 greatest_number) (map view values.now)) }
    ensures len { IfOk result (λ v. length v.items ≡ length values.now) }
{
    let mut units = Vec::with_capacity(alloc, values.len())?;
    for value in values {
        units.push(number(0, 4_294_967_295, value)? as u32)?;
    }
    Ok(units)
}
