//! Tests of whether a value is what its key needs.

use crate::document::server_named;
use crate::keys::{EVERY, Key, Want};
use crate::spot::Spot;
use cbs_job::MAX_UNITS;
use cbs_rate::MAX_PERIOD;
use cbs_rules::LIMIT;
use cbsrun_loads::ticks;
use cbsrun_times::{Rounding, tick_of};
use cbsrun_toml_tables::{
    FileKind, all_integers, below, bound_of, integer, items, number, optional, pair, sized, text,
    within,
};
use toml::{Table, Value};

/// The greatest number of a unit.
pub const MAX_NUMBER: u64 = 4_294_967_295;

/// The greatest number of ticks that a source may list.
const MAX_LISTED: usize = 1_000_000;

/// The longest name of a server, in bytes.
const MAX_NAME: usize = 32;

/// Returns whether a text is a name: 1 to [`MAX_NAME`] letters, digits, `-` and `_`.
fn is_name(name: &str) -> bool {
    let bytes = name.as_bytes();
    !bytes.is_empty()
        && bytes.len() <= MAX_NAME
        && bytes.iter().all(|byte| byte.is_ascii_alphanumeric() || *byte == b'-' || *byte == b'_')
}

/// Returns the period of a table, in a file with this tick, or `None` if it is no period.
pub(crate) fn period_of(tick: Option<u64>, table: &Table) -> Option<u64> {
    let period = ticks(tick, Rounding::Whole, optional(table, "period")?).ok()?;
    within(1, MAX_PERIOD, period).ok()
}

/// Returns the whole number of a key, in a file with this tick: an integer, or the ticks of a time.
fn whole(tick: Option<u64>, key: Key, value: &Value) -> Result<i64, FileKind> {
    match key.rounding() {
        Some(rounding) => ticks(tick, rounding, value),
        None => integer(value),
    }
}

/// Returns the place, from 1, of the first value that is no number of a unit, or `None` if there is none.
pub fn first_bad_unit(values: &[Value]) -> Option<usize> {
    for (place, value) in values.iter().enumerate() {
        if number(0, MAX_NUMBER, value).is_err() {
            return Some(place + 1);
        }
    }
    None
}

/// Returns the least and the greatest number of a range, in a file with this tick. One number stands for both.
pub fn two_numbers(tick: Option<u64>, key: Key, value: &Value) -> Result<(i64, i64), FileKind> {
    let Ok(values) = items(value) else {
        let number = whole(tick, key, value)?;
        return Ok((number, number));
    };
    let [least, greatest] = values.as_slice() else {
        all_integers(values)?;
        return Err(FileKind::OutOfRange);
    };
    Ok((whole(tick, key, least)?, whole(tick, key, greatest)?))
}

/// Returns one listed tick, rounded down, in a file with this tick.
fn listed_tick(tick: Option<u64>, value: &Value) -> Result<u64, FileKind> {
    within(0, LIMIT, ticks(tick, Rounding::Down, value)?)
}

/// Returns the least ticks from one listed tick to the next, or `None` if one is no number of ticks.
fn least_gap(tick: Option<u64>, values: &[Value]) -> Option<u64> {
    let mut before = None;
    let mut least = LIMIT;
    for value in values {
        let listed = listed_tick(tick, value).ok()?;
        if let Some(before) = before {
            least = least.min(listed.saturating_sub(before));
        }
        before = Some(listed);
    }
    Some(least)
}

/// Returns the least ticks from one job of a table to the next, in a file with this tick, or `None` if that is no number of
/// ticks.
fn least_every(tick: Option<u64>, table: &Table) -> Option<u64> {
    if let Some(listed) = optional(table, "at") {
        return least_gap(tick, listed.as_array()?);
    }
    let every = two_numbers(tick, EVERY, optional(table, "every")?).ok()?;
    within(1, LIMIT, every.0).ok()
}

/// Returns the greatest jitter that a table may have, in a file with this tick: one tick less than the least to the next
/// job. Returns `None` if that is no number of ticks.
pub(crate) fn most_jitter_of(tick: Option<u64>, table: &Table) -> Option<u64> {
    Some(least_every(tick, table)?.saturating_sub(1))
}

/// Returns the place, from 1, of the first value that is no tick to list: one out of range, or not later than the value
/// before it. Returns `None` if there is none.
pub fn first_bad_tick(tick: Option<u64>, values: &[Value]) -> Option<usize> {
    let mut least = 0;
    for (place, value) in values.iter().enumerate() {
        match listed_tick(tick, value) {
            Ok(listed) if listed >= least => least = listed.saturating_add(1),
            _ => return Some(place + 1),
        }
    }
    None
}

/// Tests that a value is an array of ticks, each later than the one before it.
fn test_listed(tick: Option<u64>, value: &Value) -> Result<(), FileKind> {
    let values = items(value)?;
    sized(1, MAX_LISTED, values)?;
    for value in values {
        listed_tick(tick, value)?;
    }
    hold(first_bad_tick(tick, values).is_none())
}

/// Tests that two numbers are a range from `low` to `high`.
fn test_range(low: u64, high: u64, numbers: (i64, i64)) -> Result<(), FileKind> {
    let (least, greatest) = numbers;
    let least = within(low, high, least)?;
    within(least, high, greatest)?;
    Ok(())
}

/// Tests that a number is a budget. If the period is no valid period, tests the budget without it.
fn test_budget(budget: i64, period: Option<u64>) -> Result<(), FileKind> {
    within(1, period.unwrap_or(u64::MAX), budget)?;
    Ok(())
}

/// Tests that a number is a jitter. If the ticks between jobs are not valid, tests the jitter without them.
fn test_jitter(jitter: i64, most: Option<u64>) -> Result<(), FileKind> {
    within(0, most.unwrap_or(u64::MAX), jitter)?;
    Ok(())
}

/// Tests that a value is an array of the numbers of a job's units.
fn test_units(value: &Value) -> Result<(), FileKind> {
    let values = items(value)?;
    all_integers(values)?;
    sized(1, MAX_UNITS as usize, values)?;
    if first_bad_unit(values).is_some() {
        return Err(FileKind::OutOfRange);
    }
    Ok(())
}

/// Returns an error unless `holds` is true.
fn hold(holds: bool) -> Result<(), FileKind> {
    if holds {
        Ok(())
    } else {
        Err(FileKind::OutOfRange)
    }
}

/// Tests that a number is one from `least` to `greatest`.
fn test_number(least: u64, greatest: u64, number: i64) -> Result<(), FileKind> {
    within(least, greatest, number)?;
    Ok(())
}

/// Tests that a value is the number of a server.
fn test_server(servers: &[Value], value: &Value) -> Result<(), FileKind> {
    below(servers.len() as u64, integer(value)?)?;
    Ok(())
}

/// Tests that a value is one of these words.
fn test_word(words: &[&str], value: &Value) -> Result<(), FileKind> {
    hold(words.contains(&text(value)?))
}

/// Tests that a value is a name.
fn test_name(value: &Value) -> Result<(), FileKind> {
    hold(is_name(text(value)?))
}

/// Tests that a value is the name of a server.
fn test_server_name(servers: &[Value], value: &Value) -> Result<(), FileKind> {
    hold(server_named(servers, text(value)?).is_some())
}

/// Tests that a value is a bound.
fn test_bound(value: &Value) -> Result<(), FileKind> {
    bound_of(pair(items(value)?)?)?;
    Ok(())
}

/// Tests that a value is an array of at most so many entries.
fn test_count(most: u64, value: &Value) -> Result<(), FileKind> {
    hold(items(value)?.len() as u64 <= most)
}

/// Tests that a value is the length of a tick.
fn test_tick(value: &Value) -> Result<(), FileKind> {
    hold(tick_of(text(value)?).is_some())
}

/// Tests that a value of a table is what its key needs.
pub(crate) fn test(key: Key, value: &Value, spot: &Spot<'_>) -> Result<(), FileKind> {
    let servers = spot.document.servers;
    let tick = spot.document.tick;
    match key.want {
        Want::Number(least, greatest) => test_number(least, greatest, whole(tick, key, value)?),
        Want::Budget => test_budget(whole(tick, key, value)?, spot.period()),
        Want::Jitter => test_jitter(whole(tick, key, value)?, spot.most_jitter()),
        Want::Server => test_server(servers, value),
        Want::Range(least, greatest) => {
            test_range(least, greatest, two_numbers(tick, key, value)?)
        }
        Want::Tick => test_tick(value),
        Want::Word(words) => test_word(words.list(), value),
        Want::Name => test_name(value),
        Want::ServerName => test_server_name(servers, value),
        Want::Bound => test_bound(value),
        Want::Tables(most) => test_count(most, value),
        Want::Units => test_units(value),
        Want::Listed => test_listed(tick, value),
    }
}
