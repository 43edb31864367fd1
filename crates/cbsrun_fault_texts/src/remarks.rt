//! The line of a value that is not what its key needs, with carets and a remark.

ghost use Rattle.std.specs.Prelude.{◌≤◌};

use crate::key_line::{KeyLine, Marked};
use crate::notes::{append_brackets_help, append_help, append_servers_note};
use crate::values::{BadTime, append_allowed, append_from, append_type, bad_time, may_be_time};
use cbsrun_faults::{Key, Kind, Spot, Want, nearest_word, server_names, two_numbers};
use cbsrun_refusal_texts::Page;
use cbsrun_times::{Rounding, ticks_of};
use std::alloc::{AllocError, Global};
use toml::Value;

/// Returns the word that may be meant by a value, if the value is a text and its key needs a word of a set. The only
/// error is out of memory.
fn meant<'a>(
    alloc: Global,
    want: Want,
    value: &Value,
    spot: &Spot<'a>,
) -> Result<Option<&'a str>, AllocError> {
    let Value::String(word) = value else {
        return Ok(None);
    };
    match want {
        Want::Word(words) => nearest_word(alloc, word, words.list()),
        Want::ServerName => nearest_word(alloc, word, &server_names(alloc, spot.document.servers)?),
        _ => Ok(None),
    }
}

/// Appends the numbers from the least to the greatest.
fn append_span(page: &mut Page, least: u64, greatest: u64) {
    if least == greatest {
        page.push_number("", least);
    } else {
        append_from(page, "", least, greatest);
    }
}

/// Appends which numbers a range may have. If its numbers are the wrong way round, appends the right way.
fn append_range(page: &mut Page, key: Key, value: &Value, spot: &Spot<'_>) {
    match (key.want, two_numbers(spot.document.tick, key, value)) {
        (_, Ok((first, second))) if second < first => {
            write!(page, "did you mean [{second}, {first}]?")
        }
        (Want::Range(least, greatest), Ok(_)) => append_span(page, least, greatest),
        _ => page.push("a number or [least, greatest]"),
    }
}

/// Appends in short what is wrong with a time at a key.
fn append_short_time(page: &mut Page, key: Key, bad: BadTime) {
    match bad {
        BadTime::NoTime if key.rounding() == Some(Rounding::Up) => {
            page.push("a number, a space, and a unit: s, ms, us or ns")
        }
        BadTime::NoTime => page.push("a number, a space, and a unit: s, ms, us, ns, Hz or kHz"),
        BadTime::Frequency => page.push("no frequency: s, ms, us or ns"),
        BadTime::TooLong => page.push("more than 10^12 ticks"),
        BadTime::NotWhole(ticks) => {
            page.push_number("between ", ticks);
            page.push_number(" and ", ticks.saturating_add(1));
            page.push(" ticks");
        }
        BadTime::OutOfRange(ticks) => {
            page.push_number("", ticks);
            page.push(" ticks");
        }
    }
}

/// Appends in short what a value may be.
fn append_short(page: &mut Page, key: Key, value: &Value, spot: &Spot<'_>) {
    if let Some(bad) = bad_time(spot.document.tick, key, value) {
        return append_short_time(page, key, bad);
    }
    match key.want {
        Want::Number(least, greatest) => append_span(page, least, greatest),
        Want::Budget => append_span(page, 1, spot.period().unwrap_or(1)),
        Want::Jitter => append_span(page, 0, spot.most_jitter().unwrap_or(0)),
        Want::Range(_, _) => append_range(page, key, value, spot),
        Want::ServerName => page.push("no server has this name"),
        Want::Server => match spot.document.servers.len() {
            0 => page.push("there is none"),
            count => append_span(page, 0, count as u64 - 1),
        },
        _ => append_allowed(page, key.want, spot),
    }
}

/// Appends the line of a value that is out of range, with the word that may be meant, or in short what the value may
/// be.
pub(crate) fn append_outside_line(
    page: &mut Page,
    line: &KeyLine,
    key: Key,
    value: &Value,
    spot: &Spot<'_>,
) {
    let marked = if value.is_str() {
        Marked::Inside
    } else {
        Marked::Value
    };
    line.append(page, spot, marked);
    page.push(" ");
    let meant = meant(page.alloc(), key.want, value, spot);
    match page.accept(meant) {
        Some(Some(word)) => write!(page, "did you mean {word:?}?"),
        _ => append_short(page, key, value, spot),
    }
    page.push("\n");
}

/// Returns whether a key needs numbers.
fn wants_number(want: Want) -> bool {
    matches!(
        want,
        Want::Number(_, _) | Want::Budget | Want::Jitter | Want::Server | Want::Range(_, _)
    )
}

/// Returns the whole number that a value with a point or an exponent stands for, or `None` if it stands for none or its
/// key needs no number. The only error is out of memory.
fn whole_number(alloc: Global, want: Want, value: &Value) -> Result<Option<i64>, AllocError> {
    match value {
        Value::Float(number) if wants_number(want) => {
            let digits = number.to_string(alloc)?;
            Ok(digits.parse::<i64>().ok())
        }
        _ => Ok(None),
    }
}

/// Appends words, a number, and what stands after it.
fn append_integer(page: &mut Page, words: &str, number: i64, end: &str) {
    write!(page, "{words}{number}{end}");
}

/// Appends what to do about a value of a wrong type.
fn append_type_remark(
    page: &mut Page,
    key: Key,
    value: &Value,
    whole: Option<i64>,
    spot: &Spot<'_>,
) {
    if let Some(number) = whole {
        return append_integer(page, "as a whole number it is ", number, "");
    }
    match value {
        Value::String(word) if wants_number(key.want) => match word.parse::<i64>() {
            Ok(number) => append_integer(page, "without the quotes it is the number ", number, ""),
            Err(_) => append_type(page, key, spot),
        },
        Value::Integer(number) if matches!(key.want, Want::Name) => {
            append_integer(page, "in quotes it is the text \"", *number, "\"")
        }
        _ => append_type(page, key, spot),
    }
}

/// Returns whether a value is a number with a point or an exponent, or an array with such a number.
fn has_fraction(value: &Value) -> bool {
    match value {
        Value::Array(entries) => {
            for entry in entries {
                if entry.is_float() {
                    return true;
                }
            }
            false
        }
        _ => value.is_float(),
    }
}

/// Returns whether a value is a time with a unit, in a load that does not say how long a tick is.
fn is_time_without_tick(key: Key, value: &Value, spot: &Spot<'_>) -> bool {
    if spot.document.kind != Kind::Load || spot.document.has("tick") || !key.is_time() {
        return false;
    }
    match value {
        Value::String(text) => ticks_of(1, Rounding::Down, text).is_some(),
        _ => false,
    }
}

/// Appends what helps against a value of a wrong type, if that is known.
fn append_type_help(page: &mut Page, margin: usize, key: Key, value: &Value, spot: &Spot<'_>)
    requires { margin ≤ 80 }
{
    match key.want {
        Want::Tables(_) => append_brackets_help(page, margin, key.name),
        Want::ServerName => append_servers_note(page, margin, spot.document.servers),
        _ if may_be_time(key, spot) && has_fraction(value) => append_help(
            page,
            margin,
            "a time has its unit, in quotes, as \"7.5 ms\"",
        ),
        _ if key.is_time() && has_fraction(value) => append_help(
            page,
            margin,
            "times are whole ticks; if that is too coarse, take a shorter tick",
        ),
        _ if is_time_without_tick(key, value, spot) => append_help(
            page,
            margin,
            "say at the top how long a tick is, as tick = \"0.1 ms\"",
        ),
        _ => {}
    }
}

/// Appends the line of a value of a wrong type, with what to do about it.
pub(crate) fn append_type_lines(
    page: &mut Page,
    line: &KeyLine,
    key: Key,
    value: &Value,
    spot: &Spot<'_>,
) {
    let whole = whole_number(page.alloc(), key.want, value);
    let whole = page.accept(whole).flatten();
    line.append(page, spot, Marked::Value);
    page.push(" ");
    append_type_remark(page, key, value, whole, spot);
    page.push("\n");
    if whole.is_none() {
        append_type_help(page, line.margin(), key, value, spot);
    }
}
