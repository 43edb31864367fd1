//! The explanations of a value that is not what its key needs.

use crate::pieces::append_list;
use crate::shown::{append_shown, type_phrase};
use cbsrun_faults::{Key, MAX_NUMBER, Spot, Want, first_bad_tick, first_bad_unit, two_numbers};
use cbsrun_refusal_texts::Page;
use cbsrun_times::{LONGEST_TICK, Rounding, ticks_of};
use toml::Value;

/// Returns whether a key may have times in a file, since it has ticks and the file says how long one is.
pub(crate) fn may_be_time(key: Key, spot: &Spot<'_>) -> bool {
    spot.document.tick.is_some() && key.rounding().is_some()
}

/// Returns which type a value must have, in words. It may be a time if `time` says so. A word of a set is a text here.
fn type_words(want: Want, time: bool) -> &'static str {
    match want {
        Want::Number(_, _) | Want::Budget | Want::Jitter if time => {
            "a time or a whole number of ticks"
        }
        Want::Range(_, _) if time => "a time, a whole number of ticks, or [least, greatest]",
        Want::Listed if time => "an array of times or whole numbers of ticks",
        Want::Number(_, _) | Want::Budget | Want::Jitter | Want::Server => "a whole number",
        Want::Range(_, _) => "a whole number or [least, greatest]",
        Want::Word(_) | Want::Name => "a text",
        Want::ServerName => "the name of a server",
        Want::Bound => "two whole numbers, [N, D]",
        Want::Tables(_) => "an array of tables",
        Want::Units => "an array of whole numbers",
        Want::Listed => "an array of whole numbers of ticks",
        Want::Tick => "a text, as \"0.1 ms\"",
    }
}

/// Appends which type a value must have, or the words that it may be.
pub(crate) fn append_type(page: &mut Page, key: Key, spot: &Spot<'_>) {
    match key.want {
        Want::Word(words) => append_list(page, words.list(), "\"", " or "),
        want => page.push(type_words(want, may_be_time(key, spot))),
    }
}

/// Appends words, and the numbers from the least to the greatest.
pub(crate) fn append_from(page: &mut Page, words: &str, least: u64, greatest: u64) {
    page.push_number(words, least);
    page.push_number(" to ", greatest);
}

/// Appends which numbers a value may be.
fn append_numbers(page: &mut Page, least: u64, greatest: u64) {
    match greatest.saturating_sub(least) {
        0 => page.push_number("", least),
        1 => {
            page.push_number("", least);
            page.push_number(" or ", greatest);
        }
        _ => append_from(page, "a number from ", least, greatest),
    }
}

/// Appends which numbers a jitter may be. `most` is the greatest, if it is known.
fn append_jitters(page: &mut Page, most: Option<u64>) {
    match most {
        Some(most) => {
            append_numbers(page, 0, most);
            page.push(", less than the least `every`");
        }
        None => page.push("a number less than the least `every`"),
    }
}

/// Appends what a value may be.
pub(crate) fn append_allowed(page: &mut Page, want: Want, spot: &Spot<'_>) {
    match want {
        Want::Number(least, greatest) => append_numbers(page, least, greatest),
        Want::Budget => match spot.period() {
            Some(period) => page.push_number("a number from 1 to the period, ", period),
            None => page.push("a number from 1 to the period"),
        },
        Want::Jitter => append_jitters(page, spot.most_jitter()),
        Want::Range(least, greatest) => append_from(
            page,
            "a number or [least, greatest], from ",
            least,
            greatest,
        ),
        Want::Word(words) => append_list(page, words.list(), "\"", " or "),
        Want::Name => page.push("1 to 32 letters, digits, `-` and `_`"),
        Want::Bound => page.push("[N, D] with 1 <= N <= D <= 1000000"),
        Want::Tables(most) => {
            page.push_number("at most ", most);
            page.push(" tables");
        }
        Want::Units => page.push_number("1 to 1000000 numbers from 0 to ", MAX_NUMBER),
        Want::Listed => page.push("1 to 1000000 ticks, each later than the one before it"),
        Want::Server | Want::ServerName => page.push("a server"),
        Want::Tick => page.push("a time of whole nanoseconds, from \"1 ns\" to \"1 s\""),
    }
}

/// Appends which servers there are, by their numbers.
fn append_servers(page: &mut Page, count: u64) {
    match count {
        0 => page.push("there are no servers"),
        1 => page.push("there is 1 server, 0"),
        2 => page.push("there are 2 servers, 0 and 1"),
        _ => {
            page.push_number("there are ", count);
            page.push_number(" servers, 0 to ", count - 1);
        }
    }
}

/// Appends the start of a sentence: what the value of a key is.
fn append_is(page: &mut Page, name: &str, value: &Value) {
    page.push_all(&["`", name, "` is "]);
    append_shown(page, value);
    page.push(", and ");
}

/// Appends that a value is none of those that are allowed.
fn append_plain(page: &mut Page, key: Key, value: &Value, spot: &Spot<'_>) {
    append_is(page, key.name, value);
    page.push("has to be ");
    append_allowed(page, key.want, spot);
}

/// Appends which entry of an array is no number of ticks.
fn append_bad_entry(page: &mut Page, key: Key, place: usize, entry: &Value, bad: BadTime) {
    page.push_number("number ", place as u64);
    page.push_all(&[" of `", key.name, "` is "]);
    append_shown(page, entry);
    page.push(", and ");
    append_time_wanted(page, key, bad);
}

/// Appends what is wrong with a range.
fn append_range(page: &mut Page, key: Key, value: &Value, spot: &Spot<'_>) {
    let name = key.name;
    if let Some((place, entry, bad)) = bad_entry(spot.document.tick, key, value) {
        return append_bad_entry(page, key, place, entry, bad);
    }
    match two_numbers(spot.document.tick, key, value) {
        Ok((least, greatest)) if greatest < least => write!(
            page,
            "the least of `{name}`, {least}, is above its greatest, {greatest}"
        ),
        _ => append_plain(page, key, value, spot),
    }
}

/// Appends which of the units of a job is wrong, or that there are too few or too many.
fn append_units(page: &mut Page, name: &str, units: &[Value]) {
    let Some(place) = first_bad_unit(units) else {
        page.push_all(&["`", name]);
        page.push_number("` has ", units.len() as u64);
        return page.push(" numbers, and has to have 1 to 1000000");
    };
    if let Some(unit) = units.get(place.saturating_sub(1)) {
        page.push_number("number ", place as u64);
        page.push_all(&[" of `", name, "` is "]);
        append_shown(page, unit);
        page.push_number(", and has to be from 0 to ", MAX_NUMBER);
    }
}

/// Appends which of the ticks that a source lists is wrong, or that there are too few or too many.
fn append_listed(page: &mut Page, key: Key, listed: &[Value], tick: Option<u64>) {
    let bad = first_bad_tick(tick, listed);
    let Some(place) = bad else {
        page.push_all(&["`", key.name]);
        page.push_number("` has ", listed.len() as u64);
        return page.push(" ticks, and has to have 1 to 1000000");
    };
    if let Some(entry) = listed.get(place.saturating_sub(1)) {
        page.push_number("number ", place as u64);
        page.push_all(&[" of `", key.name, "` is "]);
        append_shown(page, entry);
        page.push(", and has to be later than the one before it, and at most 10^12 ticks");
    }
}

/// Appends what is wrong with ticks that a source lists: an entry that is no time, or a tick that is out of range.
fn append_listed_fault(
    page: &mut Page,
    key: Key,
    value: &Value,
    listed: &[Value],
    tick: Option<u64>,
) {
    match bad_entry(tick, key, value) {
        Some((place, entry, bad)) => append_bad_entry(page, key, place, entry, bad),
        None => append_listed(page, key, listed, tick),
    }
}

/// What is wrong with a time that is out of range.
#[derive(Clone, Copy)]
pub(crate) enum BadTime {
    /// It is no time.
    NoTime,
    /// It is a frequency, and what it would be is rounded up: work, a budget or the end.
    Frequency,
    /// It is more ticks than a time may be.
    TooLong,
    /// It is between this number of ticks and the next.
    NotWhole(u64),
    /// It is this number of ticks.
    OutOfRange(u64),
}

/// Returns why a text is not a number of ticks of this length, if it has to be rounded so. No time is too long for the longest
/// tick.
fn why_no_ticks(tick: u64, rounding: Rounding, text: &str) -> BadTime {
    if ticks_of(LONGEST_TICK, Rounding::Down, text).is_none() {
        return BadTime::NoTime;
    }
    if rounding == Rounding::Up && ticks_of(LONGEST_TICK, rounding, text).is_none() {
        return BadTime::Frequency;
    }
    match ticks_of(tick, Rounding::Down, text) {
        Some(ticks) if rounding == Rounding::Whole => BadTime::NotWhole(ticks),
        _ => BadTime::TooLong,
    }
}

/// Returns what is wrong with a text at a key that may have a time, in a file with this tick, or `None` if the value is
/// no text.
pub(crate) fn bad_time(tick: Option<u64>, key: Key, value: &Value) -> Option<BadTime> {
    let text = value.as_str()?;
    let tick = tick?;
    let rounding = key.rounding()?;
    match ticks_of(tick, rounding, text) {
        Some(ticks) => Some(BadTime::OutOfRange(ticks)),
        None => Some(why_no_ticks(tick, rounding, text)),
    }
}

/// Returns the place of the first entry of an array, from 1, that is a text and no number of ticks, with what is wrong with it,
/// or `None` if there is none.
fn bad_entry<'a>(
    tick: Option<u64>,
    key: Key,
    value: &'a Value,
) -> Option<(usize, &'a Value, BadTime)> {
    let entries = value.as_array()?;
    for (place, entry) in entries.iter().enumerate() {
        match bad_time(tick, key, entry) {
            Some(BadTime::OutOfRange(_)) | None => {}
            Some(bad) => return Some((place + 1, entry, bad)),
        }
    }
    None
}

/// Appends what a text that is no number of ticks has to be.
fn append_time_wanted(page: &mut Page, key: Key, bad: BadTime) {
    match bad {
        BadTime::NotWhole(_) => page.push("has to be a whole number of ticks"),
        BadTime::TooLong => page.push("has to be at most 10^12 ticks"),
        _ if key.rounding() == Some(Rounding::Up) => { page.push("has to be a time, as \"8 ms\"") }
        _ => page.push("has to be a time, as \"33.3 ms\" or \"30 Hz\""),
    }
}

/// Appends what is wrong with a time.
fn append_bad_time(page: &mut Page, key: Key, value: &Value, bad: BadTime, spot: &Spot<'_>) {
    append_is(page, key.name, value);
    match bad {
        BadTime::OutOfRange(ticks) => {
            page.push_number("that is ", ticks);
            page.push(" ticks; it has to be ");
            append_allowed(page, key.want, spot);
        }
        _ => append_time_wanted(page, key, bad),
    }
}

/// Appends what is wrong with a value that is out of range.
pub(crate) fn append_outside(page: &mut Page, key: Key, value: &Value, spot: &Spot<'_>) {
    let name = key.name;
    if let Some(bad) = bad_time(spot.document.tick, key, value) {
        return append_bad_time(page, key, value, bad, spot);
    }
    match (key.want, value) {
        (Want::Server, _) => {
            append_is(page, name, value);
            append_servers(page, spot.document.servers.len() as u64);
        }
        (Want::ServerName, _) => {
            page.push("there is no server ");
            append_shown(page, value);
        }
        (Want::Range(_, _), _) => append_range(page, key, value, spot),
        (Want::Units, Value::Array(units)) => append_units(page, name, units),
        (Want::Listed, Value::Array(listed)) => {
            append_listed_fault(page, key, value, listed, spot.document.tick)
        }
        (Want::Tables(most), _) => write!(page, "`{name}` has more tables than {most}"),
        _ => append_plain(page, key, value, spot),
    }
}

/// Returns whether a key has an array of numbers.
fn wants_numbers(want: Want) -> bool {
    matches!(
        want,
        Want::Range(_, _) | Want::Bound | Want::Units | Want::Listed
    )
}

/// Returns whether an entry is a number, or a text if it may be a time.
fn is_number_or_time(entry: &Value, may_be_time: bool) -> bool {
    entry.is_integer() || may_be_time && entry.is_str()
}

/// Returns the first entry of an array that is no number, and no time if it may be one, or `None` if there is none.
fn odd_entry(want: Want, value: &Value, may_be_time: bool) -> Option<&Value> {
    if !wants_numbers(want) {
        return None;
    }
    for entry in value.as_array()? {
        if !is_number_or_time(entry, may_be_time) {
            return Some(entry);
        }
    }
    None
}

/// Appends what is wrong with a value of a wrong type.
pub(crate) fn append_wrong_type(page: &mut Page, key: Key, value: &Value, spot: &Spot<'_>) {
    let (verb, phrase, end) = match odd_entry(key.want, value, may_be_time(key, spot)) {
        Some(entry) => ("has ", type_phrase(entry), " in it"),
        None => ("is ", type_phrase(value), ""),
    };
    page.push_all(&["`", key.name, "` ", verb, phrase, end, ", and has to be "]);
    append_type(page, key, spot);
}
