//! Lines with a key and a value.

use cbs_rate::Bound;
use cbsrun_text::append_pair;
use cbsrun_time_texts::append_milliseconds;
use std::alloc::AllocError;

/// Appends a line with a key and a number.
pub fn append_number(text: &mut String, key: &str, number: u64) -> Result<(), AllocError> {
    text.push_str(key)?;
    append_pair(text, " = ", number)?;
    text.push_str("\n")
}

/// Appends a line with a key and a text. The text needs no escapes: it is a name, or a word that the program knows.
pub fn append_word(text: &mut String, key: &str, word: &str) -> Result<(), AllocError> {
    text.push_str(key)?;
    text.push_str(" = \"")?;
    text.push_str(word)?;
    text.push_str("\"\n")
}

/// Returns whether a number of ticks can be written as milliseconds: these are less than 10^9.
fn is_short(tick: u64, ticks: u64) -> bool {
    u128::from(tick) * u128::from(ticks) < 1_000_000_000_000_000
}

/// Appends a number of ticks: as a time, if the file says how long a tick is and the time is short enough for a file.
pub fn append_ticks(text: &mut String, tick: Option<u64>, ticks: u64) -> Result<(), AllocError> {
    match tick {
        Some(tick) if is_short(tick, ticks) => {
            text.push_str("\"")?;
            append_milliseconds(text, tick, ticks)?;
            text.push_str(" ms\"")
        }
        _ => append_pair(text, "", ticks),
    }
}

/// Appends a line with a key and a number of ticks.
pub fn append_time(
    text: &mut String,
    key: &str,
    tick: Option<u64>,
    ticks: u64,
) -> Result<(), AllocError> {
    text.push_str(key)?;
    text.push_str(" = ")?;
    append_ticks(text, tick, ticks)?;
    text.push_str("\n")
}

/// Appends the lines that say how long a tick is, if the file says it, the bound on the total bandwidth, and the backlog.
pub fn append_executor(
    text: &mut String,
    tick: Option<u64>,
    bound: Bound,
    backlog: u64,
) -> Result<(), AllocError> {
    if let Some(tick) = tick {
        text.push_str("tick = \"")?;
        append_milliseconds(text, tick, 1)?;
        text.push_str(" ms\"\n")?;
    }
    append_pair(text, "bound = [", bound.num())?;
    append_pair(text, ", ", bound.den())?;
    text.push_str("]\n")?;
    append_number(text, "backlog", backlog)
}
