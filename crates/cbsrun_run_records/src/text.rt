//! The text of a record. The only error of each call is out of memory.

use cbs_rate::Reservation;
use cbs_rules::Mode;
use cbs_tape::Entry;
use cbsrun_runs::Run;
use cbsrun_text::{append_pair, mode_word};
use cbsrun_toml_texts::{append_executor, append_ticks};
use std::alloc::{AllocError, Global};

/// Appends the table of a server.
fn append_server(
    text: &mut String,
    tick: Option<u64>,
    name: &str,
    mode: Mode,
    reservation: Reservation,
) -> Result<(), AllocError> {
    text.push_str("  { name = \"")?;
    text.push_str(name)?;
    text.push_str("\", mode = \"")?;
    text.push_str(mode_word(mode))?;
    text.push_str("\", budget = ")?;
    append_ticks(text, tick, reservation.budget())?;
    text.push_str(", period = ")?;
    append_ticks(text, tick, reservation.period())?;
    text.push_str(" },\n")
}

/// Appends the servers of a run, which have these names.
fn append_servers<R: Run>(text: &mut String, run: &R, names: &[String]) -> Result<(), AllocError> {
    text.push_str("server = [\n")?;
    for server in 0..run.plan().len() as u16 {
        if let (Some(name), Some(mode), Some(reservation)) = (
            names.get(usize::from(server)),
            run.modes().get(server),
            run.plan().get(server),
        ) {
            append_server(text, run.tick(), name, mode, reservation)?;
        }
    }
    text.push_str("]\n")
}

/// Appends a step that names a server, with a number.
fn append_for_server(
    text: &mut String,
    word: &str,
    server: u8,
    key: &str,
    number: u64,
) -> Result<(), AllocError> {
    text.push_str(word)?;
    append_pair(text, "\", server = ", u64::from(server))?;
    text.push_str(key)?;
    append_pair(text, " = ", number)
}

/// Appends an entry, without the brackets around it.
fn append_keys(text: &mut String, entry: Entry) -> Result<(), AllocError> {
    match entry {
        Entry::Accepted { server, units } => {
            append_for_server(text, "submit", server, ", units", u64::from(units))
        }
        Entry::Units(1) => text.push_str("run\""),
        Entry::Units(times) => append_pair(text, "run\", times = ", times),
        Entry::Advanced(ticks) => append_pair(text, "advance\", ticks = ", ticks),
        Entry::Charged { server, ticks } => {
            append_for_server(text, "charge", server, ", ticks", ticks)
        }
        Entry::Closed(server) => append_pair(text, "close\", server = ", u64::from(server)),
    }
}

/// Appends the steps.
pub(crate) fn append_steps(text: &mut String, entries: &[Entry]) -> Result<(), AllocError> {
    text.push_str("step = [\n")?;
    for entry in entries {
        text.push_str("  { op = \"")?;
        append_keys(text, *entry)?;
        text.push_str(" },\n")?;
    }
    text.push_str("]\n")
}

/// Returns the first keys of the record of a run, up to its servers, which have these names.
pub(crate) fn head_text<R: Run>(
    alloc: Global,
    run: &R,
    names: &[String],
) -> Result<String, AllocError> {
    let mut text = String::from_str(alloc, "record = 1\n")?;
    append_executor(&mut text, run.tick(), run.plan().bound(), run.backlog())?;
    append_servers(&mut text, run, names)?;
    Ok(text)
}
