//! The load file of a sketch with a reservation for each server. The only error of each call is out of memory.

ghost use Rattle.std.specs.Prelude.{◌≡◌, ◌<◌, length};

use crate::given::given_in;
use cbsrun_loads::Sketch;
use cbsrun_proposals::Proposal;
use cbsrun_simulate::{Range, SourceTerms};
use cbsrun_text::mode_word;
use cbsrun_toml_texts::{append_executor, append_number, append_ticks, append_time, append_word};
use std::alloc::{AllocError, Global};

/// Appends the keys of the top table that are no arrays of tables.
fn append_top(text: &mut String, sketch: &Sketch) -> Result<(), AllocError> {
    text.push_str("load = 1\n")?;
    append_executor(text, sketch.tick(), sketch.bound(), sketch.backlog())?;
    append_time(text, "until", sketch.tick(), sketch.until())?;
    append_number(text, "seed", sketch.seed())
}

/// Appends a line with a key and a range of ticks: one number, or the least and the greatest.
fn append_range(
    text: &mut String,
    key: &str,
    tick: Option<u64>,
    range: Range,
) -> Result<(), AllocError> {
    if range.least() == range.greatest() {
        return append_time(text, key, tick, range.least());
    }
    text.push_str(key)?;
    text.push_str(" = [")?;
    append_ticks(text, tick, range.least())?;
    text.push_str(", ")?;
    append_ticks(text, tick, range.greatest())?;
    text.push_str("]\n")
}

/// Appends a server. A line in front of its reservation says if that is proposed.
fn append_server(
    text: &mut String,
    sketch: &Sketch,
    all: bool,
    server: u16,
    reservation: Proposal,
) -> Result<(), AllocError>
    requires { server < length sketch.now.servers }
{
    let at = usize::from(server);
    text.push_str("\n[[server]]\n")?;
    append_word(text, "name", &sketch.names()[at])?;
    append_word(text, "mode", mode_word(sketch.servers()[at].mode))?;
    if given_in(sketch, all, server).is_none() {
        text.push_str("# proposed:\n")?;
    }
    append_time(text, "budget", sketch.tick(), reservation.budget)?;
    append_time(text, "period", sketch.tick(), reservation.period)
}

/// Appends the servers.
fn append_servers(
    text: &mut String,
    sketch: &Sketch,
    all: bool,
    reservations: &[Proposal],
) -> Result<(), AllocError>
    requires { length reservations.now ≡ length sketch.now.servers }
{
    let servers = sketch.servers().len() as u16;
    for server in 0..servers {
        append_server(text, sketch, all, server, reservations[usize::from(server)])?;
    }
    Ok(())
}

/// Appends a line with the ticks that a source lists.
fn append_listed(text: &mut String, tick: Option<u64>, listed: &[u64]) -> Result<(), AllocError> {
    text.push_str("at = [")?;
    for (i, ticks) in listed.iter().enumerate() {
        if i > 0 {
            text.push_str(", ")?;
        }
        append_ticks(text, tick, *ticks)?;
    }
    text.push_str("]\n")
}

/// Appends the key that says when the jobs of a source come: at ticks that it lists, or so many ticks apart.
fn append_arrivals(
    text: &mut String,
    tick: Option<u64>,
    terms: &SourceTerms,
    listed: &[u64],
) -> Result<(), AllocError> {
    if listed.is_empty() {
        return append_range(text, "every", tick, terms.every);
    }
    append_listed(text, tick, listed)
}

/// Appends the keys that say when a source begins and ends, unless it lists its ticks, or they say what holds without
/// them.
fn append_ends(
    text: &mut String,
    tick: Option<u64>,
    terms: &SourceTerms,
    listed: &[u64],
) -> Result<(), AllocError> {
    if !listed.is_empty() {
        return Ok(());
    }
    if terms.first > 0 {
        append_time(text, "first", tick, terms.first)?;
    }
    if let Some(jobs) = terms.jobs {
        append_number(text, "jobs", jobs)?;
    }
    Ok(())
}

/// Appends the other keys of a source that may be left out, unless they say what holds without them.
fn append_optional(
    text: &mut String,
    tick: Option<u64>,
    terms: &SourceTerms,
) -> Result<(), AllocError> {
    if terms.jitter > 0 {
        append_time(text, "jitter", tick, terms.jitter)?;
    }
    if let Some(within) = terms.within {
        append_time(text, "within", tick, within)?;
    }
    if terms.overrun.greatest() > 0 {
        append_range(text, "overrun", tick, terms.overrun)?;
    }
    Ok(())
}

/// Appends a source for a server of this name, which lists these ticks, if any.
fn append_source(
    text: &mut String,
    tick: Option<u64>,
    name: &str,
    terms: &SourceTerms,
    listed: &[u64],
) -> Result<(), AllocError> {
    text.push_str("\n[[source]]\n")?;
    append_word(text, "server", name)?;
    append_arrivals(text, tick, terms, listed)?;
    append_range(text, "units", tick, terms.units)?;
    append_ends(text, tick, terms, listed)?;
    append_optional(text, tick, terms)
}

/// Returns the ticks that are listed of a source, none if they are drawn.
fn listed_of(listed: &[Vec<u64>], source: usize) -> &[u64] {
    match listed.get(source) {
        Some(ticks) => ticks,
        None => &[],
    }
}

/// Appends the sources.
fn append_sources(text: &mut String, sketch: &Sketch) -> Result<(), AllocError> {
    let listed = sketch.listed();
    for (i, terms) in sketch.sources().iter().enumerate() {
        let name = &sketch.names()[usize::from(terms.server)];
        append_source(text, sketch.tick(), name, terms, listed_of(listed, i))?;
    }
    Ok(())
}

/// Returns the load file of a sketch with these reservations.
pub(crate) fn load_text(
    alloc: Global,
    sketch: &Sketch,
    all: bool,
    reservations: &[Proposal],
) -> Result<String, AllocError>
    requires { length reservations.now ≡ length sketch.now.servers }
{
    let mut text = String::new(alloc);
    append_top(&mut text, sketch)?;
    append_servers(&mut text, sketch, all, reservations)?;
    append_sources(&mut text, sketch)?;
    Ok(text)
}
