//! The whole trace.

ghost use Rattle.std.specs.Prelude.{◌≡◌, ◌++◌, IfOk, OnOk, string_bytes};
ghost use Rattle.cbsrun_perfetto.specs.Traces.{AreInOrder, IsTrace, all_events, hidden_line, left_out_line, lines_text, opening, opening_text, process_text, servers_text, trace_text};

use crate::events::{about_text, hidden_line, left_out_line, named_args};
use crate::line::{Line, sort_lines};
use crate::server::{append_events, append_server};
use crate::times::append_tick;
use cbsrun_chart::{Drawn, Hidden, LeftOut, Picture, Window};
use std::alloc::{AllocError, Global};

/// The text before how long a tick is.
const BEFORE_TICK: &str = "{\"displayTimeUnit\":\"ns\",\"otherData\":{\"unit\":\"a tick is ";

/// The text after it, up to the events.
const AFTER_TICK: &str = "\"},\"traceEvents\":[\n";

/// Returns the events of all servers.
#[tactic(auto, unfolding(crate::specs::Traces::all_events))]
fn all_events(alloc: Global, window: Window, servers: &[Drawn]) -> Result<Vec<Line>, AllocError>
    ensures { IfOk result (λ lines. lines.items ≡ all_events window servers.now) }
{
    let mut lines = Vec::new(alloc);
    for (place, server) in servers.iter().enumerate() {
        append_events(alloc, &mut lines, window, place as u64 + 1, server)?;
    }
    Ok(lines)
}

/// Returns the events of all servers, sorted by their ticks.
fn ordered_events(alloc: Global, window: Window, servers: &[Drawn]) -> Result<Vec<Line>, AllocError>
    ensures { IfOk result (λ lines. AreInOrder (all_events window servers.now) lines.items) }
{
    let mut lines = all_events(alloc, window, servers)?;
    sort_lines(&mut lines)?;
    Ok(lines)
}

/// Appends the descriptions of all servers.
#[tactic(auto, unfolding(crate::specs::Traces::servers_text))]
fn append_servers(
    alloc: Global,
    text: &mut String,
    nanoseconds: Option<u64>,
    servers: &[Drawn],
) -> Result<(), AllocError>
    ensures { OnOk result (string_bytes text.new ≡ string_bytes text.old
        ++ servers_text nanoseconds servers.now) }
{
    for (place, server) in servers.iter().enumerate() {
        append_server(alloc, text, nanoseconds, place as u64, server)?;
    }
    Ok(())
}

/// Appends events, each on a line of its own.
#[tactic(auto, unfolding(crate::specs::Traces::lines_text))]
fn append_lines(
    text: &mut String,
    nanoseconds: Option<u64>,
    lines: &[Line],
) -> Result<(), AllocError>
    ensures { OnOk result (string_bytes text.new ≡ string_bytes text.old
        ++ lines_text nanoseconds lines.now) }
{
    for line in lines {
        line.append(text, nanoseconds)?;
    }
    Ok(())
}

/// Returns the event that gives the name of the file, as text.
#[tactic(auto, unfolding(crate::specs::Traces::process_text))]
fn process_text(alloc: Global, file: &str) -> Result<String, AllocError>
    ensures { IfOk result (λ text. string_bytes text ≡ process_text file.now) }
{
    let args = named_args(alloc, file)?;
    about_text(alloc, "process_name", 0, args)
}

/// Appends the text before the events, around how long a tick is.
fn append_heading(text: &mut String, nanoseconds: Option<u64>) -> Result<(), AllocError>
    ensures { OnOk result (string_bytes text.new ≡ string_bytes text.old ++ opening nanoseconds) }
{
    text.push_str(BEFORE_TICK)?;
    append_tick(text, nanoseconds)?;
    text.push_str(AFTER_TICK)
}

/// Appends the opening of the document, with how long a tick is, and the name of the file.
#[tactic(auto, unfolding(crate::specs::Traces::opening_text))]
fn append_opening(
    alloc: Global,
    text: &mut String,
    nanoseconds: Option<u64>,
    file: &str,
) -> Result<(), AllocError>
    ensures { OnOk result (string_bytes text.new ≡ string_bytes text.old
        ++ opening_text nanoseconds file.now) }
{
    let process = process_text(alloc, file)?;
    append_heading(text, nanoseconds)?;
    text.push_str(&process)
}

/// Appends how many ticks of the run are not shown, if there are any. The first tick that is shown is `tick`.
fn append_hidden(
    alloc: Global,
    text: &mut String,
    nanoseconds: Option<u64>,
    tick: u64,
    hidden: Option<Hidden>,
) -> Result<(), AllocError>
    ensures { OnOk result (string_bytes text.new ≡ string_bytes text.old
        ++ hidden_line nanoseconds tick hidden) }
{
    match hidden {
        Some(hidden) => hidden_line(alloc, tick, hidden)?.append(text, nanoseconds),
        None => Ok(()),
    }
}

/// Appends how many servers are not drawn, if there are any. The first tick that is shown is `tick`.
fn append_left_out(
    alloc: Global,
    text: &mut String,
    nanoseconds: Option<u64>,
    tick: u64,
    left_out: Option<LeftOut>,
) -> Result<(), AllocError>
    ensures { OnOk result (string_bytes text.new ≡ string_bytes text.old
        ++ left_out_line nanoseconds tick left_out) }
{
    match left_out {
        Some(left_out) => left_out_line(alloc, tick, left_out)?.append(text, nanoseconds),
        None => Ok(()),
    }
}

/// Returns a trace with these events, in this order.
#[tactic(auto, unfolding(crate::specs::Traces::trace_text))]
fn trace_text(alloc: Global, picture: &Picture, lines: &[Line]) -> Result<String, AllocError>
    ensures { IfOk result (λ text. string_bytes text ≡ trace_text picture.now lines.now) }
{
    let tick = picture.tick;
    let from = picture.window.from;
    let mut text = String::new(alloc);
    append_opening(alloc, &mut text, tick, &picture.file)?;
    append_servers(alloc, &mut text, tick, &picture.servers)?;
    append_hidden(alloc, &mut text, tick, from, picture.hidden())?;
    append_left_out(alloc, &mut text, tick, from, picture.left_out())?;
    append_lines(&mut text, tick, lines)?;
    text.push_str("\n]}\n")?;
    Ok(text)
}

/// Returns a picture as a trace, in the Trace Event Format. Its times are in microseconds. A tick is one of these if the
/// picture does not say how long a tick is. The only error is out of memory.
pub fn trace_json(alloc: Global, picture: &Picture) -> Result<String, AllocError>
    ensures { IfOk result (λ text. IsTrace picture.now (string_bytes text)) }
{
    let lines = ordered_events(alloc, picture.window, &picture.servers)?;
    trace_text(alloc, picture, &lines)
}
