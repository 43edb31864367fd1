//! The line of a step.

ghost use Rattle.std.specs.Prelude.{◌≡◌, ◌++◌, OnOk, string_bytes};
ghost use Rattle.cbsrun_lines.specs.Lines.{call_text, error_text, ran_text, result_text};
ghost use Rattle.cbsrun_lines.specs.Lines.{state_text, line_of, view_told};

use cbs_core::{CoreError, Ran, ServerView};
use cbsrun_events::{Event, Seen};
use cbsrun_text::append_pair;
use std::alloc::AllocError;

/// Appends the call of a step to a text. The only error is out of memory.
fn append_call(text: &mut String, event: Event) -> Result<(), AllocError>
    ensures { OnOk result (string_bytes text.new ≡ string_bytes text.old ++ call_text event) }
{
    match event {
        Event::Accepted { job, .. } | Event::NotAccepted { job, .. } => {
            append_pair(text, "submit ", u64::from(job.server))
        }
        Event::Ran(_) => text.push_str("run"),
        Event::Advanced(ticks) | Event::NotAdvanced(ticks, _) => {
            append_pair(text, "advance ", ticks)
        }
        Event::Closed(server) | Event::NotClosed(server, _) => {
            append_pair(text, "close ", u64::from(server))
        }
        Event::Charged { server, ticks } | Event::NotCharged { server, ticks, .. } => {
            append_pair(text, "charge ", u64::from(server))?;
            append_pair(text, " ", ticks)
        }
    }
}

/// Appends the error of a refused call to a text. The only error is out of memory.
fn append_error(text: &mut String, error: CoreError) -> Result<(), AllocError>
    ensures { OnOk result (string_bytes text.new ≡ string_bytes text.old ++ error_text error) }
{
    text.push_str(" refused ")?;
    text.push_str(error.name())
}

/// Appends the result of a run to a text. The only error is out of memory.
fn append_ran(text: &mut String, ran: Ran) -> Result<(), AllocError>
    ensures { OnOk result (string_bytes text.new ≡ string_bytes text.old ++ ran_text ran) }
{
    match ran {
        Ran::Idle => text.push_str(" idle"),
        Ran::ClockEnd => text.push_str(" refused ClockEnd"),
        Ran::Unit { server, seq } => {
            append_pair(text, " ", u64::from(server))?;
            append_pair(text, " job ", seq)
        }
        Ran::Done(done) => {
            append_pair(text, " ", u64::from(done.server))?;
            append_pair(text, " job ", done.seq)?;
            append_pair(text, " done ", done.result)
        }
    }
}

/// Appends the result of a step to a text. The only error is out of memory.
fn append_result(text: &mut String, event: Event) -> Result<(), AllocError>
    ensures { OnOk result (string_bytes text.new ≡ string_bytes text.old ++ result_text event) }
{
    match event {
        Event::Accepted { number, .. } => {
            append_pair(text, " job ", number)?;
            text.push_str(" accepted")
        }
        Event::Ran(ran) => append_ran(text, ran),
        Event::NotAccepted { error, .. }
        | Event::NotAdvanced(_, error)
        | Event::NotClosed(_, error)
        | Event::NotCharged { error, .. } => append_error(text, error),
        Event::Advanced(_) | Event::Closed(_) | Event::Charged { .. } => Ok(()),
    }
}

/// Appends the state of a server, if there is one, to a text. The only error is out of memory.
fn append_state(text: &mut String, server: Option<ServerView>) -> Result<(), AllocError>
    ensures { OnOk result (string_bytes text.new ≡ string_bytes text.old ++ state_text server) }
{
    let Some(view) = server else {
        return Ok(());
    };
    append_pair(text, " c=", view.budget)?;
    append_pair(text, " d=", view.deadline)?;
    if view.throttled {
        return text.push_str(" throttled");
    }
    Ok(())
}

/// Returns the view of the server that the line of a step shows: none, if a job was refused.
fn view_told(event: Event, view: Option<ServerView>) -> Option<ServerView>
    ensures { result ≡ view_told event view }
{
    match event {
        Event::NotAccepted { .. } => None,
        _ => view,
    }
}

/// Writes the line of a step into `text`, in place of its old content. The line has the clock after the step, the call,
/// its result, and the state of a server if it shows one. The only error is out of memory.
pub fn write_line(text: &mut String, seen: Seen) -> Result<(), AllocError>
    ensures { OnOk result (string_bytes text.new ≡ line_of seen) }
{
    text.clear();
    append_pair(text, "@", seen.clock)?;
    text.push_str(" ")?;
    append_call(text, seen.event)?;
    append_result(text, seen.event)?;
    append_state(text, view_told(seen.event, seen.view))?;
    text.push_str("\n")
}
