//! The events of one server, and its title.

ghost use Rattle.std.specs.Prelude.{◌≡◌, ◌-◌, ◌<◌, ◌^◌, ◌++◌, IfOk, OnOk, string_bytes};
ghost use Rattle.cbsrun_perfetto.specs.Traces.{events_of, next_text, server_text, title_text};

use crate::events::{about_text, named_args, placed_args};
use crate::line::Line;
use crate::marks::{
    append_arrivals, append_budgets, append_deadlines, append_ends, append_refusals,
};
use crate::slices::append_slices;
use cbs_rate::Reservation;
use cbs_rules::Mode;
use cbsrun_chart::{Drawn, Window};
use cbsrun_text::mode_word;
use cbsrun_time_texts::append_time;
use std::alloc::{AllocError, Global};

/// Appends all events of a server.
#[tactic(auto, unfolding(crate::specs::Traces::events_of))]
pub(crate) fn append_events(
    alloc: Global,
    lines: &mut Vec<Line>,
    window: Window,
    thread: u64,
    drawn: &Drawn,
) -> Result<(), AllocError>
    ensures { OnOk result (lines.new.items ≡ lines.old.items ++ events_of window thread drawn.now) }
{
    let chart = &drawn.chart;
    append_slices(alloc, lines, thread, chart)?;
    append_ends(alloc, lines, window, thread, &chart.jobs)?;
    append_refusals(alloc, lines, thread, &chart.refused)?;
    append_arrivals(alloc, lines, window, thread, &chart.jobs)?;
    append_deadlines(alloc, lines, thread, &chart.deadlines)?;
    append_budgets(alloc, lines, window, &drawn.name, thread, chart)
}

/// Returns the title of a server: its name, reservation and mode.
#[tactic(auto, unfolding(crate::specs::Traces::title_text))]
fn title_text(
    alloc: Global,
    nanoseconds: Option<u64>,
    name: &str,
    reservation: Reservation,
    mode: Mode,
) -> Result<String, AllocError>
    ensures { IfOk result (λ text. string_bytes text
        ≡ title_text nanoseconds name.now reservation mode) }
{
    let mut text = String::from_str(alloc, name)?;
    text.push_str(", ")?;
    append_time(&mut text, nanoseconds, reservation.budget())?;
    text.push_str(" in every ")?;
    append_time(&mut text, nanoseconds, reservation.period())?;
    text.push_str(", ")?;
    text.push_str(mode_word(mode))?;
    Ok(text)
}

/// Appends a line after another one.
fn append_next(text: &mut String, line: &str) -> Result<(), AllocError>
    ensures { OnOk result (string_bytes text.new ≡ string_bytes text.old ++ next_text line.now) }
{
    text.push_str(",\n")?;
    text.push_str(line)
}

/// Appends the description of a server: its title, and its place.
#[tactic(auto, unfolding(crate::specs::Traces::server_text))]
pub(crate) fn append_server(
    alloc: Global,
    text: &mut String,
    nanoseconds: Option<u64>,
    place: u64,
    drawn: &Drawn,
) -> Result<(), AllocError>
    requires { place < 2 ^ 64 - 1 }
    ensures { OnOk result (string_bytes text.new ≡ string_bytes text.old
        ++ server_text nanoseconds place drawn.now) }
{
    let title = title_text(
        alloc,
        nanoseconds,
        &drawn.name,
        drawn.reservation,
        drawn.mode,
    )?;
    let args = named_args(alloc, &title)?;
    let named = about_text(alloc, "thread_name", place + 1, args)?;
    append_next(text, &named)?;
    let args = placed_args(alloc, place)?;
    let placed = about_text(alloc, "thread_sort_index", place + 1, args)?;
    append_next(text, &placed)
}
