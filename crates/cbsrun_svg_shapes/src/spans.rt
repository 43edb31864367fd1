//! What a server does, drawn tick by tick.

ghost use Rattle.std.specs.Prelude.{◌≡◌, ◌++◌, codes, decimal, IfOk, OnOk, string_bytes};
ghost use Rattle.cbsrun_svg_shapes.specs.Shapes.{stretch_text};
ghost use Rattle.cbsrun_svg_shapes.specs.Spans.{bar_class, bar_text, bar_title, charged_class, finish_text, from_to_text, is_pale, job_text, late_by_text, late_text, number_text, other_text, pale_path, pale_text, placed_span, stretch_title, ticks_word};

use crate::axis::Axis;
use crate::layout::Layout;
use crate::shapes::{
    append_box, append_label, append_path, append_stretch, append_titled, width_of,
};
use cbs_rules::Mode;
use cbsrun_chart::{ChartJob, Kind, Stretch, job_numbered};
use cbsrun_time_texts::append_time;
use std::alloc::{AllocError, Global};

/// The row that is drawn: its place, and its server.
#[derive(Clone, Copy)]
pub struct Place<'a> {
    /// The places of ticks.
    pub axis: Axis,
    /// The places of the parts of the row.
    pub layout: Layout,
    /// The server's mode.
    pub mode: Mode,
    /// The server's name.
    pub name: &'a str,
    /// The nanoseconds of a tick, or `None` if they are not known.
    pub tick: Option<u64>,
}

/// Returns whether ticks of this kind are pale: the server has a job, and does not run.
fn is_pale(kind: Kind) -> bool
    ensures { result ≡ is_pale kind }
{
    match kind {
        Kind::Waits | Kind::Throttled => true,
        Kind::Runs(_) | Kind::Charged | Kind::Resting | Kind::Refused | Kind::Late | Kind::Idle =>
            false,
    }
}

/// Appends the box of a stretch, if its ticks are pale.
fn append_if_pale(
    shape: &mut String,
    axis: &Axis,
    layout: &Layout,
    span: &Stretch,
) -> Result<(), AllocError>
    ensures { OnOk result (string_bytes shape.new ≡ string_bytes shape.old
        ++ pale_text axis.now layout.now span.now) }
{
    if is_pale(span.kind) {
        append_stretch(shape, axis, layout.bar, layout.height, span)?;
    }
    Ok(())
}

/// Appends all pale ticks.
#[tactic(auto, unfolding(crate::specs::Spans::pale_path))]
pub fn append_pale(
    alloc: Global,
    text: &mut String,
    axis: &Axis,
    layout: &Layout,
    spans: &[Stretch],
) -> Result<(), AllocError>
    ensures { OnOk result (string_bytes text.new ≡ string_bytes text.old
        ++ pale_path axis.now layout.now spans.now) }
{
    let mut shape = String::new(alloc);
    for span in spans {
        append_if_pale(&mut shape, axis, layout, span)?;
    }
    append_path(text, "wait", &shape)
}

/// Returns the word before the numbers of ticks. Milliseconds have a unit after each.
fn ticks_word(tick: Option<u64>) -> &'static str
    ensures { result.now ≡ ticks_word tick }
{
    match tick {
        Some(_) => "",
        None => "ticks ",
    }
}

/// Appends from which tick up to which other something is, in milliseconds if the nanoseconds of a tick are known. The
/// only error is out of memory.
#[tactic(auto, unfolding(crate::specs::Spans::from_to_text))]
pub fn append_from_to(
    text: &mut String,
    tick: Option<u64>,
    from: u64,
    to: u64,
) -> Result<(), AllocError>
    ensures { OnOk result (string_bytes text.new ≡ string_bytes text.old
        ++ from_to_text tick from to) }
{
    text.push_str(ticks_word(tick))?;
    append_time(text, tick, from)?;
    text.push_str(" to ")?;
    append_time(text, tick, to)
}

/// Returns the title of a stretch: what goes on in it, and in which ticks.
#[tactic(auto, unfolding(crate::specs::Spans::stretch_title))]
pub(crate) fn stretch_title(
    alloc: Global,
    tick: Option<u64>,
    name: &str,
    what: &str,
    span: &Stretch,
) -> Result<String, AllocError>
    ensures { IfOk result (λ title. string_bytes title
        ≡ stretch_title tick name.now what.now span.now) }
{
    let mut title = format!(in alloc; "{name}{what}: ")?;
    append_from_to(&mut title, tick, span.from, span.to)?;
    Ok(title)
}

/// Appends by how many ticks a job that took `took` ticks was finished late, if it was.
fn append_late_by(
    title: &mut String,
    tick: Option<u64>,
    within: Option<u64>,
    took: u64,
) -> Result<(), AllocError>
    ensures { OnOk result (string_bytes title.new ≡ string_bytes title.old
        ++ late_by_text tick within took) }
{
    match within {
        Some(within) if within < took => {
            title.push_str(", late by ")?;
            append_time(title, tick, took - within)
        }
        _ => Ok(()),
    }
}

/// Appends at which tick a job was finished, and by how much it was late.
fn append_finish(
    title: &mut String,
    tick: Option<u64>,
    job: &ChartJob,
    finish: Option<u64>,
) -> Result<(), AllocError>
    ensures { OnOk result (string_bytes title.new ≡ string_bytes title.old
        ++ finish_text tick job.now finish) }
{
    let Some(finish) = finish else {
        return title.push_str(", not finished");
    };
    title.push_str(", finished at ")?;
    append_time(title, tick, finish)?;
    append_late_by(title, tick, job.within, finish.saturating_sub(job.came))
}

/// Appends at which tick a job came, and at which it was finished.
fn append_job(
    title: &mut String,
    tick: Option<u64>,
    job: Option<ChartJob>,
) -> Result<(), AllocError>
    ensures { OnOk result (string_bytes title.new ≡ string_bytes title.old ++ job_text tick job) }
{
    let Some(job) = job else {
        return Ok(());
    };
    title.push_str("; came at ")?;
    append_time(title, tick, job.came)?;
    append_finish(title, tick, &job, job.finish)
}

/// Returns the title of a bar.
#[tactic(auto, unfolding(crate::specs::Spans::bar_title))]
fn bar_title(
    alloc: Global,
    tick: Option<u64>,
    name: &str,
    number: u64,
    span: &Stretch,
    jobs: &[ChartJob],
) -> Result<String, AllocError>
    ensures { IfOk result (λ title. string_bytes title
        ≡ bar_title tick name.now number span.now jobs.now) }
{
    let what = format!(in alloc; " job {number}")?;
    let mut title = stretch_title(alloc, tick, name, &what, span)?;
    append_job(&mut title, tick, job_numbered(number, jobs))?;
    Ok(title)
}

/// Returns the class of a bar. It differs between a job and the next one, and between soft and throttled servers.
pub fn bar_class(mode: Mode, even: bool) -> &'static str
    ensures { result.now ≡ bar_class mode even }
{
    match (mode, even) {
        (Mode::Soft, true) => "s0",
        (Mode::Soft, false) => "s1",
        (Mode::Throttled, true) => "t0",
        (Mode::Throttled, false) => "t1",
    }
}

/// Returns the box of a stretch, as high as a bar.
fn bar_shape(
    alloc: Global,
    axis: &Axis,
    layout: &Layout,
    span: &Stretch,
) -> Result<String, AllocError>
    ensures { IfOk result (λ shape. string_bytes shape
        ≡ stretch_text axis.now layout.now.bar layout.now.height span.now) }
{
    let mut shape = String::new(alloc);
    append_stretch(&mut shape, axis, layout.bar, layout.height, span)?;
    Ok(shape)
}

/// Appends the number of a job in its bar, if the bar is wide enough.
#[tactic(auto, unfolding(crate::specs::Spans::number_text))]
fn append_number(
    alloc: Global,
    text: &mut String,
    axis: &Axis,
    layout: &Layout,
    number: u64,
    span: &Stretch,
) -> Result<(), AllocError>
    ensures { OnOk result (string_bytes text.new ≡ string_bytes text.old
        ++ number_text axis.now layout.now number span.now) }
{
    let label = number.to_string(alloc)?;
    let width = width_of(axis, span);
    if layout.compact || width.saturating_sub(300) / 620 < label.len() as u64 {
        return Ok(());
    }
    append_label(
        text,
        "j",
        axis.x(span.from) + width / 2,
        layout.bar + 1260,
        &label,
    )
}

/// Appends a bar: the ticks of neighbouring units of one job.
#[tactic(auto, unfolding(crate::specs::Spans::bar_text))]
fn append_bar(
    alloc: Global,
    text: &mut String,
    place: &Place<'_>,
    jobs: &[ChartJob],
    number: u64,
    span: &Stretch,
) -> Result<(), AllocError>
    ensures { let p = place.now in
        OnOk result (string_bytes text.new ≡ string_bytes text.old
        ++ bar_text p.tick p.axis p.layout p.mode p.name.now jobs.now number span.now) }
{
    let shape = bar_shape(alloc, &place.axis, &place.layout, span)?;
    let title = bar_title(alloc, place.tick, place.name, number, span, jobs)?;
    append_titled(text, bar_class(place.mode, number % 2 == 0), &shape, &title)?;
    append_number(alloc, text, &place.axis, &place.layout, number, span)
}

/// Appends ticks that are no bar, with what goes on in them as a title.
#[tactic(auto, unfolding(crate::specs::Spans::other_text))]
fn append_other(
    alloc: Global,
    text: &mut String,
    place: &Place<'_>,
    class: &str,
    what: &str,
    span: &Stretch,
) -> Result<(), AllocError>
    ensures { OnOk result (string_bytes text.new ≡ string_bytes text.old
        ++ other_text place.now.tick place.now.axis place.now.layout class.now place.now.name.now
        what.now span.now) }
{
    let shape = bar_shape(alloc, &place.axis, &place.layout, span)?;
    let title = stretch_title(alloc, place.tick, place.name, what, span)?;
    append_titled(text, class, &shape, &title)
}

/// Returns the class of charged ticks: boxes with an outline, or filled ones if cells are narrow.
fn charged_class(axis: &Axis) -> &'static str
    ensures { result.now ≡ charged_class axis.now }
{
    if axis.is_wide() { "charged" } else { "fee" }
}

/// Appends a stretch of ticks in which a server does something.
pub fn append_span(
    alloc: Global,
    text: &mut String,
    place: &Place<'_>,
    jobs: &[ChartJob],
    span: &Stretch,
) -> Result<(), AllocError>
    ensures { OnOk result (string_bytes text.new ≡ string_bytes text.old
        ++ placed_span place.now jobs.now span.now) }
{
    match span.kind {
        Kind::Runs(number) => append_bar(alloc, text, place, jobs, number, span),
        Kind::Charged => {
            append_other(
                alloc,
                text,
                place,
                charged_class(&place.axis),
                " charged",
                span,
            )
        }
        Kind::Throttled => append_other(alloc, text, place, "hatch", " throttled", span),
        Kind::Resting => append_other(
            alloc,
            text,
            place,
            "hatch",
            " throttled, without a job",
            span,
        ),
        Kind::Waits | Kind::Refused | Kind::Late | Kind::Idle => Ok(()),
    }
}

/// Appends ticks in which a job is late. They are drawn at least a pixel and a half wide.
#[tactic(auto, unfolding(crate::specs::Spans::late_text))]
pub fn append_late(
    alloc: Global,
    text: &mut String,
    place: &Place<'_>,
    late: &Stretch,
) -> Result<(), AllocError>
    ensures { OnOk result (string_bytes text.new ≡ string_bytes text.old
        ++ late_text place.now.tick place.now.axis place.now.layout place.now.name.now late.now) }
{
    let axis = &place.axis;
    let layout = &place.layout;
    let width = width_of(axis, late).max(150);
    let mut shape = String::new(alloc);
    append_box(
        &mut shape,
        axis.x(late.from),
        layout.bar + layout.height,
        width,
        layout.lane,
    )?;
    let title = stretch_title(alloc, place.tick, place.name, " late", late)?;
    append_titled(text, "late", &shape, &title)
}
