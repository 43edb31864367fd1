//! The marks of ticks: jobs that come, are finished or are refused, and deadlines. Also the course of a budget.

ghost use Rattle.std.specs.Prelude.{◌≡◌, ◌≤◌, ◌^◌, ◌<◌, ◌++◌, OnOk, string_bytes};
ghost use Rattle.cbsrun_svg_shapes.specs.Marks.{arrival_text, arrivals_path, budget_text, completion_text, completions_path, corner_text, corners_text, course_path, crosses_text, deadline_text, deadlines_path, edge_stroke, end_stroke, ends_path, half_of, high_of, level_of, refusal_text, refused_path, rise_of, stroke_of};

use crate::axis::Axis;
use crate::layout::Layout;
use crate::shapes::{
    append_arrow_down, append_arrow_up, append_cross, append_label, append_lines, append_upright,
};
use cbsrun_chart::{Corner, Stretch};
use cbsrun_time_texts::append_time;
use std::alloc::{AllocError, Global};
use std::fmt::Write;

/// Returns the width of the lines of marks.
fn stroke_of(axis: &Axis) -> u64
    ensures value { result ≡ stroke_of axis.now }
    ensures small { result ≤ 120 }
{
    (axis.width() * 3 / 5).min(120)
}

/// Returns half the width of an arrow's head.
fn half_of(axis: &Axis) -> u64
    ensures value { result ≡ half_of axis.now }
    ensures small { result ≤ 300 }
{
    (axis.width() * 9 / 10).min(300)
}

/// Returns the height of an arrow's head.
fn high_of(axis: &Axis) -> u64
    ensures { result ≡ high_of axis.now }
{
    half_of(axis) * 4 / 3
}

/// Appends an arrow that stands on the bar at the tick at which a job comes.
fn append_arrival(
    shape: &mut String,
    axis: &Axis,
    layout: &Layout,
    tick: u64,
) -> Result<(), AllocError>
    ensures { OnOk result (string_bytes shape.new ≡ string_bytes shape.old
        ++ arrival_text axis.now layout.now tick) }
{
    append_arrow_up(
        shape,
        axis.x(tick),
        layout.bar,
        layout.top,
        half_of(axis),
        high_of(axis),
    )
}

/// Appends arrows at the ticks at which jobs come.
#[tactic(auto, unfolding(crate::specs::Marks::arrivals_path))]
pub fn append_arrivals(
    alloc: Global,
    text: &mut String,
    axis: &Axis,
    layout: &Layout,
    ticks: &[u64],
) -> Result<(), AllocError>
    ensures { OnOk result (string_bytes text.new ≡ string_bytes text.old
        ++ arrivals_path axis.now layout.now ticks.now) }
{
    let mut shape = String::new(alloc);
    for tick in ticks {
        append_arrival(&mut shape, axis, layout, *tick)?;
    }
    append_lines(text, "mark", stroke_of(axis), &shape)
}

/// Appends an arrow that points down from the line at a deadline.
fn append_deadline(
    shape: &mut String,
    axis: &Axis,
    layout: &Layout,
    tick: u64,
) -> Result<(), AllocError>
    ensures { OnOk result (string_bytes shape.new ≡ string_bytes shape.old
        ++ deadline_text axis.now layout.now tick) }
{
    append_arrow_down(
        shape,
        axis.x(tick),
        layout.line,
        layout.tip,
        half_of(axis),
        high_of(axis),
    )
}

/// Appends arrows at the ticks of deadlines.
#[tactic(auto, unfolding(crate::specs::Marks::deadlines_path))]
pub fn append_deadlines(
    alloc: Global,
    text: &mut String,
    axis: &Axis,
    layout: &Layout,
    ticks: &[u64],
) -> Result<(), AllocError>
    ensures { OnOk result (string_bytes text.new ≡ string_bytes text.old
        ++ deadlines_path axis.now layout.now ticks.now) }
{
    let mut shape = String::new(alloc);
    for tick in ticks {
        append_deadline(&mut shape, axis, layout, *tick)?;
    }
    append_lines(text, "mark", stroke_of(axis), &shape)
}

/// Returns how far the line of a finished job rises above the bar.
fn rise_of(layout: &Layout) -> u64
    ensures value { result ≡ rise_of layout.now }
    ensures small { result ≤ 400 }
{
    if layout.compact { 150 } else { 400 }
}

/// Appends a line across the end of the bar, at the tick at which a job is finished.
fn append_completion(
    shape: &mut String,
    axis: &Axis,
    layout: &Layout,
    tick: u64,
) -> Result<(), AllocError>
    ensures { OnOk result (string_bytes shape.new ≡ string_bytes shape.old
        ++ completion_text axis.now layout.now tick) }
{
    append_upright(
        shape,
        axis.x(tick),
        layout.bar - rise_of(layout),
        layout.bar + layout.height,
    )
}

/// Returns the width of the lines of finished jobs.
fn end_stroke(axis: &Axis) -> u64
    ensures value { result ≡ end_stroke axis.now }
    ensures small { result ≤ 180 }
{
    stroke_of(axis) * 3 / 2
}

/// Returns the width of the lines of finished jobs with their edge, which is at most 0.6 pixels wide on each side.
fn edge_stroke(axis: &Axis) -> u64
    ensures { result ≡ edge_stroke axis.now }
{
    end_stroke(axis) + (axis.width() / 5).min(120)
}

/// Appends the lines of finished jobs, which have this shape. An edge below them is seen in the dark, where lines and
/// bars may be equally light.
#[tactic(auto, unfolding(crate::specs::Marks::ends_path))]
fn append_ends(text: &mut String, axis: &Axis, shape: &str) -> Result<(), AllocError>
    ensures { OnOk result (string_bytes text.new ≡ string_bytes text.old
        ++ ends_path axis.now shape.now) }
{
    append_lines(text, "edge", edge_stroke(axis), shape)?;
    append_lines(text, "mark", end_stroke(axis), shape)
}

/// Appends lines at the ticks at which jobs are finished.
#[tactic(auto, unfolding(crate::specs::Marks::completions_path))]
pub fn append_completions(
    alloc: Global,
    text: &mut String,
    axis: &Axis,
    layout: &Layout,
    ticks: &[u64],
) -> Result<(), AllocError>
    ensures { OnOk result (string_bytes text.new ≡ string_bytes text.old
        ++ completions_path axis.now layout.now ticks.now) }
{
    let mut shape = String::new(alloc);
    for tick in ticks {
        append_completion(&mut shape, axis, layout, *tick)?;
    }
    append_ends(text, axis, &shape)
}

/// Appends a cross at a tick in which a release is refused.
fn append_refusal(
    shape: &mut String,
    axis: &Axis,
    layout: &Layout,
    tick: u64,
) -> Result<(), AllocError>
    ensures { OnOk result (string_bytes shape.new ≡ string_bytes shape.old
        ++ refusal_text axis.now layout.now tick) }
{
    append_cross(shape, axis.x(tick), layout.bar, layout.top)
}

/// Appends a cross at each tick of a stretch in which releases are refused.
#[tactic(auto, unfolding(crate::specs::Marks::crosses_text))]
fn append_crosses(
    shape: &mut String,
    axis: &Axis,
    layout: &Layout,
    refused: &Stretch,
) -> Result<(), AllocError>
    ensures { OnOk result (string_bytes shape.new ≡ string_bytes shape.old
        ++ crosses_text axis.now layout.now refused.now) }
{
    for place in 0..refused.to.saturating_sub(refused.from) {
        append_refusal(shape, axis, layout, refused.from + place)?;
    }
    Ok(())
}

/// Appends crosses at the ticks in which releases are refused.
#[tactic(auto, unfolding(crate::specs::Marks::refused_path))]
pub fn append_refused(
    alloc: Global,
    text: &mut String,
    axis: &Axis,
    layout: &Layout,
    refused: &[Stretch],
) -> Result<(), AllocError>
    ensures { OnOk result (string_bytes text.new ≡ string_bytes text.old
        ++ refused_path axis.now layout.now refused.now) }
{
    let mut shape = String::new(alloc);
    for stretch in refused {
        append_crosses(&mut shape, axis, layout, stretch)?;
    }
    append_lines(text, "no", 160, &shape)
}

/// Returns the height at which a budget is drawn, if a whole budget is `whole`.
#[tactic(auto, unfolding(crate::specs::Marks::level_of))]
fn level_of(whole: u64, budget: u64) -> u64
    requires { whole ≤ 1000000000 }
    ensures { result ≡ level_of whole budget }
{
    6300u64.saturating_sub(budget.min(whole) * 1300 / whole.max(1))
}

/// Appends a corner of the course of a budget.
#[tactic(auto, unfolding(crate::specs::Marks::corner_text))]
fn append_corner(
    text: &mut String,
    axis: &Axis,
    whole: u64,
    corner: &Corner,
) -> Result<(), AllocError>
    requires { whole ≤ 1000000000 }
    ensures { OnOk result (string_bytes text.new ≡ string_bytes text.old
        ++ corner_text axis.now whole corner.now) }
{
    let x = axis.x(corner.tick);
    let level = level_of(whole, corner.budget);
    write!(text, "L{x} {level}")
}

/// Appends all corners of the course of a budget.
#[tactic(auto, unfolding(crate::specs::Marks::corners_text))]
fn append_corners(
    text: &mut String,
    axis: &Axis,
    whole: u64,
    corners: &[Corner],
) -> Result<(), AllocError>
    requires { whole ≤ 1000000000 }
    ensures { OnOk result (string_bytes text.new ≡ string_bytes text.old
        ++ corners_text axis.now whole corners.now) }
{
    for corner in corners {
        append_corner(text, axis, whole, corner)?;
    }
    Ok(())
}

/// Appends the course of a budget: an area under straight lines from corner to corner.
#[tactic(auto, unfolding(crate::specs::Marks::course_path))]
fn append_course(
    text: &mut String,
    axis: &Axis,
    whole: u64,
    opening: u64,
    corners: &[Corner],
) -> Result<(), AllocError>
    requires { whole ≤ 1000000000 }
    ensures { OnOk result (string_bytes text.new ≡ string_bytes text.old
        ++ course_path axis.now whole opening corners.now) }
{
    let left = axis.left();
    let level = level_of(whole, opening);
    write!(text, "<path class=\"budget\" d=\"M{left} 6300V{level}")?;
    append_corners(text, axis, whole, corners)?;
    let right = axis.right();
    writeln!(text, "H{right}V6300z\"/>")
}

/// Appends the course of a budget, labelled with the whole budget, if budgets are drawn. The label is in milliseconds if
/// the nanoseconds of a tick are known.
#[tactic(auto, unfolding(crate::specs::Marks::budget_text))]
pub fn append_budget(
    alloc: Global,
    text: &mut String,
    tick: Option<u64>,
    axis: &Axis,
    layout: &Layout,
    whole: u64,
    opening: u64,
    corners: &[Corner],
) -> Result<(), AllocError>
    requires { whole ≤ 1000000000 }
    ensures { OnOk result (string_bytes text.new ≡ string_bytes text.old
        ++ budget_text tick axis.now layout.now whole opening corners.now) }
{
    if !layout.budgets {
        return Ok(());
    }
    append_course(text, axis, whole, opening, corners)?;
    let mut label = String::from_str(alloc, "c &#8804; ")?;
    append_time(&mut label, tick, whole)?;
    append_label(text, "m r", axis.left().saturating_sub(800), 5900, &label)
}
