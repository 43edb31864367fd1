//! The instants of a server: jobs that come, are finished or are refused, and its deadlines. Also its budget.

ghost use Rattle.std.specs.Prelude.{◌≡◌, ◌<◌, ◌++◌, false, IfOk, OnOk, codes, decimal, length};
ghost use Rattle.serde_json.specs.View.{view};
ghost use Rattle.serde_json.specs.Written.{has_float};
ghost use Rattle.cbsrun_perfetto.specs.Events.{instant_line};
ghost use Rattle.cbsrun_perfetto.specs.Traces.{arrival_in, arrival_line, arrivals_of, budget_before, budgets_of, change_at, change_between, changes_of, deadline_line, deadlines_of, end_at, end_line, ends_of, late_by, refusals_in, refusals_of, refused_line};

use crate::events::{budget_line, came_args, finished_args, instant_line, no_args};
use crate::line::{Line, append_line};
use cbsrun_chart::{ChartJob, Corner, ServerChart, Stretch, Window};
use serde_json::Value;
use std::alloc::{AllocError, Global};

/// Returns by how many ticks a job that took `took` ticks was late, or 0 if it was not.
fn late_by(within: Option<u64>, took: u64) -> u64
    ensures { result ≡ late_by within took }
{
    match within {
        Some(within) => took.saturating_sub(within),
        None => 0,
    }
}

/// Returns the line of the end of a job, by what is said of the end, and by its category.
fn named_end(
    alloc: Global,
    thread: u64,
    number: u64,
    tick: u64,
    how: &str,
    cat: &str,
    args: Value,
) -> Result<Line, AllocError>
    requires { has_float (view args) ≡ false }
    ensures { IfOk result (λ line. line ≡ instant_line (codes "job " ++ decimal number
        ++ codes " finished" ++ how.now) cat.now thread tick (view args)) }
{
    let name = format!(in alloc; "job {number} finished{how}")?;
    instant_line(alloc, &name, cat, thread, tick, &args)
}

/// Returns the line of the end of a job that took `took` ticks and was late by `late` ticks.
#[tactic(auto, unfolding(crate::specs::Traces::end_line))]
fn end_line(
    alloc: Global,
    thread: u64,
    job: &ChartJob,
    tick: u64,
    took: u64,
    late: u64,
) -> Result<Line, AllocError>
    ensures { IfOk result (λ line. line ≡ end_line thread job.now tick took late) }
{
    let number = job.number;
    let args = finished_args(alloc, took, late)?;
    if late == 0 {
        named_end(alloc, thread, number, tick, "", "completion", args)
    } else {
        named_end(alloc, thread, number, tick, ", late", "late", args)
    }
}

/// Appends the end of a job, if the job was finished in the window.
fn append_end(
    alloc: Global,
    lines: &mut Vec<Line>,
    window: Window,
    thread: u64,
    job: &ChartJob,
    finish: Option<u64>,
) -> Result<(), AllocError>
    ensures { OnOk result (lines.new.items ≡ lines.old.items
        ++ end_at window thread job.now finish) }
{
    let Some(finish) = finish else {
        return Ok(());
    };
    if window.ends(finish) {
        let took = finish.saturating_sub(job.came);
        let late = late_by(job.within, took);
        return append_line(lines, end_line(alloc, thread, job, finish, took, late)?);
    }
    Ok(())
}

/// Appends the ends of those jobs that were finished in the window.
#[tactic(auto, unfolding(crate::specs::Traces::ends_of))]
pub(crate) fn append_ends(
    alloc: Global,
    lines: &mut Vec<Line>,
    window: Window,
    thread: u64,
    jobs: &[ChartJob],
) -> Result<(), AllocError>
    ensures { OnOk result (lines.new.items ≡ lines.old.items ++ ends_of window thread jobs.now) }
{
    for job in jobs {
        append_end(alloc, lines, window, thread, job, job.finish)?;
    }
    Ok(())
}

/// Returns the line of a tick in which a release is refused.
#[tactic(auto, unfolding(crate::specs::Traces::refused_line))]
fn refused_line(alloc: Global, thread: u64, tick: u64) -> Result<Line, AllocError>
    ensures { IfOk result (λ line. line ≡ refused_line thread tick) }
{
    instant_line(alloc, "refused", "refused", thread, tick, &no_args(alloc)?)
}

/// Appends a line for each tick of a stretch in which releases are refused.
#[tactic(auto, unfolding(crate::specs::Traces::refusals_in))]
fn append_refusals_in(
    alloc: Global,
    lines: &mut Vec<Line>,
    thread: u64,
    refused: &Stretch,
) -> Result<(), AllocError>
    ensures { OnOk result (lines.new.items ≡ lines.old.items ++ refusals_in thread refused.now) }
{
    for place in 0..refused.to.saturating_sub(refused.from) {
        append_line(lines, refused_line(alloc, thread, refused.from + place)?)?;
    }
    Ok(())
}

/// Appends a line for each tick in which releases are refused.
#[tactic(auto, unfolding(crate::specs::Traces::refusals_of))]
pub(crate) fn append_refusals(
    alloc: Global,
    lines: &mut Vec<Line>,
    thread: u64,
    refused: &[Stretch],
) -> Result<(), AllocError>
    ensures { OnOk result (lines.new.items ≡ lines.old.items ++ refusals_of thread refused.now) }
{
    for stretch in refused {
        append_refusals_in(alloc, lines, thread, stretch)?;
    }
    Ok(())
}

/// Returns the line of the arrival of a job.
#[tactic(auto, unfolding(crate::specs::Traces::arrival_line))]
fn arrival_line(alloc: Global, thread: u64, job: &ChartJob) -> Result<Line, AllocError>
    ensures { IfOk result (λ line. line ≡ arrival_line thread job.now) }
{
    let number = job.number;
    let name = format!(in alloc; "job {number} comes")?;
    let args = came_args(alloc, job)?;
    instant_line(alloc, &name, "arrival", thread, job.came, &args)
}

/// Appends the arrival of a job, if the job came in the window.
fn append_arrival(
    alloc: Global,
    lines: &mut Vec<Line>,
    window: Window,
    thread: u64,
    job: &ChartJob,
) -> Result<(), AllocError>
    ensures { OnOk result (lines.new.items ≡ lines.old.items ++ arrival_in window thread job.now) }
{
    if window.has(job.came) {
        return append_line(lines, arrival_line(alloc, thread, job)?);
    }
    Ok(())
}

/// Appends the arrivals of those jobs that came in the window.
#[tactic(auto, unfolding(crate::specs::Traces::arrivals_of))]
pub(crate) fn append_arrivals(
    alloc: Global,
    lines: &mut Vec<Line>,
    window: Window,
    thread: u64,
    jobs: &[ChartJob],
) -> Result<(), AllocError>
    ensures { OnOk result (lines.new.items ≡ lines.old.items
        ++ arrivals_of window thread jobs.now) }
{
    for job in jobs {
        append_arrival(alloc, lines, window, thread, job)?;
    }
    Ok(())
}

/// Returns the line of a deadline.
#[tactic(auto, unfolding(crate::specs::Traces::deadline_line))]
fn deadline_line(alloc: Global, thread: u64, tick: u64) -> Result<Line, AllocError>
    ensures { IfOk result (λ line. line ≡ deadline_line thread tick) }
{
    instant_line(
        alloc,
        "deadline",
        "deadline",
        thread,
        tick,
        &no_args(alloc)?,
    )
}

/// Appends a line for each deadline.
#[tactic(auto, unfolding(crate::specs::Traces::deadlines_of))]
pub(crate) fn append_deadlines(
    alloc: Global,
    lines: &mut Vec<Line>,
    thread: u64,
    ticks: &[u64],
) -> Result<(), AllocError>
    ensures { OnOk result (lines.new.items ≡ lines.old.items ++ deadlines_of thread ticks.now) }
{
    for tick in ticks {
        append_line(lines, deadline_line(alloc, thread, *tick)?)?;
    }
    Ok(())
}

/// Returns the budget before a corner of its course.
fn budget_before(opening: u64, corners: &[Corner], place: usize) -> u64
    requires { place < length corners.now }
    ensures { result ≡ budget_before opening corners.now place }
{
    if place == 0 {
        return opening;
    }
    corners[place - 1].budget
}

/// Appends the budget from a corner on, if it differs from the budget before.
fn append_change_between(
    alloc: Global,
    lines: &mut Vec<Line>,
    name: &str,
    thread: u64,
    before: u64,
    corner: Corner,
) -> Result<(), AllocError>
    ensures { OnOk result (lines.new.items ≡ lines.old.items
        ++ change_between name.now thread before corner) }
{
    if corner.budget == before {
        return Ok(());
    }
    append_line(
        lines,
        budget_line(alloc, name, thread, corner.tick, corner.budget)?,
    )
}

/// Appends the budget from the corner at a place on, if it differs from the budget before.
fn append_change(
    alloc: Global,
    lines: &mut Vec<Line>,
    name: &str,
    thread: u64,
    opening: u64,
    corners: &[Corner],
    place: usize,
) -> Result<(), AllocError>
    requires { place < length corners.now }
    ensures { OnOk result (lines.new.items ≡ lines.old.items
        ++ change_at name.now thread opening corners.now place) }
{
    let before = budget_before(opening, corners, place);
    append_change_between(alloc, lines, name, thread, before, corners[place])
}

/// Appends each change of a budget.
#[tactic(auto, unfolding(crate::specs::Traces::changes_of))]
fn append_changes(
    alloc: Global,
    lines: &mut Vec<Line>,
    name: &str,
    thread: u64,
    opening: u64,
    corners: &[Corner],
) -> Result<(), AllocError>
    ensures { OnOk result (lines.new.items ≡ lines.old.items
        ++ changes_of name.now thread opening corners.now) }
{
    for place in 0..corners.len() {
        append_change(alloc, lines, name, thread, opening, corners, place)?;
    }
    Ok(())
}

/// Appends the budget at the window's first tick, and each change after it.
#[tactic(auto, unfolding(crate::specs::Traces::budgets_of))]
pub(crate) fn append_budgets(
    alloc: Global,
    lines: &mut Vec<Line>,
    window: Window,
    name: &str,
    thread: u64,
    chart: &ServerChart,
) -> Result<(), AllocError>
    ensures { OnOk result (lines.new.items ≡ lines.old.items
        ++ budgets_of window name.now thread chart.now) }
{
    append_line(
        lines,
        budget_line(alloc, name, thread, window.from, chart.opening)?,
    )?;
    append_changes(alloc, lines, name, thread, chart.opening, &chart.corners)
}
