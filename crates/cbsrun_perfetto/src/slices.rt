//! The slices of a trace: what a server does.

ghost use Rattle.std.specs.Bool.{OnTrue};
ghost use Rattle.std.specs.Prelude.{◌≡◌, ◌++◌, IfOk, OnOk, true};
ghost use Rattle.cbsrun_chart.specs.Jobs.{are_in_turn, job_numbered};
ghost use Rattle.cbsrun_perfetto.specs.Traces.{bar_line, other_line, slice_of, slices_of};

use crate::events::{job_args, no_args, slice_line};
use crate::line::{Line, append_line};
use cbsrun_chart::{ChartJob, Kind, ServerChart, Stretch, are_in_turn, job_in_turn, job_numbered};
use std::alloc::{AllocError, Global};

/// Returns the job with this number, or `None` if it is not among the jobs. If their numbers go on by one, which `in_turn`
/// says, looks at one job.
fn job_of(number: u64, jobs: &[ChartJob], in_turn: bool) -> Option<ChartJob>
    requires { OnTrue in_turn (are_in_turn jobs.now ≡ true) }
    ensures { result ≡ job_numbered number jobs.now }
{
    if in_turn {
        return job_in_turn(number, jobs);
    }
    job_numbered(number, jobs)
}

/// Returns the line of a bar of a job, with what is known of the job.
#[tactic(auto, unfolding(crate::specs::Traces::bar_line))]
fn bar_line(
    alloc: Global,
    thread: u64,
    jobs: &[ChartJob],
    in_turn: bool,
    number: u64,
    span: &Stretch,
) -> Result<Line, AllocError>
    requires { OnTrue in_turn (are_in_turn jobs.now ≡ true) }
    ensures { IfOk result (λ line. line ≡ bar_line thread jobs.now number span.now) }
{
    let name = format!(in alloc; "job {number}")?;
    let args = job_args(alloc, number, job_of(number, jobs, in_turn))?;
    slice_line(alloc, &name, "run", thread, span, &args)
}

/// Returns the line of ticks that are no bar, by what goes on in them.
#[tactic(auto, unfolding(crate::specs::Traces::other_line))]
fn other_line(alloc: Global, thread: u64, what: &str, span: &Stretch) -> Result<Line, AllocError>
    ensures { IfOk result (λ line. line ≡ other_line thread what.now span.now) }
{
    slice_line(alloc, what, what, thread, span, &no_args(alloc)?)
}

/// Appends the slice of a stretch, if the stretch has one.
fn append_slice(
    alloc: Global,
    lines: &mut Vec<Line>,
    thread: u64,
    jobs: &[ChartJob],
    in_turn: bool,
    span: &Stretch,
) -> Result<(), AllocError>
    requires { OnTrue in_turn (are_in_turn jobs.now ≡ true) }
    ensures { OnOk result (lines.new.items ≡ lines.old.items
        ++ slice_of thread jobs.now span.now.kind span.now) }
{
    match span.kind {
        Kind::Runs(number) => append_line(
            lines,
            bar_line(alloc, thread, jobs, in_turn, number, span)?,
        ),
        Kind::Charged => append_line(lines, other_line(alloc, thread, "charged", span)?),
        Kind::Throttled => append_line(lines, other_line(alloc, thread, "throttled", span)?),
        Kind::Waits => append_line(lines, other_line(alloc, thread, "waits", span)?),
        Kind::Resting | Kind::Refused | Kind::Late | Kind::Idle => Ok(()),
    }
}

/// Appends the slices of a server.
#[tactic(auto, unfolding(crate::specs::Traces::slices_of))]
pub(crate) fn append_slices(
    alloc: Global,
    lines: &mut Vec<Line>,
    thread: u64,
    chart: &ServerChart,
) -> Result<(), AllocError>
    ensures { OnOk result (lines.new.items ≡ lines.old.items ++ slices_of thread chart.now) }
{
    let in_turn = are_in_turn(&chart.jobs);
    for span in &chart.spans {
        append_slice(alloc, lines, thread, &chart.jobs, in_turn, span)?;
    }
    Ok(())
}
