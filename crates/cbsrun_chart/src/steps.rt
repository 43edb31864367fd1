//! What goes on in the ticks of a step.

ghost use Rattle.std.specs.Prelude.{◌≡◌};
ghost use Rattle.cbsrun_chart.specs.Rows.{came_of, kind_of, kind_of_run, step_stretch};

use cbs_steps::Ran;
use cbsrun_events::{Event, Seen};
use cbsrun_window::{Kind, Stretch};

/// Returns what goes on in the ticks of a run.
fn kind_of_run(ran: Ran) -> Kind
    ensures { result ≡ kind_of_run ran }
{
    match ran {
        Ran::Unit { seq, .. } => Kind::Runs(seq),
        Ran::Done(done) => Kind::Runs(done.seq),
        Ran::Idle | Ran::ClockEnd => Kind::Idle,
    }
}

/// Returns what goes on in the ticks of a step.
fn kind_of(event: &Event) -> Kind
    ensures { result ≡ kind_of event.now }
{
    match event {
        Event::Ran(ran) => kind_of_run(*ran),
        Event::Charged { .. } => Kind::Charged,
        _ => Kind::Idle,
    }
}

/// Returns the tick at which the job came that a step accepts, or `None` if it accepts none. A charge of another server
/// may have passed that tick.
#[inline]
pub(crate) fn came_of(event: &Event) -> Option<u64>
    ensures { result ≡ came_of event.now }
{
    match event {
        Event::Accepted { job, .. } => Some(job.came),
        _ => None,
    }
}

/// Returns the ticks of a step, with what goes on in them.
pub(crate) fn stretch_of(seen: &Seen) -> Stretch
    ensures { result ≡ step_stretch seen.now }
{
    Stretch {
        kind: kind_of(&seen.event),
        from: seen.begun(),
        to: seen.clock,
    }
}
