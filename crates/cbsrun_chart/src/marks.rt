//! The ticks at which jobs come, and the number of refused releases.

ghost use Rattle.std.specs.Prelude.{◌≡◌, OnOk};
ghost use Rattle.cbsrun_chart.specs.Marks.{arrivals_after, refusals_after};

use cbsrun_events::Event;
use cbsrun_window::Window;
use std::alloc::AllocError;

/// Returns how many releases were refused in the window, after one more step: at most 2^64 - 1.
#[inline]
pub(crate) fn refusals_after(window: Window, event: &Event, refusals: u64) -> u64
    ensures { result ≡ refusals_after window event.now refusals }
{
    match event {
        Event::NotAccepted { job, .. } if window.has(job.came) => refusals.saturating_add(1),
        _ => refusals,
    }
}

/// Adds the tick at which a job came, if the step accepted a job and the window shows that tick.
#[inline]
pub(crate) fn add_arrival(
    window: Window,
    event: &Event,
    arrivals: &mut Vec<u64>,
) -> Result<(), AllocError>
    ensures { OnOk result (arrivals.new.items ≡ arrivals_after window event.now
        arrivals.old.items) }
{
    match event {
        Event::Accepted { job, .. } if window.has(job.came) => arrivals.push(job.came)?,
        _ => {}
    }
    Ok(())
}
