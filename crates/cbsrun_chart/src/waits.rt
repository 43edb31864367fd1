//! What a server does between two of its steps.

ghost use Rattle.std.specs.Prelude.{◌≡◌};
ghost use Rattle.cbsrun_chart.specs.Rows.{at_start, has_job, job_from, last_seen, resting_stretch, throttled_stretch, throttled_until, waiting_stretch};

use cbs_steps::ServerView;
use cbsrun_window::{Kind, Stretch};

/// The view of a server after its last step.
#[derive(Clone, Copy)]
pub(crate) struct Last {
    /// The clock after the step.
    pub clock: u64,
    /// The server's view.
    pub view: ServerView,
}

/// Returns whether a server with this view has an unfinished job.
fn has_job(view: &ServerView) -> bool
    ensures { result ≡ has_job view.now }
{
    view.finished < view.accepted
}

/// Returns the tick until which a server with this view at the tick `from` is throttled, at most `to`. Returns `from`
/// if it is not throttled.
fn throttled_until(view: &ServerView, from: u64, to: u64) -> u64
    ensures { result ≡ throttled_until view.now from to }
{
    if !view.throttled {
        return from;
    }
    let end = view.deadline.min(u128::from(to)) as u64;
    end.max(from)
}

impl Last {
    /// Returns the view of a server before its first step: the server has no job and no budget, and is not throttled.
    pub fn at_start() -> Last
        ensures { result ≡ at_start }
    {
        Last {
            clock: 0,
            view: ServerView {
                budget: 0,
                deadline: 0,
                throttled: false,
                closed: false,
                accepted: 0,
                finished: 0,
            },
        }
    }

    /// Returns the view of a server after a step with the clock, or `None` if there is no view.
    pub fn of(clock: u64, view: Option<ServerView>) -> Option<Last>
        ensures { result ≡ last_seen clock view }
    {
        let view = view?;
        Some(Last { clock, view })
    }

    /// Returns the tick from which on the server has a job, before its next step at the tick `to`. The job that this
    /// step accepts, if it accepts one, came at `came`. Returns `to` or later if the server has no job.
    fn job_from(&self, came: Option<u64>, to: u64) -> u64
        ensures { result ≡ job_from self.now came to }
    {
        if has_job(&self.view) {
            return self.clock;
        }
        came.unwrap_or(to).max(self.clock)
    }

    /// Returns the ticks up to the next step, at the tick `to`, in which the server is throttled and has no job.
    pub fn resting(&self, came: Option<u64>, to: u64) -> Stretch
        ensures { result ≡ resting_stretch self.now came to }
    {
        Stretch {
            kind: Kind::Resting,
            from: self.clock,
            to: throttled_until(&self.view, self.clock, to).min(self.job_from(came, to)),
        }
    }

    /// Returns the ticks up to the next step, at the tick `to`, in which the server is throttled and has a job.
    pub fn throttled(&self, came: Option<u64>, to: u64) -> Stretch
        ensures { result ≡ throttled_stretch self.now came to }
    {
        Stretch {
            kind: Kind::Throttled,
            from: self.job_from(came, to),
            to: throttled_until(&self.view, self.clock, to),
        }
    }

    /// Returns the ticks up to the next step, at the tick `to`, in which the server has a job, is not throttled, and
    /// does not run.
    pub fn waiting(&self, came: Option<u64>, to: u64) -> Stretch
        ensures { result ≡ waiting_stretch self.now came to }
    {
        Stretch {
            kind: Kind::Waits,
            from: throttled_until(&self.view, self.clock, to).max(self.job_from(came, to)),
            to,
        }
    }
}
