//! The ticks in which a server is throttled and has a job.

ghost use Rattle.std.specs.Prelude.{◌≡◌, []};
ghost use Rattle.cbsrun_figures.specs.Tallies.{throttled_ticks_of, throttled_ticks_with, ticks_until, wait_of, waits};

use cbs_steps::ServerView;

/// A throttled server with a job.
#[derive(Clone, Copy)]
pub struct Wait {
    /// The clock after the server's last step.
    pub since: u64,
    /// The tick at which the server is replenished.
    pub deadline: u128,
}

/// The ticks in which a server was throttled and had a job.
#[derive(Clone, Copy)]
pub struct ThrottledTicks {
    /// The ticks up to the server's last step.
    pub ticks: u64,
    /// The wait that goes on after that step, if the server waits.
    pub wait: Option<Wait>,
}

/// Returns whether a server that shows this view waits: it is throttled and has a job.
fn waits(view: Option<ServerView>) -> bool
    ensures { result ≡ waits view }
{
    match view {
        Some(view) => view.throttled && view.finished < view.accepted,
        None => false,
    }
}

/// Returns the wait of a server that shows this view at a tick, or `None` if the server does not wait.
fn wait_of(clock: u64, view: Option<ServerView>) -> Option<Wait>
    ensures { result ≡ wait_of clock view }
{
    let deadline = view?.deadline;
    waits(view).then_some(Wait {
        since: clock,
        deadline,
    })
}

impl ThrottledTicks {
    /// Returns the ticks of a server with no step: none.
    pub fn new() -> ThrottledTicks
        ensures { result ≡ throttled_ticks_of [] }
    {
        ThrottledTicks {
            ticks: 0,
            wait: None,
        }
    }

    /// Returns the ticks up to the tick `now`.
    pub fn until(&self, now: u64) -> u64
        ensures { result ≡ ticks_until now self.now.wait self.now.ticks }
    {
        let Some(wait) = self.wait else {
            return self.ticks;
        };
        let end = wait.deadline.min(u128::from(now)) as u64;
        self.ticks.saturating_add(end.saturating_sub(wait.since))
    }

    /// Adds the ticks up to a step that began at the tick `begun` and left the clock at `clock`. After the step the
    /// server shows this view.
    #[inline(always)]
    pub fn add(&mut self, begun: u64, clock: u64, view: Option<ServerView>)
        ensures { self.new ≡ throttled_ticks_with begun clock view self.old }
    {
        // At most steps the server waits neither before nor after: nothing changes then.
        if self.wait.is_some() || waits(view) {
            self.ticks = self.until(begun);
            self.wait = wait_of(clock, view);
        }
    }
}
