//! How far a simulation is.

ghost use Rattle.std.specs.Prelude.{◌≡◌};

use cbsrun_events::{Seen, View};
use std::alloc::AllocError;

/// A receiver of reports on how far a simulation is, which come now and then.
pub trait Progress {
    /// Receives the clock, and the tick at which the simulation ends.
    fn tell(&mut self, clock: u64, until: u64);

    /// Receives that no further report comes. Nothing of the output is written before.
    fn end(&mut self);
}

/// A receiver that ignores all reports.
#[derive(Drop)]
pub struct NoProgress;

impl Progress for NoProgress {
    fn tell(&mut self, _clock: u64, _until: u64) {}

    fn end(&mut self) {}
}

/// A view that also reports how far the run is that it sees, if the run's end is known.
#[derive(Drop)]
pub(crate) struct Telling<V> {
    pub(crate) view: V,
    until: Option<u64>,
    // How many steps were seen since the last report. After 65,536, which take some milliseconds, it is 0 again.
    steps: u16,
}

impl<V> Telling<V> {
    /// Returns a view of a run that ends at this tick, if that is known.
    pub(crate) fn new(view: V, until: Option<u64>) -> Telling<V>
        ensures { result.view ≡ view }
    {
        Telling {
            view,
            until,
            steps: 0,
        }
    }
}

impl<P: Progress, V: View<()>> View<P> for Telling<V> {
    ghost ready = { λ it _. V.ready it.view tt };

    ghost saw = { λ first now seen. V.saw (first.0.view, tt) (now.0.view, tt) seen };

    ghost failed = { λ first now seen. V.failed (first.0.view, tt) (now.0.view, tt) seen };

    #[inline(always)]
    fn see(&mut self, lent: &mut P, seen: Seen) -> Result<(), AllocError> {
        // First, so that the view's code stays apart for each kind of step.
        self.view.see(&mut (), seen)?;
        self.steps = self.steps.wrapping_add(1);
        if self.steps == 0
            && let Some(until) = self.until
        {
            lent.tell(seen.clock, until);
        }
        Ok(())
    }
}
