//! The terms of a source.

ghost use Rattle.std.specs.Prelude.{◌≡◌};
ghost use Rattle.cbsrun_simulate.specs.Released.{distance, is_single};

use crate::range::Range;
use cbs_rate::MAX_PERIOD;

/// The terms of a source of jobs.
#[derive(Clone, Copy, PartialEq, Eq)]
pub struct SourceTerms {
    /// The server that is to run its jobs.
    pub server: u16,
    /// The nominal tick of the first job.
    pub first: u64,
    /// The ticks from one nominal tick to the next: 1 to 10^12. If the ticks are listed, none of these is drawn.
    pub every: Range,
    /// By how many ticks a job may come later than its nominal tick: fewer than the least `every`,
    /// and 0 for none. No job comes before the one before it of its source.
    pub jitter: u64,
    /// How many units a job has: 1 to 1,000,000.
    pub units: Range,
    /// How many jobs the source releases at most, or `None` if it releases jobs until the simulation ends.
    pub jobs: Option<u64>,
    /// Within how many ticks of its release each job is to be finished, if that is wanted. It
    /// changes no move.
    pub within: Option<u64>,
    /// The ticks that each unit of a job takes beyond its first.
    pub overrun: Range,
}

impl SourceTerms {
    /// Returns whether the source releases one job at most.
    pub fn is_single(&self) -> bool
        ensures { result ≡ is_single self.now.jobs }
    {
        match self.jobs {
            Some(jobs) => jobs <= 1,
            None => false,
        }
    }

    /// Returns the least ticks from one release to the next: the least `every`, less the jitter. Of two jobs the earlier
    /// may come late by the whole jitter, and the later at its nominal tick. For a source of one job, which has no next,
    /// returns [`MAX_PERIOD`].
    pub fn distance(&self) -> u64
        ensures { result ≡ distance self.now }
    {
        if self.is_single() {
            return MAX_PERIOD;
        }
        self.every.least().saturating_sub(self.jitter)
    }
}
