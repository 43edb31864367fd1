//! Sums of how many ticks earlier than promised jobs are finished.

ghost use Rattle.std.specs.Prelude.{◌≡◌, []};
ghost use Rattle.cbsrun_figures.specs.Tallies.{early_of, early_with};

use crate::sums::count;

/// Sums over finished jobs: how many ticks earlier than promised they were finished.
#[derive(Clone, Copy)]
pub struct Early {
    /// How many jobs were finished that had been promised a tick.
    pub count: u64,
    /// The ticks by which these jobs were earlier, added up.
    pub total: u128,
    /// The least of these numbers of ticks, if there is a job.
    pub least: Option<u128>,
}

impl Early {
    /// Returns the sums over no job.
    pub fn new() -> Early
        ensures { result ≡ early_of [] }
    {
        Early {
            count: 0,
            total: 0,
            least: None,
        }
    }

    /// Adds a job that was finished at the tick `at`, if a tick was promised to it. A job that was finished later than
    /// promised counts as 0 ticks earlier.
    #[inline]
    pub fn add(&mut self, promised: Option<u128>, at: u64)
        ensures { self.new ≡ early_with promised at self.old }
    {
        let Some(promised) = promised else {
            return;
        };
        let ticks = promised.saturating_sub(u128::from(at));
        count(&mut self.count);
        self.total = self.total.saturating_add(ticks);
        match self.least {
            Some(least) if least <= ticks => {}
            _ => self.least = Some(ticks),
        }
    }
}
