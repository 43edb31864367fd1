//! A sink of this program, which counts.

use cbs_house::Sink;
use cbs_job::Completion;

/// The number of finished jobs of each client, counted while the house runs.
#[derive(Drop)]
pub struct Finished {
    counts: [u64; 3],
}

impl Finished {
    pub fn none() -> Finished {
        Finished { counts: [0; 3] }
    }

    /// Returns how many jobs of this server's client are finished.
    pub fn count(&self, server: u16) -> u64 {
        self.counts.get(usize::from(server)).copied().unwrap_or(0)
    }
}

impl Sink for Finished {
    fn tell(&mut self, done: Completion) {
        if let Some(count) = self.counts.get_mut(usize::from(done.server)) {
            *count = count.saturating_add(1);
        }
    }
}
