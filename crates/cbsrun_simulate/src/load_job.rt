//! Jobs whose units are only counted.

ghost use Rattle.cbsrun_simulate.specs.Loading.{loading, loading_lowers};

use cbs_job::Work;

/// A job of a load. Its units do nothing, and are only counted. Its output is its overrun at all times, so that the
/// caller of a run knows the charge for a unit.
#[derive(Drop)]
pub struct LoadJob {
    /// How many units are left.
    pub left: u32,
    /// The ticks that each of its units takes beyond its first.
    pub overrun: u64,
}

impl Work for LoadJob {
    ghost meaning = { loading };

    ghost lowers = { loading_lowers };

    fn left(&self) -> u32 {
        self.left
    }

    fn step(&mut self) {
        self.left -= 1;
    }

    fn output(&self) -> u64 {
        self.overrun
    }
}
