//! A job that is only its number of units.

ghost use Rattle.cbs_units.specs.Counting.{counting, counting_lowers};

use cbs_job::Work;

/// A job that is only its number of units. Its output is 0, before and after each unit.
#[derive(Clone, Copy, Debug, PartialEq, Eq)]
pub struct CountJob {
    /// How many units are left.
    pub units: u32,
}

impl Work for CountJob {
    ghost meaning = { counting };

    ghost lowers = { counting_lowers };

    fn left(&self) -> u32 {
        self.units
    }

    fn step(&mut self) {
        self.units -= 1;
    }

    fn output(&self) -> u64 {
        0
    }
}
