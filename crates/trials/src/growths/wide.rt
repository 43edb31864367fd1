//! Jobs so wide that a list has room for one more job at each growth.

ghost use Rattle.std.specs.Prelude.{◌-◌};
ghost use Rattle.std.proofs.Common.{refl};

use crate::setup::task;
use anyhow::Result;
use cbs_job::{Task, Work};

/// Some units whose output is a number. The job is so wide that a list takes room for no more jobs than it must hold,
/// or for twice as many as before. So the first three jobs of a core are three growths.
#[derive(Drop)]
pub struct WideJob {
    left: u32,
    output: u64,
    _width: [u64; 128],
}

impl Work for WideJob {
    ghost meaning = { record { left = λ w. w.left; output = λ w. w.output; after = λ w. record w { left = w.left - 1 } } };

    ghost lowers = { λ w some. refl };

    fn left(&self) -> u32 {
        self.left
    }

    fn step(&mut self) {
        self.left -= 1;
    }

    fn output(&self) -> u64 {
        self.output
    }
}

/// Returns a job of so many units with this output.
pub fn wide(units: u32, output: u64) -> Result<Task<WideJob>> {
    task(WideJob {
        left: units,
        output,
        _width: [0; 128],
    })
}
