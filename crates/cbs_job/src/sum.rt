//! A job that adds numbers up.

ghost use Rattle.std.specs.Prelude.{◌≡◌, ◌≤◌, ◌*◌, ℕ, length, take, drop, sum};
ghost use Rattle.cbs_job.specs.Work.{whole, output_after};
ghost use Rattle.cbs_job.specs.Numbers.{Progress, summing};
ghost use Rattle.cbs_rate.specs.Limits.{greatest_number};

use crate::work::Work;
use std::marker::Model;

/// A job that adds numbers up, one in each unit. Its output is the total so far, 0 at first.
pub struct SumJob {
    numbers: Vec<u32>,
    next: usize,
    total: u64,
}

// An owner of a job calls this one function at each exit, instead of the drops of all fields.
impl Drop for SumJob {
    fn drop(self) {
        let SumJob {
            numbers: _,
            next: _,
            total: _,
        } = self;
    }
}

impl Model for SumJob {
    ghost Value = { Progress };

    ghost view = { λ j. record { numbers = drop j.next j.numbers.items; output = j.total } };

    ghost invariant = { λ j. (j.next ≤ length j.numbers.items) × (length j.numbers.items ≤ greatest_number) × (j.total ≤ j.next * greatest_number) };
}

impl SumJob {
    /// Returns a job over at most 4,294,967,295 numbers, with as many units. Its result is their total. After k units
    /// its output is the total of the first k numbers.
    pub fn new(numbers: Vec<u32>) -> SumJob
        requires { length numbers.items ≤ greatest_number }
        ensures value { result ≡ record { numbers = numbers.items; output = 0 } }
        ensures left { summing.left result ≡ length numbers.items }
        ensures so_far { (k : ℕ) → output_after summing k result ≡ sum (take k numbers.items) }
        ensures whole { whole summing result ≡ sum numbers.items }
    {
        SumJob {
            numbers,
            next: 0,
            total: 0,
        }
    }
}

impl Work for SumJob {
    ghost use Rattle.cbs_job.specs.Numbers.{taking_in_lowers};

    ghost meaning = { summing };

    ghost lowers = { taking_in_lowers _ };

    fn left(&self) -> u32 {
        (self.numbers.len() - self.next) as u32
    }

    fn step(&mut self) {
        self.total += u64::from(self.numbers[self.next]);
        self.next += 1;
    }

    fn output(&self) -> u64 {
        self.total
    }
}
