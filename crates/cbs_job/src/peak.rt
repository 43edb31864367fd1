//! A job that seeks the greatest number.

ghost use Rattle.std.specs.Prelude.{◌≡◌, ◌≤◌, ℕ, length, take, drop};
ghost use Rattle.cbs_job.specs.Work.{whole, output_after};
ghost use Rattle.cbs_job.specs.Numbers.{Progress, peaking, IsPeak};
ghost use Rattle.cbs_rate.specs.Limits.{greatest_number};

use crate::work::Work;
use std::marker::Model;

/// A job that seeks the greatest number, one number in each unit. Its output is the greatest so far, 0 at first.
pub struct PeakJob {
    numbers: Vec<u32>,
    next: usize,
    greatest: u32,
}

// An owner of a job calls this one function at each exit, instead of the drops of all fields.
impl Drop for PeakJob {
    fn drop(self) {
        let PeakJob {
            numbers: _,
            next: _,
            greatest: _,
        } = self;
    }
}

impl Model for PeakJob {
    ghost Value = { Progress };

    ghost view = { λ j. record { numbers = drop j.next j.numbers.items; output = j.greatest } };

    ghost invariant = { λ j. (j.next ≤ length j.numbers.items) × (length j.numbers.items ≤ greatest_number) };
}

impl PeakJob {
    /// Returns a job over at most 4,294,967,295 numbers, with as many units. Its result is the greatest number, or 0 if
    /// there is no number. After k units its output is the greatest of the first k numbers.
    pub fn new(numbers: Vec<u32>) -> PeakJob
        requires { length numbers.items ≤ greatest_number }
        ensures value { result ≡ record { numbers = numbers.items; output = 0 } }
        ensures left { peaking.left result ≡ length numbers.items }
        ensures so_far { (k : ℕ) → IsPeak (take k numbers.items) (output_after peaking k result) }
        ensures whole { IsPeak numbers.items (whole peaking result) }
    {
        PeakJob {
            numbers,
            next: 0,
            greatest: 0,
        }
    }
}

impl Work for PeakJob {
    ghost use Rattle.cbs_job.specs.Numbers.{taking_in_lowers};

    ghost meaning = { peaking };

    ghost lowers = { taking_in_lowers _ };

    fn left(&self) -> u32 {
        (self.numbers.len() - self.next) as u32
    }

    fn step(&mut self) {
        self.greatest = self.greatest.max(self.numbers[self.next]);
        self.next += 1;
    }

    fn output(&self) -> u64 {
        u64::from(self.greatest)
    }
}
