//! Ranges of numbers, from which one is drawn.

ghost use Rattle.std.specs.Prelude.{◌≡◌, ◌≤◌};
ghost use Rattle.std.specs.Option.{SomeIff};
ghost use Rattle.cbsrun_simulate.specs.Drawing.{drawn, up_to};

use rand_core::utils::NextWord;
use rand_pcg::Pcg64;
use std::marker::Model;

/// The numbers from a least to a greatest one, with both.
#[derive(Clone, Copy, PartialEq, Eq)]
pub struct Range {
    least: u64,
    greatest: u64,
}

impl Model for Range {
    ghost use Rattle.std.specs.Prelude.{◌≤◌};
    ghost use Rattle.cbsrun_simulate.specs.Bounds.{Bounds};

    ghost Value = { Bounds };

    ghost view = { λ r. record { least = r.least; greatest = r.greatest } };

    ghost invariant = { λ r. r.least ≤ r.greatest };

    ghost inverse = { λ v. record { least = v.least; greatest = v.greatest } };
}

impl Range {
    /// Returns the range from `least` to `greatest`, or `None` if `least` is greater than `greatest`.
    pub fn new(least: u64, greatest: u64) -> Option<Range>
        ensures { SomeIff result (least ≤ greatest) (record {
          least = least;
          greatest = greatest;
        }) }
    {
        if least > greatest {
            return None;
        }
        Some(Range { least, greatest })
    }

    /// Returns the range of one number. A draw from it takes no word of the generator.
    pub fn fixed(number: u64) -> Range
        ensures { result ≡ record { least = number; greatest = number } }
    {
        Range {
            least: number,
            greatest: number,
        }
    }

    /// Returns the range from 0 to `greatest`.
    pub fn up_to(greatest: u64) -> Range
        ensures { result ≡ up_to greatest }
    {
        Range { least: 0, greatest }
    }

    /// Returns the least of the numbers.
    pub fn least(&self) -> u64
        ensures value { result ≡ self.now.least }
        ensures ordered { self.now.least ≤ self.now.greatest }
    {
        self.least
    }

    /// Returns the greatest of the numbers.
    pub fn greatest(&self) -> u64
        ensures value { result ≡ self.now.greatest }
        ensures ordered { self.now.least ≤ self.now.greatest }
    {
        self.greatest
    }

    /// Returns a number of the range, drawn with one word of the generator. Each number is as likely as any other, up
    /// to one part in 2^64 of their count. A range of one number takes no word.
    pub fn draw(&self, draws: &mut Pcg64) -> u64
        ensures value { (result, draws.new) ≡ drawn self.now draws.old }
        ensures least { self.now.least ≤ result }
        ensures greatest { result ≤ self.now.greatest }
    {
        if self.least >= self.greatest {
            return self.least;
        }
        let count = u128::from(self.greatest - self.least) + 1;
        let above = u128::from(draws.next_word()) * count >> 64;
        self.least + above as u64
    }
}
