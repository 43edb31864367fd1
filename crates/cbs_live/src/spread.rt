//! A summary of numbers.

ghost use Rattle.std.specs.Prelude.{◌≡◌, ◌≤◌, ◌<◌, ◌+◌, ◌-◌, ◌*◌, ◌/◌, ◌^◌, ℕ, List, [], ◌∷◌, min, IsTrue};
ghost use Rattle.cbs_live.specs.Spreads.{is_of_power, IsSpreadOf, IsCounted, mean_of, AreAtMost};

/// A summary of the numbers that it was given, in a memory that stays the same. No number of it
/// passes `u64::MAX`: it stops there.
///
/// All bytes 0 are the summary of no numbers.
#[repr(C)]
#[derive(Clone, Copy, Debug, PartialEq, Eq)]
pub struct Spread {
    /// How many numbers there are.
    pub count: u64,
    /// Their sum.
    pub total: u64,
    /// The least of them, and 0 if there is none.
    pub least: u64,
    /// The greatest of them, and 0 if there is none.
    pub greatest: u64,
    /// How many of them are of each power. A 0 is of power 0. Another number is of power k if it is
    /// below 2^k and not below 2^(k - 1).
    pub powers: [u64; 65],
}

impl Spread {
    /// Returns the summary of no numbers.
    pub fn new() -> Spread
        ensures { IsSpreadOf result [] }
    {
        Spread {
            count: 0,
            total: 0,
            least: 0,
            greatest: 0,
            powers: [0; 65],
        }
    }

    /// Adds one more number.
    pub fn add(&mut self, number: u64)
        ensures { (numbers : List ℕ) → IsSpreadOf self.old numbers
            → IsSpreadOf self.new (number ∷ numbers) }
    {
        self.least = match self.count {
            0 => number,
            _ => self.least.min(number),
        };
        self.greatest = self.greatest.max(number);
        self.count = self.count.saturating_add(1);
        self.total = self.total.saturating_add(number);
        let power = power_of(number);
        self.powers[power] = self.powers[power].saturating_add(1);
    }

    /// Returns the mean, rounded down, and 0 if there is no number.
    pub fn mean(&self) -> u64
        ensures mean { (numbers : List ℕ) → IsSpreadOf self.now numbers → IsCounted numbers
            → result ≡ mean_of numbers }
        ensures value { result ≡ self.now.total / self.now.count }
    {
        self.total.checked_div(self.count).unwrap_or(0)
    }

    /// Returns a number such that at least so many of a thousand numbers are at most it: the least
    /// such one of 0, 1, 3, 7, 15 .., or the greatest number, if that is less. More than 1000 of a
    /// thousand count as 1000.
    pub fn at_most(&self, per_mille: u64) -> u64
        ensures enough { (numbers : List ℕ) → IsSpreadOf self.now numbers → IsCounted numbers
            → AreAtMost (min per_mille 1000) result numbers }
        ensures least { (numbers : List ℕ) → IsSpreadOf self.now numbers → IsCounted numbers
            → (k : ℕ) → 2 ^ k ≤ result → ¬ AreAtMost (min per_mille 1000) (2 ^ k - 1) numbers }
    {
        let wanted = u128::from(self.count) * u128::from(per_mille.min(1000));
        let mut found: u128 = 0;
        for (power, numbers) in self.powers.iter().enumerate() {
            found += u128::from(*numbers);
            if wanted <= found * 1000 {
                return self.greatest.min(end_of(power));
            }
        }
        self.greatest
    }
}

/// Returns the power of a number.
fn power_of(number: u64) -> usize
    ensures power { IsTrue (is_of_power result number) }
    ensures within { result < 65 }
{
    (64 - number.leading_zeros()) as usize
}

/// Returns the greatest number of a power, at most 64.
fn end_of(power: usize) -> u64
    requires { power < 65 }
    ensures { result ≡ 2 ^ power - 1 }
{
    ((1u128 << power) - 1) as u64
}
