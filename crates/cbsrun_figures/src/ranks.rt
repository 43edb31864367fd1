//! Ranks of numbers.

ghost use Rattle.std.specs.Prelude.{◌≡◌, ◌≤◌, ◌<◌, [], length, IsPermutation, MatchOption};
ghost use Rattle.std.specs.List.Sorted.{IsNonDecreasing};
ghost use Rattle.cbsrun_figures.specs.Percentiles.{IsPercentile, AreRanks};

use crate::figures::Ranks;
use std::alloc::Allocator;

/// Returns a percentile of numbers that stand in ascending order, by nearest rank.
fn percentile(sorted: &[u64], percent: u8) -> u64
    requires order { IsNonDecreasing sorted.now }
    requires numbers { 0 < length sorted.now }
    requires some { 0 < percent }
    requires most { percent ≤ 100 }
    ensures { IsPercentile percent sorted.now result }
{
    let rank = (u128::from(percent) * sorted.len() as u128).div_ceil(100) as usize;
    sorted[rank - 1]
}

/// Returns the least of numbers that stand in ascending order, with their percentiles. Returns `None` if there are no
/// numbers.
fn ranks_in(sorted: &[u64]) -> Option<Ranks>
    requires { IsNonDecreasing sorted.now }
    ensures { MatchOption result (sorted.now ≡ []) (AreRanks sorted.now) }
{
    let least = *sorted.first()?;
    Some(Ranks {
        least,
        median: percentile(sorted, 50),
        p95: percentile(sorted, 95),
        p99: percentile(sorted, 99),
        greatest: percentile(sorted, 100),
    })
}

/// Returns the least of the numbers, with their percentiles. Returns `None` if there are no numbers. Sorts the numbers
/// in ascending order.
pub fn ranks_of<A: Allocator>(numbers: &mut Vec<u64, A>) -> Option<Ranks>
    ensures ranks { MatchOption result (numbers.old.items ≡ []) (AreRanks numbers.old.items) }
    ensures same { IsPermutation numbers.old.items numbers.new.items }
{
    numbers.sort_unstable();
    ranks_in(numbers)
}
