//! The reservation of least share with which the jobs of a server are promised in time.

ghost use Rattle.std.specs.Prelude.{◌≡◌, ◌++◌, ◌*◌, ◌<◌, ltb, true, false, List, [], ◌∷◌, map, ℕ, MatchOption};
ghost use Rattle.cbs_rate.specs.Rate.{IsRate};
ghost use Rattle.cbsrun_proposals.specs.Proposals.{rate, parts_of, IsEnough, IsNotEnough, IsNeverEnough, IsLongest, IsBestOf, IsProposal};

use crate::wanted::{Wanted, is_enough};
use cbs_guarantee::Source;
use cbs_rate::{MAX_PERIOD, MAX_SERVERS, Reservation};

/// The most equal parts of a job, one budget each, that are looked at.
const MOST_PARTS: u64 = 8;

/// Returns whether a budget is enough at a period.
fn suffices(budget: u64, period: u64, sources: &[Source], wanted: Wanted) -> bool
    ensures yes { result ≡ true
        → IsRate budget period × IsEnough sources.now wanted (rate budget period) }
    ensures no { result ≡ false → IsRate budget period
        → IsNotEnough sources.now wanted (rate budget period) }
{
    match Reservation::new(budget, period) {
        Ok(server) => is_enough(server, sources, wanted),
        Err(_) => false,
    }
}

/// Returns the reservation of this budget with the greatest period at which it is enough, or `None` if it is enough at
/// no period.
fn longest(budget: u64, sources: &[Source], wanted: Wanted) -> Option<Reservation>
    ensures { MatchOption result (IsNeverEnough sources.now wanted budget)
        (IsLongest sources.now wanted budget) }
{
    if !suffices(budget, budget, sources, wanted) {
        return None;
    }
    let mut found = budget;
    let mut beyond = MAX_PERIOD + 1;
    while beyond - found > 1 {
        let period = found + (beyond - found) / 2;
        if suffices(budget, period, sources, wanted) {
            found = period;
        } else {
            beyond = period;
        }
    }
    match Reservation::new(budget, found) {
        Ok(server) => Some(server),
        Err(_) => None,
    }
}

/// Returns whether the share of the first reservation is less than that of the second.
fn is_less(one: Reservation, other: Reservation) -> bool
    ensures { result ≡ ltb (one.budget * other.period) (other.budget * one.period) }
{
    u128::from(one.budget()) * u128::from(other.period())
        < u128::from(other.budget()) * u128::from(one.period())
}

/// Returns the better of what was found so far and of the longest reservation of this budget.
fn with_budget(
    best: Option<Reservation>,
    budget: u64,
    sources: &[Source],
    wanted: Wanted,
) -> Option<Reservation>
    ensures { (looked : List ℕ) → IsBestOf sources.now wanted looked best
        → IsBestOf sources.now wanted (looked ++ budget ∷ []) result }
{
    let Some(found) = longest(budget, sources, wanted) else {
        return best;
    };
    let Some(so_far) = best else {
        return Some(found);
    };
    if is_less(found, so_far) {
        Some(found)
    } else {
        Some(so_far)
    }
}

/// Returns the better of what was found so far and of the reservations with the budgets that are looked at for a source.
fn with_source(
    best: Option<Reservation>,
    source: Source,
    sources: &[Source],
    wanted: Wanted,
) -> Option<Reservation>
    ensures { (looked : List ℕ) → IsBestOf sources.now wanted looked best
        → IsBestOf sources.now wanted (looked ++ parts_of source) result }
{
    let ticks = u64::from(source.units) * (1 + u64::from(source.overrun));
    let mut best = best;
    for part in 0..MOST_PARTS {
        best = with_budget(best, ticks.div_ceil(part + 1), sources, wanted);
    }
    best
}

/// Returns the reservation of least share, among those that are looked at, with which each job of the sources is promised
/// in time, or `None` if there is none.
///
/// A budget that is looked at is the greatest job of a source, in ticks, divided by 1 to 8 and rounded up. Of each, every
/// period is looked at. No greater number of parts is, since the share hardly shrinks further. For one source the least
/// share is that of one part.
pub fn propose(sources: &[Source], wanted: Wanted) -> Option<Reservation>
    ensures { IsProposal sources.now wanted result }
{
    if sources.len() > MAX_SERVERS {
        return None;
    }
    let mut best = None;
    for source in sources {
        best = with_source(best, *source, sources, wanted);
    }
    best
}
