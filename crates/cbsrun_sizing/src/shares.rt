//! What a plan leaves of its bound, and whether a promise is what is wanted.

ghost use Rattle.std.specs.Prelude.{◌≡◌};
ghost use Rattle.cbsrun_sizing.specs.Budgets.{left_over, is_within};

use cbs_rate::Plan;

/// Returns what is left under the bound, in ticks. They are ticks of a span: the bound's denominator times the least
/// common multiple of all periods.
pub fn left_over(plan: &Plan) -> u128
    ensures { result ≡ left_over plan.now }
{
    let bound = plan.bound();
    let reserved = plan.bandwidth();
    let all = u128::from(bound.num()) * u128::from(reserved.of);
    all.saturating_sub(u128::from(bound.den()) * u128::from(reserved.ticks))
}

/// Returns whether a time in ticks is at most the wanted one. Without a wanted time, returns `false`.
pub fn is_within(time: u64, within: Option<u64>) -> bool
    ensures { result ≡ is_within time within }
{
    match within {
        Some(within) => time <= within,
        None => false,
    }
}
