//! Within how many ticks a load makes up what one unit overran.

ghost use Rattle.std.specs.Prelude.{◌≡◌, IfSome};
ghost use Rattle.cbs_rate.specs.Plan.{IsPlan};
ghost use Rattle.cbsrun_sizing.specs.Recoveries.{greatest_overrun, free_within, recovery, IsMadeUpWithin};

use cbs_rate::Plan;
use cbsrun_loads::Load;
use cbsrun_simulate::SourceTerms;

/// Returns the most ticks that any unit of these sources may overrun.
fn greatest_overrun(sources: &[SourceTerms]) -> u64
    ensures { result ≡ greatest_overrun sources.now }
{
    let mut most = 0;
    for terms in sources {
        most = most.max(terms.overrun.greatest());
    }
    most
}

/// Returns the least time in which so many ticks are free, in ticks. Returns `None` if every tick is reserved.
fn free_within(plan: &Plan, ticks: u64) -> Option<u128>
    ensures value { result ≡ free_within plan.now.rates ticks }
    ensures lawful { IsPlan plan.now }
{
    let reserved = plan.bandwidth();
    let free = reserved.of.saturating_sub(reserved.ticks);
    if free == 0 {
        return None;
    }
    Some((u128::from(ticks) * u128::from(reserved.of)).div_ceil(u128::from(free)))
}

/// Returns within how many ticks a load makes up what one unit overran, as much as its units may overrun. From then on
/// no deadline is missed, if nothing else overruns: each that is so many ticks after the charge began, or more, is met.
/// What no server has reserved makes it up, so the number is the least time in which so many ticks are free.
///
/// Returns `None` if every tick is reserved: then it may never be made up.
pub fn recovery(load: &Load) -> Option<u128>
    ensures value { result ≡ recovery load.now }
    ensures made_up { IfSome result (IsMadeUpWithin load.now) }
{
    free_within(load.plan(), greatest_overrun(load.sources()))
}
