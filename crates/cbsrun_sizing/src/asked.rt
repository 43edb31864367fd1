//! The demand of sources, all together.

ghost use Rattle.std.specs.Prelude.{◌+◌, ◌*◌, ◌/◌, ◌≤◌, ◌<◌, length, All, MatchOption, IfSome};
ghost use Rattle.cbs_guarantee.specs.Sources.{ticks_of};
ghost use Rattle.cbsrun_loads.specs.Loads.{most_sources};
ghost use Rattle.cbsrun_sizing.specs.Asked.{most_ticks, IsAsked, AreTooFine, IsJoined, IsJoinedTooFine};

use crate::divisor::greatest_common_divisor;
use cbs_guarantee::Source;
use cbs_rate::MAX_COMMON_MULTIPLE;

/// The greatest demand of sources, all together, as a share of the time.
#[derive(Clone, Copy, PartialEq, Eq)]
pub struct Asked {
    /// The ticks in every `of` ticks.
    pub ticks: u128,
    /// The length of the span in ticks: 1 to 10^18.
    pub of: u64,
}

impl Asked {
    /// Returns the demand with one source more. Returns `None` if it cannot be summed exactly, since no common multiple
    /// is within [`MAX_COMMON_MULTIPLE`].
    fn with(self, source: &Source) -> Option<Asked>
        requires some { 0 < self.of }
        requires ticks { ticks_of source.now ≤ most_ticks }
        requires small { self.ticks ≤ most_sources * (most_ticks * self.of) }
        ensures joined { MatchOption result (IsJoinedTooFine self source.now)
            (IsJoined self source.now) }
        ensures small { IfSome result (λ a. a.ticks ≤ self.ticks * (a.of / self.of) + most_ticks *
            a.of) }
    {
        let of = u128::from(self.of);
        let every = u128::from(source.every);
        if every == 0 {
            return None;
        }
        let common = of / greatest_common_divisor(of, every) * every;
        if common > u128::from(MAX_COMMON_MULTIPLE) {
            return None;
        }
        let job = u128::from(source.units) * (1 + u128::from(source.overrun));
        let ticks = self.ticks * (common / of) + job * (common / every);
        Some(Asked {
            ticks,
            of: common as u64,
        })
    }
}

/// Returns the greatest demand of the sources, all together. Returns `None` if no common multiple of their periods is
/// within [`MAX_COMMON_MULTIPLE`].
pub(crate) fn asked_by(sources: &[Source]) -> Option<Asked>
    requires few { length sources.now ≤ most_sources }
    requires ticks { All (λ source. ticks_of source ≤ most_ticks) sources.now }
    ensures { MatchOption result (AreTooFine sources.now) (IsAsked sources.now) }
{
    let mut asked = Asked { ticks: 0, of: 1 };
    for source in sources {
        asked = asked.with(source)?;
    }
    Some(asked)
}
