//! The ticks within which jobs are to be finished.

ghost use Rattle.std.specs.Prelude.{◌≡◌};
ghost use Rattle.cbsrun_runs.specs.Loads.{widened, within_of};

use cbsrun_simulate::{Range, SourceTerms};

/// Returns a range that also contains one number more, if there is one.
fn widened(number: Option<u64>, range: Option<Range>) -> Option<Range>
    ensures { result ≡ widened number range }
{
    let Some(number) = number else {
        return range;
    };
    match range {
        Some(range) => Range::new(range.least().min(number), range.greatest().max(number)),
        None => Some(Range::fixed(number)),
    }
}

/// Returns within how many ticks the jobs of a server's sources are to be finished: from the least of these numbers to
/// the greatest. Returns `None` if no source of the server has such a number.
pub(crate) fn within_of(server: u16, sources: &[SourceTerms]) -> Option<Range>
    ensures { result ≡ within_of server sources.now }
{
    let mut range = None;
    let mut place = sources.len();
    while place > 0 {
        place -= 1;
        let source = &sources[place];
        if source.server == server {
            range = widened(source.within, range);
        }
    }
    range
}
