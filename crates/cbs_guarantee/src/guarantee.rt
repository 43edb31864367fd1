//! The guarantee for the jobs of a server, by its sources alone.

ghost use Rattle.std.specs.Prelude.{◌≡◌, ◌⊎◌, ℕ, ◌≤◌, ◌<◌, ◌^◌, ◌*◌, length, sum_by, MatchResult, IfOk};
ghost use Rattle.std.specs.Int.{div_ceil};
ghost use Rattle.std.specs.List.{AllByRecursion};
ghost use Rattle.cbs_rate.specs.Limits.{most_servers};
ghost use Rattle.cbs_guarantee.specs.Sources.{streams_of, NoneOverruns, IsOneAtATime, IsPromised, IsSource, IsReason, IsReasonAlways, IsOverrunReason, HaveStreams, AreBorne};
ghost use Rattle.cbs_guarantee.specs.Streams.{all_spans};

use crate::source::{NotPromised, Source};
use cbs_rate::{Bound, Plan, Reservation};

/// The most ticks by which the other servers may delay a server: as long as a clock runs.
pub const MAX_DELAY: u64 = 1_000_000_000_000;

/// Returns within how many ticks after it came each job of a server's sources is finished, whatever the others are
/// asked for. While the server is open, all these jobs are also accepted.
///
/// `delay` is the number of ticks by which the other servers may delay this one, at most [`MAX_DELAY`]. It is the most
/// that each of them is charged for one unit, added up. `backlog` is how many unfinished jobs the server may have.
///
/// If nothing is promised, returns the reason:
/// - [`NotPromised::BeyondLimits`]: `delay` or a number of a source is beyond the limits.
/// - [`NotPromised::AsksTooMuch`]: the sources may ask for more than all the server's time. Nothing is rounded.
/// - [`NotPromised::SharedOverrun`]: a unit may overrun, and there are several sources.
/// - [`NotPromised::LateOverrun`]: a unit may overrun, and a job may not be finished when the next comes.
/// - [`NotPromised::BacklogTooSmall`]: more jobs than the backlog may be unfinished.
pub fn guaranteed(
    server: Reservation,
    sources: &[Source],
    delay: u64,
    backlog: u64,
) -> Result<u64, NotPromised>
    ensures { MatchResult result (IsPromised server sources.now delay backlog)
        (IsReason server sources.now delay backlog) }
{
    if delay > MAX_DELAY {
        return Err(NotPromised::BeyondLimits);
    }
    let within = spans_of(server, sources)? + delay;
    check_overruns(sources, within)?;
    let needed = backlog_needed(sources, within);
    if backlog < needed {
        return Err(NotPromised::BacklogTooSmall { needed });
    }
    Ok(within)
}

/// Returns the sum of the spans of the sources, or the reason if they ask for more than all the server's time.
fn spans_of(server: Reservation, sources: &[Source]) -> Result<u64, NotPromised>
    ensures answer { MatchResult result (λ spans.
        (spans ≡ all_spans (streams_of server sources.now)) × AreBorne server sources.now)
        (IsReasonAlways server sources.now) }
    ensures short { IfOk result (λ spans. spans ≤ 64 * 1_000_000_000) }
{
    check_each(server, sources)?;
    let Ok(whole) = Bound::new(1, 1) else {
        return Err(NotPromised::BeyondLimits);
    };
    let mut plan = Plan::new(whole);
    let mut spans = 0;
    for source in sources {
        let stream = source.stream_on(server)?;
        plan.admit(stream)?;
        spans += stream.budget();
    }
    Ok(spans)
}

/// Checks that each source has a stream on the server. Returns the reason if one has none.
fn check_each(server: Reservation, sources: &[Source]) -> Result<(), NotPromised>
    ensures { MatchResult result (λ _. HaveStreams server sources.now)
        (IsReasonAlways server sources.now) }
{
    for source in sources {
        source.stream_on(server)?;
    }
    Ok(())
}

/// Checks that no unit overruns, or that there is one source whose jobs are finished one at a time. Returns the reason
/// if neither holds.
fn check_overruns(sources: &[Source], within: u64) -> Result<(), NotPromised>
    ensures { MatchResult result (λ _. NoneOverruns sources.now
        ⊎ IsOneAtATime sources.now within) (IsOverrunReason sources.now within) }
{
    if sources.iter().all(|source| source.overrun == 0) {
        return Ok(());
    }
    match sources {
        [source] if within <= source.every => Ok(()),
        [_] => Err(NotPromised::LateOverrun),
        _ => Err(NotPromised::SharedOverrun),
    }
}

/// Returns the backlog that the sources need if each job is finished within `within` ticks.
fn backlog_needed(sources: &[Source], within: u64) -> u64
    requires few { length sources.now ≤ most_servers }
    requires each { AllByRecursion IsSource sources.now }
    requires short { within < 2 ^ 42 }
    ensures { result ≡ sum_by (λ source. div_ceil within source.every) sources.now }
{
    let mut needed = 0;
    for source in sources {
        needed += within.div_ceil(source.every);
    }
    needed
}
