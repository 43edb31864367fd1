//! Whether jobs are promised in time, and why not.

ghost use Rattle.std.specs.Prelude.{◌≡◌, option_map};
ghost use Rattle.cbsrun_check_json.specs.Json.{all_in_time, is_in_time, needed_backlog, promised_for, reason_of, reason_word};

use cbs_guarantee::NotPromised;
use cbsrun_simulate::SourceTerms;
use cbsrun_sizing::{ServerLoad, is_within};

/// Returns the word for the reason why jobs are not promised in time: they are promised, but too late, or not at all.
fn reason_word(promised: Result<u64, NotPromised>) -> &'static str
    ensures { result.now ≡ reason_word promised }
{
    match promised {
        Ok(_) => "too_late",
        Err(NotPromised::AsksTooMuch) => "asks_too_much",
        Err(NotPromised::BacklogTooSmall { .. }) => "backlog_too_small",
        Err(NotPromised::SharedOverrun) => "shared_overrun",
        Err(NotPromised::LateOverrun) => "late_overrun",
        Err(NotPromised::BeyondLimits) => "beyond_limits",
    }
}

/// Returns the word for the reason why jobs are not promised in time, or `None` if they are in time.
pub(crate) fn reason_of(in_time: bool, promised: Result<u64, NotPromised>) -> Option<&'static str>
    ensures { option_map (λ word. word.now) result ≡ reason_of in_time promised }
{
    if in_time {
        return None;
    }
    Some(reason_word(promised))
}

/// Returns the backlog that jobs need, if theirs is too small.
pub(crate) fn needed_backlog(promised: Result<u64, NotPromised>) -> Option<u64>
    ensures { result ≡ needed_backlog promised }
{
    match promised {
        Err(NotPromised::BacklogTooSmall { needed }) => Some(needed),
        _ => None,
    }
}

/// Returns whether each job is promised, and in time.
pub(crate) fn is_in_time(promised: Result<u64, NotPromised>, within: Option<u64>) -> bool
    ensures { result ≡ is_in_time promised within }
{
    match promised {
        Ok(time) => is_within(time, within),
        Err(_) => false,
    }
}

/// Returns what is promised of the jobs of a server, by the figures of all servers.
pub(crate) fn promised_for(loads: &[ServerLoad], server: u16) -> Result<u64, NotPromised>
    ensures { result ≡ promised_for loads.now server }
{
    match loads.get(usize::from(server)) {
        Some(load) => load.promised,
        None => Ok(0),
    }
}

/// Returns whether each job of each source is promised, and in time, by the figures of the servers.
pub(crate) fn all_in_time(loads: &[ServerLoad], sources: &[SourceTerms]) -> bool
    ensures { result ≡ all_in_time loads.now sources.now }
{
    sources.iter().all(|terms| is_in_time(promised_for(loads, terms.server), terms.within))
}
