//! The text about how late overruns can make the servers of a load, and how soon that is made up.

ghost use Rattle.std.specs.Prelude.{◌≡◌, ◌++◌, OnOk, string_bytes};
ghost use Rattle.cbsrun_check_text.specs.Checks.{count_text, great_text, late_by_text, recovery_text, made_up_text, is_overrunning, lateness_text};

use crate::fractions::append_fraction;
use cbs_rate::Plan;
use cbsrun_loads::Load;
use cbsrun_simulate::SourceTerms;
use cbsrun_sizing::{greatest_delay, recovery};
use cbsrun_text::append_pair;
use cbsrun_time_texts::append_ticks;
use std::alloc::AllocError;

/// Returns whether units of a source may overrun.
fn is_overrunning(sources: &[SourceTerms]) -> bool
    ensures { result ≡ is_overrunning sources.now }
{
    for terms in sources {
        if terms.overrun.greatest() > 0 {
            return true;
        }
    }
    false
}

/// Appends a number of ticks for a sentence. The only error is out of memory.
fn append_count(text: &mut String, tick: Option<u64>, ticks: u64) -> Result<(), AllocError>
    ensures { OnOk result (string_bytes text.new ≡ string_bytes text.old
        ++ count_text tick ticks) }
{
    if tick.is_none() && ticks == 1 {
        return text.push_str("1 tick");
    }
    append_ticks(text, tick, ticks)
}

/// Appends that overruns can make servers late by at most this many ticks. The only error is out of memory.
#[tactic(auto, unfolding(crate::specs::Checks::late_by_text))]
fn append_late_by(text: &mut String, tick: Option<u64>, ticks: u64) -> Result<(), AllocError>
    ensures { OnOk result (string_bytes text.new ≡ string_bytes text.old
        ++ late_by_text tick ticks) }
{
    if ticks == 0 {
        return text.push_str("Overruns make no server late.\n");
    }
    text.push_str("Units that overrun make a server late by at most ")?;
    append_count(text, tick, ticks)?;
    text.push_str(".\n")
}

/// Appends a great number of ticks for a sentence: in milliseconds, if the nanoseconds of a tick are known and there are
/// fewer than 2^64 ticks. The only error is out of memory.
fn append_great(text: &mut String, tick: Option<u64>, ticks: u128) -> Result<(), AllocError>
    ensures { OnOk result (string_bytes text.new ≡ string_bytes text.old ++ great_text tick ticks) }
{
    if ticks < 18_446_744_073_709_551_616 {
        return append_ticks(text, tick, ticks as u64);
    }
    append_pair(text, "", ticks)?;
    text.push_str(" ticks")
}

/// Appends that what one unit overruns is made up within so many ticks, and what part of the time is free for it. The
/// only error is out of memory.
#[tactic(auto, unfolding(crate::specs::Checks::made_up_text))]
fn append_made_up(
    text: &mut String,
    tick: Option<u64>,
    plan: &Plan,
    ticks: u128,
) -> Result<(), AllocError>
    ensures { OnOk result (string_bytes text.new ≡ string_bytes text.old
        ++ made_up_text tick plan.now.rates ticks) }
{
    let reserved = plan.bandwidth();
    let free = reserved.of.saturating_sub(reserved.ticks);
    text.push_str("What one unit overruns is made up within ")?;
    append_great(text, tick, ticks)?;
    append_fraction(text, ", since ", u128::from(free), u128::from(reserved.of))?;
    text.push_str(" of the time is free.\n")
}

/// Appends within how many ticks what one unit overruns is made up, or that it may never be. The only error is out of
/// memory.
fn append_recovery(text: &mut String, load: &Load) -> Result<(), AllocError>
    ensures { OnOk result (string_bytes text.new ≡ string_bytes text.old
        ++ recovery_text load.now) }
{
    match recovery(load) {
        Some(ticks) => append_made_up(text, load.tick(), load.plan(), ticks),
        None => text.push_str(
            "Every tick is reserved, so what a unit overruns may never be made up.\n",
        ),
    }
}

/// Appends an empty line, how late servers can be, and how soon that is made up, if units of a source of the load may
/// overrun. The only error is out of memory.
pub(crate) fn append_lateness(text: &mut String, load: &Load) -> Result<(), AllocError>
    ensures { OnOk result (string_bytes text.new ≡ string_bytes text.old
        ++ lateness_text load.now) }
{
    if !is_overrunning(load.sources()) {
        return Ok(());
    }
    text.push_str("\n")?;
    let ticks = greatest_delay(load);
    append_late_by(text, load.tick(), ticks)?;
    if ticks == 0 {
        return Ok(());
    }
    append_recovery(text, load)
}
