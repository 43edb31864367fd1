//! What would do for a server whose jobs are not promised in time, as text.

ghost use Rattle.std.specs.Prelude.{◌≡◌, ◌++◌, OnOk, string_bytes};
ghost use Rattle.cbsrun_remedy_texts.specs.Remedies.{backlog_text, fit_text, kept_text, proposal_text, found_text, none_text, reservation_text, remedy_text};

use cbsrun_proposals::{Proposal, Remedy};
use cbsrun_text::append_pair;
use cbsrun_time_texts::append_time;
use std::alloc::AllocError;

/// Appends a backlog that would do, if there is one.
#[tactic(auto, unfolding(crate::specs::Remedies::backlog_text))]
fn append_backlog(text: &mut String, backlog: Option<u64>) -> Result<(), AllocError>
    ensures { OnOk result (string_bytes text.new ≡ string_bytes text.old
        ++ backlog_text backlog) }
{
    let Some(backlog) = backlog else {
        return Ok(());
    };
    append_pair(text, "      a backlog of ", backlog)?;
    text.push_str(" would do\n")
}

/// Appends whether a budget fits, if there is room for so much at its period.
#[tactic(auto, unfolding(crate::specs::Remedies::fit_text))]
fn append_fit(
    text: &mut String,
    tick: Option<u64>,
    budget: u64,
    room: u64,
) -> Result<(), AllocError>
    ensures { OnOk result (string_bytes text.new ≡ string_bytes text.old
        ++ fit_text tick budget room) }
{
    if budget <= room {
        return text.push_str(", and fits\n");
    }
    text.push_str(", but at most ")?;
    append_time(text, tick, room)?;
    text.push_str(" fits\n")
}

/// Appends the `within` that a source has to say besides, if there is one.
#[tactic(auto, unfolding(crate::specs::Remedies::kept_text))]
fn append_kept(text: &mut String, tick: Option<u64>, kept: Option<u64>) -> Result<(), AllocError>
    ensures { OnOk result (string_bytes text.new ≡ string_bytes text.old ++ kept_text tick kept) }
{
    let Some(within) = kept else {
        return Ok(());
    };
    text.push_str(", with within = ")?;
    append_time(text, tick, within)?;
    text.push_str(",")
}

/// Appends a budget in every period, and what has to be said besides.
#[tactic(auto, unfolding(crate::specs::Remedies::proposal_text))]
fn append_proposal(
    text: &mut String,
    tick: Option<u64>,
    reservation: Proposal,
    kept: Option<u64>,
) -> Result<(), AllocError>
    ensures { OnOk result (string_bytes text.new ≡ string_bytes text.old
        ++ proposal_text tick reservation kept) }
{
    text.push_str("      ")?;
    append_time(text, tick, reservation.budget)?;
    text.push_str(" in every ")?;
    append_time(text, tick, reservation.period)?;
    append_kept(text, tick, kept)
}

/// Appends that no reservation was found, or that none would do, since the others may delay the jobs so long.
#[tactic(auto, unfolding(crate::specs::Remedies::none_text))]
fn append_none(text: &mut String, tick: Option<u64>, delayed: Option<u64>) -> Result<(), AllocError>
    ensures { OnOk result (string_bytes text.new ≡ string_bytes text.old
        ++ none_text tick delayed) }
{
    let Some(delay) = delayed else {
        return text.push_str("      no reservation that was tried would do\n");
    };
    text.push_str("      no reservation would do: units of others may delay it by ")?;
    append_time(text, tick, delay)?;
    text.push_str("\n")
}

/// Appends a reservation that would do, and whether it fits.
#[tactic(auto, unfolding(crate::specs::Remedies::found_text))]
fn append_found(
    text: &mut String,
    tick: Option<u64>,
    reservation: Proposal,
    kept: Option<u64>,
    room: u64,
) -> Result<(), AllocError>
    ensures { OnOk result (string_bytes text.new ≡ string_bytes text.old
        ++ found_text tick reservation kept room) }
{
    append_proposal(text, tick, reservation, kept)?;
    text.push_str(" would do")?;
    append_fit(text, tick, reservation.budget, room)
}

/// Appends a reservation that would do, and whether it fits, or that there is none.
fn append_reservation(
    text: &mut String,
    tick: Option<u64>,
    remedy: Remedy,
    kept: Option<u64>,
    room: u64,
) -> Result<(), AllocError>
    ensures { OnOk result (string_bytes text.new ≡ string_bytes text.old
        ++ reservation_text tick remedy kept room) }
{
    match remedy.reservation {
        Some(reservation) => append_found(text, tick, reservation, kept, room),
        None => append_none(text, tick, remedy.delayed),
    }
}

/// Appends what would do for a server whose jobs are not promised in time. A line has a greater backlog, if that would
/// do, and another has a reservation, and whether it fits, or says that there is none. `kept` is the `within` that a
/// source has to say with the reservation, if there is one. `room` is the greatest budget that fits at its period. Times
/// are in milliseconds, if the nanoseconds of a tick are known. The only error is out of memory.
#[tactic(auto, unfolding(crate::specs::Remedies::remedy_text))]
pub fn append_remedy(
    text: &mut String,
    tick: Option<u64>,
    remedy: Remedy,
    kept: Option<u64>,
    room: u64,
) -> Result<(), AllocError>
    ensures { OnOk result (string_bytes text.new ≡ string_bytes text.old
        ++ remedy_text tick remedy kept room) }
{
    append_backlog(text, remedy.backlog)?;
    append_reservation(text, tick, remedy, kept, room)
}
