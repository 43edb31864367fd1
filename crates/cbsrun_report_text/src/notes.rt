//! Notes on what to do about servers that are not in time.

ghost use Rattle.std.specs.Prelude.{◌≡◌, ◌++◌, ◌≤◌, ◌^◌, ◌<◌, option_map, slice_get, OnOk, string_bytes};
ghost use Rattle.cbs_rate.specs.Limits.{longest_period};
ghost use Rattle.cbsrun_report_text.specs.Notes.{asked_text, cover_of, cover_text, delaying, delays_more, delay_if, delay_text, enough_text, would_do_text, load_text, short_text, advice_text, note_if_wrong, notes_text, not_in_time};

use crate::numbers::{Percent, append_great};
use crate::report::ServerReport;
use crate::verdict::count_wrong;
use cbsrun_remedy_texts::append_remedy;
use cbsrun_sizing::ServerLoad;
use cbsrun_time_texts::append_time;
use std::alloc::AllocError;
use std::fmt::Write;

/// Appends what share of the time a server was asked for, and what share it has.
fn append_asked(text: &mut String, clock: u64, server: &ServerReport) -> Result<(), AllocError>
    ensures { OnOk result (string_bytes text.new ≡ string_bytes text.old
        ++ asked_text clock server.now) }
{
    let name = &server.name;
    let budget = server.reservation.budget();
    let asked = Percent::new(server.wanted(), clock);
    let reserved = Percent::new(u128::from(budget), server.reservation.period());
    writeln!(
        text,
        "note: {name} asked for {asked} of the time and has {reserved} reserved"
    )
}

/// Returns the least budget in every period that gives this many ticks up to the clock, or `None` if there is none.
fn cover_of(ticks: u128, period: u64, clock: u64) -> Option<u128>
    requires ticks { ticks < 2 ^ 65 }
    requires period { period ≤ longest_period }
    ensures { result ≡ cover_of ticks period clock }
{
    if clock == 0 {
        return None;
    }
    let period = u128::from(period);
    let budget = (ticks * period).div_ceil(u128::from(clock));
    if budget <= period { Some(budget) } else { None }
}

/// Appends the budget that covers what was asked for, or that no budget covers it.
fn append_cover(
    text: &mut String,
    tick: Option<u64>,
    cover: Option<u128>,
    period: u64,
) -> Result<(), AllocError>
    ensures { OnOk result (string_bytes text.new ≡ string_bytes text.old
        ++ cover_text tick cover period) }
{
    let Some(budget) = cover else {
        return text.push_str("      no budget covers that\n");
    };
    text.push_str("      ")?;
    append_great(text, tick, budget)?;
    text.push_str(" in every ")?;
    append_time(text, tick, period)?;
    text.push_str(" would cover it; 'cbsrun check' says what fits\n")
}

/// Returns whether a server was charged more than another one so far, and is not this one.
fn delays_more(server: &ServerReport, so_far: Option<&ServerReport>, other: &ServerReport) -> bool
    ensures { result ≡ delays_more server.now (option_map (λ o. o.now) so_far.entry) other.now }
{
    let charged = match so_far {
        Some(so_far) => so_far.figures.charged,
        None => 0,
    };
    other.name.as_str() != server.name.as_str() && charged < other.figures.charged
}

/// Returns the one of these servers, other than this one, that was charged most, or `None` if none was charged. Of two
/// that were charged as much, returns the first.
fn delaying<'a>(servers: &'a [ServerReport], server: &ServerReport) -> Option<&'a ServerReport>
    ensures { option_map (λ o. o.now) result ≡ delaying server.now servers.now }
{
    let mut most = None;
    for other in servers {
        if delays_more(server, most, other) {
            most = Some(other);
        }
    }
    most
}

/// Appends how a server of this name, whose greatest charge is so many ticks, may have delayed another.
#[tactic(auto, unfolding(crate::specs::Notes::delay_text))]
fn append_delay(
    text: &mut String,
    tick: Option<u64>,
    name: &str,
    ticks: u64,
) -> Result<(), AllocError>
    ensures { OnOk result (string_bytes text.new ≡ string_bytes text.old
        ++ delay_text tick name.now ticks) }
{
    write!(text, "units of {name} overran by up to ")?;
    append_time(text, tick, ticks)
}

/// Appends how a server may have delayed another, if there is such a server.
#[tactic(auto, unfolding(crate::specs::Notes::delay_if))]
fn append_delay_if(
    text: &mut String,
    tick: Option<u64>,
    other: Option<&ServerReport>,
) -> Result<(), AllocError>
    ensures { OnOk result (string_bytes text.new ≡ string_bytes text.old
        ++ delay_if tick (option_map (λ o. o.now) other.entry)) }
{
    let Some(other) = other else {
        return Ok(());
    };
    append_delay(
        text,
        tick,
        other.name.as_str(),
        other.figures.greatest_charge,
    )?;
    text.push_str(", ")
}

/// Appends why the jobs of a server are late or refused, although the server has enough: another server may have delayed
/// it.
#[tactic(auto, unfolding(crate::specs::Notes::enough_text))]
fn append_enough(
    text: &mut String,
    tick: Option<u64>,
    other: Option<&ServerReport>,
) -> Result<(), AllocError>
    ensures { OnOk result (string_bytes text.new ≡ string_bytes text.old
        ++ enough_text tick (option_map (λ o. o.now) other.entry)) }
{
    text.push_str("      that is enough: ")?;
    append_delay_if(text, tick, other)?;
    text.push_str("its jobs come in bursts, or less time is wanted than they take\n")
}

/// Appends what would do for a server, as `check` tells it, if something is needed.
fn append_would_do(text: &mut String, tick: Option<u64>, load: ServerLoad) -> Result<(), AllocError>
    ensures { OnOk result (string_bytes text.new ≡ string_bytes text.old
        ++ would_do_text tick load) }
{
    match load.remedy {
        Some(remedy) => append_remedy(text, tick, remedy, load.kept, load.room),
        None => Ok(()),
    }
}

/// Appends what would do for a server of a load, as `check` tells it, if something is needed.
fn append_load(
    text: &mut String,
    tick: Option<u64>,
    load: Option<ServerLoad>,
) -> Result<(), AllocError>
    ensures { OnOk result (string_bytes text.new ≡ string_bytes text.old ++ load_text tick load) }
{
    match load {
        Some(load) => append_would_do(text, tick, load),
        None => Ok(()),
    }
}

/// Appends what would do for a server that was asked for more than it has: of a server of a load what `check` tells, and
/// of one of a task file which budget would cover what it was asked for.
fn append_short(
    text: &mut String,
    tick: Option<u64>,
    cover: Option<u128>,
    period: u64,
    load: Option<ServerLoad>,
) -> Result<(), AllocError>
    ensures { OnOk result (string_bytes text.new ≡ string_bytes text.old
        ++ short_text tick cover period load) }
{
    match load {
        Some(load) => append_would_do(text, tick, load),
        None => append_cover(text, tick, cover, period),
    }
}

/// Appends why a server is not in time if it has enough, and what would do.
fn append_advice(
    text: &mut String,
    tick: Option<u64>,
    clock: u64,
    servers: &[ServerReport],
    server: &ServerReport,
    load: Option<ServerLoad>,
) -> Result<(), AllocError>
    ensures { OnOk result (string_bytes text.new ≡ string_bytes text.old
        ++ advice_text tick clock servers.now server.now load) }
{
    let period = server.reservation.period();
    let wanted = server.wanted();
    let share = u128::from(server.reservation.budget()) * u128::from(clock);
    if share < wanted * u128::from(period) {
        return append_short(text, tick, cover_of(wanted, period, clock), period, load);
    }
    append_enough(text, tick, delaying(servers, server))?;
    append_load(text, tick, load)
}

/// Appends the note of one of these servers, if it is not in time.
#[tactic(auto, unfolding(crate::specs::Notes::note_text))]
fn append_note(
    text: &mut String,
    tick: Option<u64>,
    clock: u64,
    servers: &[ServerReport],
    server: &ServerReport,
    load: Option<ServerLoad>,
) -> Result<(), AllocError>
    ensures { OnOk result (string_bytes text.new ≡ string_bytes text.old
        ++ note_if_wrong tick clock servers.now server.now load) }
{
    if server.is_in_time() {
        return Ok(());
    }
    append_asked(text, clock, server)?;
    append_advice(text, tick, clock, servers, server, load)
}

/// Returns what `check` tells of a server, or `None` if the server is none of a load.
fn load_of(loads: &[ServerLoad], server: usize) -> Option<ServerLoad>
    ensures { result ≡ slice_get loads.now server }
{
    loads.get(server).copied()
}

/// Appends an empty line and the notes of the servers that are not in time, if there are any. `loads` has what `check`
/// tells of each server of a load, and is empty for a task file.
pub(crate) fn append_notes(
    text: &mut String,
    tick: Option<u64>,
    clock: u64,
    servers: &[ServerReport],
    loads: &[ServerLoad],
) -> Result<(), AllocError>
    ensures { OnOk result (string_bytes text.new ≡ string_bytes text.old
        ++ notes_text tick clock servers.now loads.now (not_in_time servers.now)) }
{
    if count_wrong(servers) == 0 {
        return Ok(());
    }
    text.push_str("\n")?;
    for (at, server) in servers.iter().enumerate() {
        append_note(text, tick, clock, servers, server, load_of(loads, at))?;
    }
    Ok(())
}
