//! Notes on servers whose jobs are not promised in time: why, and what would do. The only error of each call is out of
//! memory.

ghost use Rattle.std.specs.Prelude.{◌≡◌, ◌++◌, ◌<◌, ◌≤◌, length, Some, IfSome, IfOk, OnOk, string_bytes};
ghost use Rattle.cbsrun_sizing.specs.ServerLoads.{AreServerLoads};
ghost use Rattle.cbsrun_check_text.specs.Tables.{optional_text};
ghost use Rattle.cbsrun_check_text.specs.Notes.{IsSummed, late_text, unfinished_text, why_text, reason_text, demand_text, asked_text, once_text, note_text, notes_text, set_off};

use crate::fractions::append_fraction;
use cbs_guarantee::NotPromised;
use cbs_rate::Reservation;
use cbsrun_loads::Load;
use cbsrun_remedy_texts::append_remedy;
use cbsrun_sizing::{Asked, ServerLoad, least_within};
use cbsrun_text::append_pair;
use cbsrun_time_texts::{append_ticks, append_time};
use std::alloc::{AllocError, Global};

/// Appends a number of ticks, or `-` if there is none.
fn append_optional(
    text: &mut String,
    tick: Option<u64>,
    ticks: Option<u64>,
) -> Result<(), AllocError>
    ensures { OnOk result (string_bytes text.new ≡ string_bytes text.old
        ++ optional_text tick ticks) }
{
    match ticks {
        Some(ticks) => append_time(text, tick, ticks),
        None => text.push_str("-"),
    }
}

/// Appends that jobs are finished within so many ticks, and within how many is wanted.
#[tactic(auto, unfolding(crate::specs::Notes::late_text))]
fn append_late(
    text: &mut String,
    tick: Option<u64>,
    time: u64,
    within: Option<u64>,
) -> Result<(), AllocError>
    ensures { OnOk result (string_bytes text.new ≡ string_bytes text.old
        ++ late_text tick time within) }
{
    text.push_str("its jobs are finished within ")?;
    append_ticks(text, tick, time)?;
    text.push_str(", and ")?;
    append_optional(text, tick, within)?;
    text.push_str(" is wanted")
}

/// Appends how many jobs may be unfinished at once, and how many the backlog holds.
#[tactic(auto, unfolding(crate::specs::Notes::unfinished_text))]
fn append_unfinished(text: &mut String, needed: u64, backlog: u64) -> Result<(), AllocError>
    ensures { OnOk result (string_bytes text.new ≡ string_bytes text.old
        ++ unfinished_text needed backlog) }
{
    append_pair(text, "", needed)?;
    append_pair(
        text,
        " of its jobs may be unfinished at once, and the backlog is ",
        backlog,
    )
}

/// Appends why the jobs of a server are not promised in time: they are promised late, or not at all. Times are in
/// milliseconds, if the nanoseconds of a tick are known. The only error is out of memory.
pub fn append_why(
    text: &mut String,
    tick: Option<u64>,
    backlog: u64,
    within: Option<u64>,
    promised: Result<u64, NotPromised>,
) -> Result<(), AllocError>
    ensures { OnOk result (string_bytes text.new ≡ string_bytes text.old
        ++ why_text tick backlog within promised) }
{
    match promised {
        Ok(time) => append_late(text, tick, time, within),
        Err(NotPromised::AsksTooMuch) => {
            text.push_str("its jobs may come faster than they are finished")
        }
        Err(NotPromised::BacklogTooSmall { needed }) => append_unfinished(text, needed, backlog),
        Err(NotPromised::SharedOverrun) => {
            text.push_str("a unit may overrun, and it has several sources")
        }
        Err(NotPromised::LateOverrun) => text.push_str(
            "a unit may overrun, and a job may not be finished when the next comes",
        ),
        Err(NotPromised::BeyondLimits) => text.push_str("its sources are beyond the limits"),
    }
}

/// Appends what is asked for once, if there is something.
#[tactic(auto, unfolding(crate::specs::Notes::once_text))]
fn append_once(text: &mut String, tick: Option<u64>, ticks: u64) -> Result<(), AllocError>
    ensures { OnOk result (string_bytes text.new ≡ string_bytes text.old ++ once_text tick ticks) }
{
    if ticks == 0 {
        return Ok(());
    }
    text.push_str(", and for ")?;
    append_ticks(text, tick, ticks)?;
    text.push_str(" once")
}

/// Appends what the sources may ask for, also once, and what the server has.
#[tactic(auto, unfolding(crate::specs::Notes::demand_text))]
fn append_demand(
    text: &mut String,
    tick: Option<u64>,
    rate: Reservation,
    asked: Asked,
    once: u64,
) -> Result<(), AllocError>
    requires { IsSummed asked }
    ensures { OnOk result (string_bytes text.new ≡ string_bytes text.old
        ++ demand_text tick rate asked once) }
{
    append_fraction(
        text,
        "      it may ask for ",
        asked.ticks,
        u128::from(asked.of),
    )?;
    text.push_str(" of the time")?;
    append_once(text, tick, once)?;
    append_fraction(
        text,
        ", and has ",
        u128::from(rate.budget()),
        u128::from(rate.period()),
    )?;
    text.push_str("\n")
}

/// Appends what the sources may ask for, if that is too much, and if it is summed.
fn append_asked(
    text: &mut String,
    tick: Option<u64>,
    rate: Reservation,
    load: ServerLoad,
) -> Result<(), AllocError>
    requires { IfSome load.asked IsSummed }
    ensures { OnOk result (string_bytes text.new ≡ string_bytes text.old
        ++ asked_text tick rate load.promised load.asked load.once) }
{
    match (load.promised, load.asked) {
        (Err(NotPromised::AsksTooMuch), Some(asked)) => {
            append_demand(text, tick, rate, asked, load.once)
        }
        _ => Ok(()),
    }
}

/// Appends the first line of a note: why the jobs of a server are not promised in time.
#[tactic(auto, unfolding(crate::specs::Notes::reason_text))]
fn append_reason(
    text: &mut String,
    tick: Option<u64>,
    name: &str,
    backlog: u64,
    within: Option<u64>,
    promised: Result<u64, NotPromised>,
) -> Result<(), AllocError>
    ensures { OnOk result (string_bytes text.new ≡ string_bytes text.old
        ++ reason_text tick name.now backlog within promised) }
{
    text.push_str("note: ")?;
    text.push_str(name)?;
    text.push_str(" is not promised: ")?;
    append_why(text, tick, backlog, within, promised)?;
    text.push_str("\n")
}

/// Appends the note of a server, if a remedy is needed. `backlog` is the load's, and `within` the least that a source of
/// the server wants.
#[tactic(auto, unfolding(crate::specs::Notes::note_text))]
fn append_note(
    text: &mut String,
    tick: Option<u64>,
    name: &str,
    rate: Reservation,
    backlog: u64,
    within: Option<u64>,
    load: ServerLoad,
) -> Result<(), AllocError>
    requires { IfSome load.asked IsSummed }
    ensures { OnOk result (string_bytes text.new ≡ string_bytes text.old
        ++ note_text tick name.now rate backlog within load) }
{
    let Some(remedy) = load.remedy else {
        return Ok(());
    };
    append_reason(text, tick, name, backlog, within, load.promised)?;
    append_asked(text, tick, rate, load)?;
    append_remedy(text, tick, remedy, load.kept, load.room)
}

/// Returns the notes of all servers of a load, with these figures of their sources.
fn notes(alloc: Global, load: &Load, loads: &[ServerLoad]) -> Result<String, AllocError>
    requires { AreServerLoads load.now (length load.now.plan.rates) loads.now }
    ensures { IfOk result (λ text. string_bytes text ≡ notes_text load.now loads.now) }
{
    let names = load.names();
    let plan = load.plan();
    let mut text = String::new(alloc);
    for server in 0..plan.len() as u16 {
        let at = usize::from(server);
        let rate = plan.get(server).unwrap();
        let within = least_within(load.sources(), server);
        append_note(
            &mut text,
            load.tick(),
            names[at].as_str(),
            rate,
            load.backlog(),
            within,
            loads[at],
        )?;
    }
    Ok(text)
}

/// Appends an empty line and the notes of all servers of a load, if there are any. `loads` has the figures of their
/// sources. The only error is out of memory.
pub(crate) fn append_notes(
    alloc: Global,
    text: &mut String,
    load: &Load,
    loads: &[ServerLoad],
) -> Result<(), AllocError>
    requires { AreServerLoads load.now (length load.now.plan.rates) loads.now }
    ensures { OnOk result (string_bytes text.new ≡ string_bytes text.old
        ++ set_off (notes_text load.now loads.now)) }
{
    let notes = notes(alloc, load, loads)?;
    if notes.is_empty() {
        return Ok(());
    }
    text.push_str("\n")?;
    text.push_str(&notes)
}
