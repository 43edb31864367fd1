//! The text about a file with no fault.

ghost use Rattle.std.specs.Prelude.{◌≡◌, ◌++◌, length, map, IfOk, OnOk, string_bytes};
ghost use Rattle.cbsrun_check_text.specs.Checks.{every_text, fits_text, periods_text, tick_text, together_text, plan_text, numbered, IsPlanText, IsLoadText};

use crate::fractions::append_fraction;
use crate::lateness::append_lateness;
use crate::notes::append_notes;
use crate::servers::append_servers;
use crate::sources::append_sources;
use cbs_rate::Plan;
use cbs_rules::Modes;
use cbsrun_loads::Load;
use cbsrun_sizing::{greatest_budgets, left_over, server_loads};
use cbsrun_text::append_pair;
use cbsrun_time_texts::append_time;
use std::alloc::{AllocError, Global};

/// Appends that the servers fit, what share of the time they have reserved, and what share is left under the bound.
#[tactic(auto, unfolding(crate::specs::Checks::fits_text))]
fn append_fits(text: &mut String, plan: &Plan) -> Result<(), AllocError>
    ensures { OnOk result (string_bytes text.new ≡ string_bytes text.old ++ fits_text plan.now) }
{
    let bound = plan.bound();
    let (num, den) = (bound.num(), bound.den());
    let reserved = plan.bandwidth();
    let of = u128::from(reserved.of);
    let left = left_over(plan);
    append_fraction(text, "fits: ", u128::from(reserved.ticks), of)?;
    append_fraction(
        text,
        " of the time is reserved, ",
        left,
        u128::from(den) * of,
    )?;
    append_pair(text, " is left under the bound ", num)?;
    append_pair(text, "/", den)?;
    text.push_str("\n")
}

/// Appends after how many ticks all periods begin together again.
fn append_every(text: &mut String, ticks: u64) -> Result<(), AllocError>
    ensures { OnOk result (string_bytes text.new ≡ string_bytes text.old ++ every_text ticks) }
{
    if ticks == 1 {
        return text.push_str("The periods come together every tick.\n");
    }
    append_pair(text, "The periods come together every ", ticks)?;
    text.push_str(" ticks.\n")
}

/// Appends how long a tick is.
#[tactic(auto, unfolding(crate::specs::Checks::tick_text))]
fn append_tick(text: &mut String, tick: Option<u64>) -> Result<(), AllocError>
    ensures { OnOk result (string_bytes text.new ≡ string_bytes text.old ++ tick_text tick) }
{
    text.push_str(". A tick is ")?;
    append_time(text, tick, 1)?;
    text.push_str(".\n")
}

/// Appends after how many milliseconds all periods begin together again, and how long a tick is.
#[tactic(auto, unfolding(crate::specs::Checks::together_text))]
fn append_together(text: &mut String, tick: Option<u64>, ticks: u64) -> Result<(), AllocError>
    ensures { OnOk result (string_bytes text.new ≡ string_bytes text.old
        ++ together_text tick ticks) }
{
    text.push_str("The periods come together every ")?;
    append_time(text, tick, ticks)?;
    append_tick(text, tick)
}

/// Appends after how many ticks all periods begin together again: in milliseconds, if the nanoseconds of a tick are known.
fn append_periods(text: &mut String, tick: Option<u64>, ticks: u64) -> Result<(), AllocError>
    ensures { OnOk result (string_bytes text.new ≡ string_bytes text.old
        ++ periods_text tick ticks) }
{
    match tick {
        None => append_every(text, ticks),
        Some(_) => append_together(text, tick, ticks),
    }
}

/// Appends the text about the servers of a plan, with these names, modes and greatest budgets.
#[tactic(auto, unfolding(crate::specs::Checks::plan_text))]
fn append_plan(
    alloc: Global,
    text: &mut String,
    tick: Option<u64>,
    names: &[String],
    modes: &Modes,
    plan: &Plan,
    budgets: &[u64],
) -> Result<(), AllocError>
    requires named { length names.now ≡ length plan.now.rates }
    requires moded { length modes.now ≡ length plan.now.rates }
    requires counted { length budgets.now ≡ length plan.now.rates }
    ensures { OnOk result (string_bytes text.new ≡ string_bytes text.old
        ++ plan_text tick (map string_bytes names.now) modes.now plan.now budgets.now) }
{
    append_fits(text, plan)?;
    text.push_str("\n")?;
    append_servers(alloc, text, tick, names, modes, plan, budgets)?;
    text.push_str("\n")?;
    append_periods(text, tick, plan.bandwidth().of)
}

/// Returns names for this many servers, which have no names of their own: each is the word `front` and the server's number.
/// The only error is out of memory.
pub fn numbered(alloc: Global, front: &str, servers: u16) -> Result<Vec<String>, AllocError>
    ensures names { IfOk result (λ names. map string_bytes names.items
        ≡ numbered front.now servers) }
    ensures count { IfOk result (λ names. length names.items ≡ servers) }
{
    let mut names = Vec::with_capacity(alloc, usize::from(servers))?;
    for server in 0..servers {
        let mut name = String::new(alloc);
        append_pair(&mut name, front, server)?;
        names.push(name)?;
    }
    Ok(names)
}

/// Returns the text about servers with these names. The first line says that they fit, what share of the time is reserved,
/// and what share is left under the bound. The table has each server with the greatest budget that it could have, if
/// all others stay as they are. The last line says after how many ticks all periods begin together again. Times are in
/// milliseconds, if the nanoseconds of a tick are known.
///
/// `names` and `modes` have the name and the mode of each server of the plan. The only error is out of memory.
pub fn check_plan(
    alloc: Global,
    tick: Option<u64>,
    names: &[String],
    modes: &Modes,
    plan: &Plan,
) -> Result<String, AllocError>
    requires named { length names.now ≡ length plan.now.rates }
    requires moded { length modes.now ≡ length plan.now.rates }
    ensures { IfOk result (λ text. IsPlanText tick (map string_bytes names.now) modes.now plan.now
        (string_bytes text)) }
{
    let budgets = greatest_budgets(alloc, plan)?;
    let mut text = String::new(alloc);
    append_plan(alloc, &mut text, tick, names, modes, plan, &budgets)?;
    Ok(text)
}

/// Returns the text about a load. It begins with the text about its servers, as [`check_plan`] writes it.
///
/// If the load has sources, a table of them follows. The table shows what each source may ask for, and whether its jobs
/// are always in time, whatever the other servers do. If units may overrun, a line says how late they can make a
/// server, and another how soon that is made up. A note for each server whose jobs are not promised in time says why,
/// and what would do. The only error is out of memory.
pub fn check_load(alloc: Global, load: &Load) -> Result<String, AllocError>
    ensures { IfOk result (λ text. IsLoadText load.now (string_bytes text)) }
{
    let budgets = greatest_budgets(alloc, load.plan())?;
    let loads = server_loads(alloc, load)?;
    let mut text = String::new(alloc);
    append_plan(
        alloc,
        &mut text,
        load.tick(),
        load.names(),
        load.modes(),
        load.plan(),
        &budgets,
    )?;
    append_sources(alloc, &mut text, load, &loads)?;
    append_lateness(&mut text, load)?;
    append_notes(alloc, &mut text, load, &loads)?;
    Ok(text)
}
