//! A server that a plan does not take.

ghost use Rattle.std.specs.Prelude.{◌≡◌, map, IfOk, IfSome, MatchOption};
ghost use Rattle.toml.specs.View.{view, table_view};
ghost use Rattle.cbsrun_faults.specs.Refused.{bound_at, reservation_of, plan_of, tick_in, IsRefused, IsNotRefused, TellsRefused, TellsReservations};

use crate::document::Document;
use cbs_rate::{AdmitError, Bound, Plan, Reservation};
use cbsrun_loads::{tick_at, ticks_at};
use cbsrun_times::Rounding;
use cbsrun_toml_tables::{FileKind, bound_of, members, pair_at, reservation};
use std::alloc::{AllocError, Global};
use toml::{Table, Value};

/// A server that a plan does not take.
#[derive(Drop)]
pub struct Refused {
    /// The server's number.
    pub number: usize,
    /// The nanoseconds of a tick, if the file says how long it is.
    pub tick: Option<u64>,
    /// Why the plan does not take it.
    pub why: AdmitError,
    /// The plan of the servers before it.
    pub plan: Plan,
    /// The reservation that the server asks for.
    pub reservation: Reservation,
}

/// Returns the bound of a document.
#[tactic(auto, unfolding(crate::specs::Refused::bound_at))]
fn bound_at(top: &Table) -> Result<Bound, FileKind>
    ensures { result ≡ bound_at (table_view top.now) }
{
    bound_of(pair_at(top, "bound")?)
}

/// Returns the nanoseconds of a tick, or `None` if the top table does not tell them.
pub(crate) fn tick_in(top: &Table) -> Option<u64>
    ensures { result ≡ tick_in (table_view top.now) }
{
    match tick_at(top) {
        Ok(tick) => tick,
        Err(_) => None,
    }
}

/// Returns the reservation of a server, in a file with this tick.
#[tactic(auto, unfolding(crate::specs::Refused::reservation_of))]
fn reservation_of(tick: Option<u64>, entry: &Value) -> Result<Reservation, FileKind>
    ensures { result ≡ reservation_of tick (view entry.now) }
{
    let server = members(entry)?;
    let budget = ticks_at(tick, Rounding::Up, server, "budget")?;
    let period = ticks_at(tick, Rounding::Whole, server, "period")?;
    reservation(budget, period)
}

/// Returns the plan of servers, or `None` if one has no reservation or the plan does not take it.
fn plan_of(tick: Option<u64>, bound: Bound, servers: &[Value]) -> Option<Plan>
    ensures value { result ≡ plan_of tick bound (map view servers.now) }
    ensures bound { IfSome result (λ plan. plan.bound ≡ bound) }
{
    let mut plan = Plan::new(bound);
    for entry in servers {
        let Ok(reservation) = reservation_of(tick, entry) else {
            return None;
        };
        if plan.admit(reservation).is_err() {
            return None;
        }
    }
    Some(plan)
}

/// Returns the server with this number and reservation, or `None` unless the plan of the servers before it refuses it.
fn refused_after(
    tick: Option<u64>,
    before: &[Value],
    bound: Bound,
    number: usize,
    reservation: Reservation,
) -> Option<Refused>
    ensures refused { MatchOption result (IsNotRefused tick bound (map view before.now) reservation)
        (IsRefused bound (map view before.now) reservation) }
    ensures named { IfSome result (λ refused. (refused.number ≡ number)
        × (refused.tick ≡ tick) × (refused.plan.bound ≡ bound)) }
{
    let mut plan = plan_of(tick, bound, before)?;
    let Err(why) = plan.admit(reservation) else {
        return None;
    };
    Some(Refused {
        number,
        tick,
        why,
        plan,
        reservation,
    })
}

/// Returns the server with this number, by the top table and the entries of `server`, or `None` unless the plan of the
/// servers before it refuses it.
fn refused_in(top: &Table, servers: &[Value], number: usize) -> Option<Refused>
    ensures { TellsRefused (table_view top.now) (map view servers.now) number result }
{
    let tick = tick_in(top);
    let Some(entry) = servers.get(number) else {
        return None;
    };
    let Ok(reservation) = reservation_of(tick, entry) else {
        return None;
    };
    let Ok(bound) = bound_at(top) else {
        return None;
    };
    refused_after(tick, &servers[..number], bound, number, reservation)
}

/// Returns the server with this number, or `None` unless the plan of the servers before it refuses it.
pub fn refused_at(document: Document<'_>, number: u64) -> Option<Refused>
    ensures { TellsRefused (table_view document.entry.top.now)
        (map view document.entry.servers.now) number result }
{
    refused_in(document.top, document.servers, number as usize)
}

/// Returns the reservations of all servers, in a file with this tick, or `None` if one has none. The only error is out of
/// memory.
pub fn reservations(
    alloc: Global,
    tick: Option<u64>,
    servers: &[Value],
) -> Result<Option<Vec<Reservation>>, AllocError>
    ensures { IfOk result (TellsReservations tick (map view servers.now)) }
{
    let mut all = Vec::new(alloc);
    for entry in servers {
        let Ok(reservation) = reservation_of(tick, entry) else {
            return Ok(None);
        };
        all.push(reservation)?;
    }
    Ok(Some(all))
}
