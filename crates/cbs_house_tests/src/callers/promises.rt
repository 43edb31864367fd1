//! Callers that use a promise of a house that took turns. They need only the contracts.

ghost use Rattle.std.specs.Prelude.{◌≡◌, IfOk, IfSome, length};
ghost use Rattle.cbs_core.specs.Agreement.{Agrees};
ghost use Rattle.cbs_steps.specs.History.{History};
ghost use Rattle.cbs_steps.specs.Paced.{AllFinishedLate};
ghost use Rattle.cbs_steps.specs.Promises.{AllFinishedBy};
ghost use Rattle.cbs_clients.specs.Houses.{core_of};
ghost use Rattle.cbs_embed.specs.Calls.{HoldsInside};
ghost use Rattle.cbs_embed.specs.Jobs.{counting};
ghost use Rattle.cbs_embed.specs.Handles.{held_by};

use cbs_embed::{Handle, Refusal, Server, calls, open};
use cbs_house::{House, HouseError, open_house};
use cbs_job::Work;
use cbs_rate::Plan;
use cbs_rules::Modes;
use std::alloc::Global;

/// Opens a house, which takes `turns` turns. Returns the house with the tick by which all jobs that server 0 then has
/// are finished. The tick is `None` if the server has no job.
pub fn promised_after_turns<W: Work>(
    alloc: Global,
    plan: Plan,
    modes: Modes,
    turns: u64,
) -> Result<(House<W>, Option<u128>), HouseError>
    requires { length modes ≡ length plan.rates }
    ensures { IfOk result (λ r. IfSome r.1 (λ tick. (M : History W)
        → Agrees W.meaning (core_of r.0) M → AllFinishedBy W.meaning M 0 tick)) }
{
    let (mut house, _clients) = open_house(alloc, plan, modes, 4, 4)?;
    for _ in 0..turns {
        house.turn();
    }
    let tick = house.promised(0);
    Ok((house, tick))
}

/// Opens a house, which takes `turns` turns, and then charges `ticks` ticks for the last unit. Returns the house with
/// the tick by which all jobs that server 0 then has are finished, but for charges. The tick is `None` if the server
/// has no job.
///
/// Refuses as [`open_house`] and [`House::charge`] do.
pub fn promised_after_charge<W: Work>(
    alloc: Global,
    plan: Plan,
    modes: Modes,
    turns: u64,
    ticks: u64,
) -> Result<(House<W>, Option<u128>), HouseError>
    requires { length modes ≡ length plan.rates }
    ensures { IfOk result (λ r. IfSome r.1 (λ tick. (M : History W)
        → Agrees W.meaning (core_of r.0) M → AllFinishedLate W.meaning M 0 tick)) }
{
    let (mut house, _clients) = open_house(alloc, plan, modes, 4, 4)?;
    for _ in 0..turns {
        house.turn();
    }
    house.charge(ticks)?;
    let tick = house.promised(0);
    Ok((house, tick))
}

/// Opens a house in a handle, which takes `turns` turns. Returns the tick by which all jobs that server 0 then has are
/// finished, or `None` if it has no job.
pub fn told_after_turns(
    alloc: Global,
    servers: &[Server],
    house: &mut Handle,
    clients: &mut [Handle],
    turns: u64,
) -> Result<Option<u128>, Refusal>
    ensures { IfOk result (λ told. HoldsInside (held_by house.new)
        (λ M. IfSome told (AllFinishedBy counting M 0))) }
{
    open(alloc, servers, 4, 4, house, clients)?;
    for _ in 0..turns {
        calls::turn(house)?;
    }
    calls::promised(house, 0)
}

/// Opens a house in a handle, which takes `turns` turns, and then charges server 0 `ticks` ticks for its last unit.
/// Returns the tick by which all jobs that server 0 then has are finished, but for charges, or `None` if it has no job.
pub fn told_after_charge(
    alloc: Global,
    servers: &[Server],
    house: &mut Handle,
    clients: &mut [Handle],
    turns: u64,
    ticks: u64,
) -> Result<Option<u128>, Refusal>
    ensures { IfOk result (λ told. HoldsInside (held_by house.new)
        (λ M. IfSome told (AllFinishedLate counting M 0))) }
{
    open(alloc, servers, 4, 4, house, clients)?;
    for _ in 0..turns {
        calls::turn(house)?;
    }
    calls::charge(house, 0, ticks)?;
    calls::promised(house, 0)
}
