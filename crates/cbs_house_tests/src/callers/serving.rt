//! Callers of cbs_house without a proof of their own: they need only its contracts.

ghost use Rattle.std.specs.Prelude.{◌≡◌, ◌++◌, IfOk, IfSome, length};
ghost use Rattle.cbs_core.specs.Held.{HoldsNoJob};
ghost use Rattle.cbs_clients.specs.Clients.{server_of, sent_by};
ghost use Rattle.cbs_clients.specs.Houses.{core_of, received, known};

use cbs_house::{
    Client, Feed, House, HouseError, OpenGate, feeds_of, open_feeds, open_house, serve,
};
use cbs_job::{Task, Work};
use cbs_rate::Plan;
use cbs_rules::Modes;
use std::alloc::Global;
use std::thread::Threads;
use std::time::Clock;

/// Opens a house, makes feeds of its clients and these lists, and serves them. Returns the house and the feeds.
pub fn feeds_served<R: Threads + Clock + Sync, W: Work + Send>(
    rt: &R,
    alloc: Global,
    plan: Plan,
    modes: Modes,
    lists: Vec<Vec<Task<W>>>,
) -> Result<(House<W>, Vec<Feed<W>>), HouseError>
    requires modes { length modes ≡ length plan.rates }
    requires lists { length lists.items ≡ length plan.rates }
    ensures drained { IfOk result (λ r. HoldsNoJob (core_of r.0)) }
{
    let (mut house, clients) = open_house(alloc, plan, modes, 4, 4)?;
    let Ok(mut feeds) = feeds_of(alloc, clients, lists) else {
        return Err(HouseError::OutOfMemory);
    };
    serve(rt, &mut house, &mut feeds, &OpenGate)?;
    Ok((house, feeds))
}

/// Opens a house with feeds of these lists, and serves them. Returns the house and the feeds.
pub fn opened_feeds_served<R: Threads + Clock + Sync, W: Work + Send>(
    rt: &R,
    alloc: Global,
    plan: Plan,
    modes: Modes,
    lists: Vec<Vec<Task<W>>>,
) -> Result<(House<W>, Vec<Feed<W>>), HouseError>
    requires modes { length modes ≡ length plan.rates }
    requires lists { length lists.items ≡ length plan.rates }
    ensures drained { IfOk result (λ r. HoldsNoJob (core_of r.0)) }
{
    let (mut house, mut feeds) = match open_feeds(alloc, plan, modes, 4, 4, lists) {
        Ok(opened) => opened,
        Err(refused) => return Err(refused.error),
    };
    serve(rt, &mut house, &mut feeds, &OpenGate)?;
    Ok((house, feeds))
}

/// Opens a house, and settles the last of its clients. Returns the house, the client and how many messages stand in its
/// ring, or `None` if there is no client.
pub fn last_settled<W: Work>(
    alloc: Global,
    plan: Plan,
    modes: Modes,
) -> Result<Option<(House<W>, Client<W>, u64)>, HouseError>
    requires { length modes ≡ length plan.rates }
    ensures standing { IfOk result (λ last. IfSome last (λ r. r.2
        ≡ length (known r.0 (server_of r.1)))) }
    ensures lawful { IfOk result (λ last. IfSome last (λ r. sent_by r.1
        ≡ received r.0 (server_of r.1) ++ known r.0 (server_of r.1))) }
{
    let (mut house, mut clients) = open_house::<W, Global>(alloc, plan, modes, 4, 4)?;
    let Some(mut client) = clients.pop() else {
        return Ok(None);
    };
    let standing = house.settle(&mut client);
    Ok(Some((house, client, standing)))
}
