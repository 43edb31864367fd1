//! Opens a house with its clients.

ghost use Rattle.std.specs.Prelude.{◌≡◌, ◌<◌, ◌≤◌, [], length, map, IfOk, IfErr};
ghost use Rattle.std.specs.List.{All, range_with_len};
ghost use Rattle.cbs_core.specs.Agreement.{Agrees};
ghost use Rattle.cbs_steps.specs.History.{Setup};
ghost use Rattle.cbs_steps.specs.Setups.{setup_of};
ghost use Rattle.cbs_rate.specs.Refusals.{RefusesByOrMemory};
ghost use Rattle.cbs_clients.specs.Calls.{IsNewHouse};
ghost use Rattle.cbs_clients.specs.Clients.{server_of, ring_of, IsOpened, AreOpened, EachOpened};
ghost use Rattle.cbs_clients.specs.Houses.{rings_of};
ghost use Rattle.cbs_clients.specs.Opened.{open_refusal, IsNewEnd, IsUnused, HousesCore};
ghost use Rattle.cbs_clients.specs.Rings.{rings_in};
ghost use Rattle.cbs_rate.specs.Limits.{most_ring, most_servers};

use crate::client::Client;
use crate::error::HouseError;
use crate::house::House;
use crate::marks::{Marked, Marks};
use crate::rings::Rings;
use cbs_core::{Core, MAX_BACKLOG};
use cbs_job::Work;
use cbs_rate::{MAX_RING, Plan};
use cbs_results::Collector;
use cbs_rules::Modes;
use rtrb::RingBuffer;
use std::alloc::{AllocError, Allocator};

/// Opens a house whose servers have the reservations of the plan and, by number, these modes, each with at most
/// `backlog` unfinished jobs. Returns the house and one client for each server, in order of their numbers, each with a
/// ring of `ring` slots.
///
/// A client that is dropped ends, so its server closes once all that the client sent is taken. The ring has one slot
/// more than `ring` for that end, so the end is sent even if the ring is full.
///
/// There must be a mode for each server of the plan.
///
/// Refuses, in this order:
/// - [`HouseError::BadBacklog`] if the backlog is not within 1 to [`MAX_BACKLOG`];
/// - [`HouseError::BadRing`] if the ring is not within 1 to [`MAX_RING`];
/// - [`HouseError::OutOfMemory`] if an allocation is refused.
pub fn open_house<W: Work, A: Allocator + Copy>(
    alloc: A,
    plan: Plan,
    modes: Modes,
    backlog: u64,
    ring: u64,
) -> Result<(House<W, A>, Vec<Client<W, A>, A>), HouseError>
    requires { length modes ≡ length plan.rates }
    ensures new { IfOk result (λ r. IsNewHouse W.meaning
        (setup_of modes plan.rates backlog) r.0) }
    ensures clients { IfOk result (λ r. map server_of r.1.items
        ≡ range_with_len 0 (length plan.rates)) }
    ensures count { IfOk result (λ r. (length r.1.items ≡ length plan.rates)
        × (length r.1.items ≤ most_servers)) }
    ensures unused { IfOk result (λ r. All (IsUnused ring) r.1.items) }
    ensures opened { IfOk result (λ r. All (IsOpened (rings_of r.0)) r.1.items) }
    ensures together { IfOk result (λ r. AreOpened (rings_of r.0) r.1.items) }
    ensures each { IfOk result (λ r. EachOpened (rings_of r.0) r.1.items) }
    ensures refusal { RefusesByOrMemory HouseError.OutOfMemory result (open_refusal backlog ring) }
{
    open_house_of(alloc, &plan, &modes, backlog, ring)
}

/// Opens a house with its clients as [`open_house`] does, and returns both, but borrows the plan and the modes. Each of
/// them takes up to half a kilobyte, which a move would copy.
// Neither this function nor the next is inlined, so that no stack frame holds all copies of a house at once.
#[inline(never)]
pub fn open_house_of<W: Work, A: Allocator + Copy>(
    alloc: A,
    plan: &Plan,
    modes: &Modes,
    backlog: u64,
    ring: u64,
) -> Result<(House<W, A>, Vec<Client<W, A>, A>), HouseError>
    requires { length modes.now ≡ length plan.now.rates }
    ensures new { IfOk result (λ r. IsNewHouse W.meaning
        (setup_of modes.now plan.now.rates backlog) r.0) }
    ensures clients { IfOk result (λ r. map server_of r.1.items
        ≡ range_with_len 0 (length plan.now.rates)) }
    ensures count { IfOk result (λ r. (length r.1.items ≡ length plan.now.rates)
        × (length r.1.items ≤ most_servers)) }
    ensures unused { IfOk result (λ r. All (IsUnused ring) r.1.items) }
    ensures opened { IfOk result (λ r. All (IsOpened (rings_of r.0)) r.1.items) }
    ensures together { IfOk result (λ r. AreOpened (rings_of r.0) r.1.items) }
    ensures each { IfOk result (λ r. EachOpened (rings_of r.0) r.1.items) }
    ensures refusal { RefusesByOrMemory HouseError.OutOfMemory result (open_refusal backlog ring) }
{
    if backlog == 0 || backlog > MAX_BACKLOG {
        return Err(HouseError::BadBacklog);
    }
    if ring == 0 || ring > MAX_RING {
        return Err(HouseError::BadRing);
    }
    let Ok(core) = Core::of(alloc, plan, modes, backlog) else {
        return Err(HouseError::OutOfMemory);
    };
    house_of(alloc, core, ring as usize)
}

/// Returns a house of this core, which has made no step, and one client for each server. Refuses by
/// [`HouseError::OutOfMemory`] if an allocation is refused.
#[inline(never)]
fn house_of<W: Work, A: Allocator + Copy>(
    alloc: A,
    core: Core<W, A>,
    ring: usize,
) -> Result<(House<W, A>, Vec<Client<W, A>, A>), HouseError>
    requires new { (setup : Setup) × Agrees W.meaning core (record { setup = setup; steps = [] })
        × (0 < setup.backlog) }
    requires ring { ring ≤ most_ring }
    ensures made { IfOk result (λ r. HousesCore core ring r.0 r.1.items) }
    ensures refusal { IfErr result (λ error. error ≡ HouseError.OutOfMemory) }
{
    let servers = core.servers();
    let Ok(collector) = Collector::new(alloc, servers) else {
        return Err(HouseError::OutOfMemory);
    };
    let Ok((rings, clients)) = open_rings(alloc, servers, ring) else {
        return Err(HouseError::OutOfMemory);
    };
    let house = House {
        core,
        rings,
        collector,
        tape: None,
    };
    Ok((house, clients))
}

/// Opens a ring for each of `servers` servers. Returns the house's ends, and the clients with theirs. Each ring has
/// `slots` slots for what its client sends, and one more that is kept for the end of a dropped client.
fn open_rings<W: Work, A: Allocator + Copy>(
    alloc: A,
    servers: u16,
    slots: usize,
) -> Result<(Rings<W, A>, Vec<Client<W, A>, A>), AllocError>
    requires few { servers ≤ most_servers }
    requires slots { slots ≤ most_ring }
    ensures new { IfOk result (λ r. All IsNewEnd r.0.ends.items) }
    ensures rings { IfOk result (λ r. rings_in r.0 ≡ map ring_of r.1.items) }
    ensures clients { IfOk result (λ r. map server_of r.1.items ≡ range_with_len 0 servers) }
    ensures unused { IfOk result (λ r. All (IsUnused slots) r.1.items) }
{
    let marks = Marks::new(alloc)?;
    let mut ends = Vec::with_capacity(alloc, usize::from(servers))?;
    let mut clients = Vec::with_capacity(alloc, usize::from(servers))?;
    for server in 0..servers {
        let (producer, consumer) = RingBuffer::new(alloc, slots + 1)?;
        let mark = marks.of(server)?;
        ends.push_reserved(consumer);
        clients.push_reserved(Client::new(server, producer, mark));
    }
    let rings = Rings {
        ends,
        marks,
        marked: Marked { bits: 0 },
    };
    Ok((rings, clients))
}
