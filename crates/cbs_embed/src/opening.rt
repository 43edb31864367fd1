//! Opens a house with its clients, each in a handle.

ghost use Rattle.std.specs.Prelude.{◌≡◌, IfOk, Some, length, map};
ghost use Rattle.cbs_rate.specs.Refusals.{RefusesByOrMemory};
ghost use Rattle.cbs_clients.specs.Opened.{open_refusal};
ghost use Rattle.cbs_embed.specs.Handles.{held_by};
ghost use Rattle.cbs_embed.specs.Openings.{Opens, OpenOf};
ghost use Rattle.cbs_embed.specs.declared.held.Held.TheVariants as held;

use crate::handle::Handle;
use crate::held::Held;
use crate::job::UnitJob;
use crate::planning::{take_all, whole_processor};
use crate::refusal::{HandleError, Refusal};
use crate::server::Server;
use cbs_house::{Client, House, HouseError, open_house_of};
use cbs_rules::Setup;
use std::alloc::{AllocError, Global};
use std::collections::VecDeque;

/// Opens a house of these servers with its clients, each in a handle. There must be as many client handles as servers.
///
/// What the handles held before is dropped, but only on success. Refuses by the first server that does not fit, as
/// [`take_all`] does; then by [`HandleError::WrongCount`]; then as [`open_house_of`] does. After a refusal all handles
/// are as they were.
// Not inlined, here and below: a plan takes half a kilobyte of stack, which the caller's frame should not include.
#[inline(never)]
pub fn open(
    alloc: Global,
    servers: &[Server],
    backlog: u64,
    ring: u64,
    house: &mut Handle,
    clients: &mut [Handle],
) -> Result<(), Refusal>
    ensures { OpenOf servers.now backlog ring house.old house.new clients.old clients.new result }
{
    let mut setup = whole_processor();
    take_all(&mut setup, servers)?;
    if clients.len() != setup.plan().len() {
        return Err(Refusal::Handle(HandleError::WrongCount));
    }
    match open_boxes(alloc, &setup, backlog, ring) {
        Ok((held, ends)) => {
            fill(clients, ends);
            house.put(held);
            Ok(())
        }
        Err(error) => Err(Refusal::House(error)),
    }
}

/// Opens a house with its clients, and returns each in a box. Refuses as the opening of a house does.
#[inline(never)]
fn open_boxes(
    alloc: Global,
    setup: &Setup,
    backlog: u64,
    ring: u64,
) -> Result<(Box<Held>, Vec<Box<Held>>), HouseError>
    ensures ok { IfOk result (λ r. Opens setup.now.modes setup.now.plan.rates backlog ring
        (Some r.0.value) (map (λ b. Some b.value) r.1.items)) }
    ensures refusal { RefusesByOrMemory HouseError.OutOfMemory result (open_refusal backlog ring) }
{
    let (house, clients) = open_house_of(alloc, setup.plan(), setup.modes(), backlog, ring)?;
    match box_both(alloc, house, clients) {
        Ok(boxes) => Ok(boxes),
        Err(_) => Err(HouseError::OutOfMemory),
    }
}

/// Returns the house and each client in a box, or the error if an allocation is refused.
#[inline(never)]
fn box_both(
    alloc: Global,
    house: House<UnitJob>,
    clients: Vec<Client<UnitJob>>,
) -> Result<(Box<Held>, Vec<Box<Held>>), AllocError>
    ensures house { IfOk result (λ r. r.0.value ≡ held.House house) }
    ensures clients { IfOk result (λ r. map (λ b. Some b.value) r.1.items
        ≡ map (λ c. Some (held.Client c)) clients.items) }
{
    let held = box_house(alloc, house)?;
    let ends = box_all(alloc, clients)?;
    Ok((held, ends))
}

/// Returns the house in a box, or the error if an allocation is refused.
#[inline(never)]
fn box_house(alloc: Global, house: House<UnitJob>) -> Result<Box<Held>, AllocError>
    ensures { IfOk result (λ b. b.value ≡ held.House house) }
{
    match Box::new(alloc, Held::House(house)) {
        Ok(held) => Ok(held),
        Err(_) => Err(AllocError),
    }
}

/// Returns each client in a box, or the error if an allocation is refused.
#[inline(never)]
fn box_all(alloc: Global, clients: Vec<Client<UnitJob>>) -> Result<Vec<Box<Held>>, AllocError>
    ensures { IfOk result (λ boxes. map (λ b. Some b.value) boxes.items
        ≡ map (λ c. Some (held.Client c)) clients.items) }
{
    let mut boxes = Vec::with_capacity(alloc, clients.len())?;
    for client in clients {
        boxes.push(Box::new(alloc, Held::Client(client))?)?;
    }
    Ok(boxes)
}

/// Puts a box into each handle.
#[inline(never)]
fn fill(handles: &mut [Handle], boxes: Vec<Box<Held>>)
    requires { length handles.old ≡ length boxes.items }
    ensures { map held_by handles.new ≡ map (λ b. Some b.value) boxes.items }
{
    let mut boxes = VecDeque::from(boxes);
    for handle in handles.iter_mut() {
        handle.put(boxes.pop_front().unwrap());
    }
}
