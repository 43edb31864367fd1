//! The calls on a house or a client in a handle.

ghost use Rattle.cbs_embed.specs.Calls.{OpensTape, HandsOutTape, TellsLost, ClosesTape};
ghost use Rattle.cbs_embed.specs.Calls.{OnHeld, InClient, Runs, Turns, Polls, Advances, ChargesServer, Finishes, ShowsCharges, TellsClock, Spans, Shows, Promises, Sends, Ends, Waits, OnHouse};
ghost use Rattle.cbs_embed.specs.Handles.{held_by};
ghost use Rattle.cbs_embed.specs.Paces.{Asks, BeginsPace, EndsUnit};
ghost use Rattle.cbs_pace.specs.Paces.{time_to, measured};
ghost use Rattle.std.specs.Prelude.{◌≡◌, OnErr};

use crate::handle::Handle;
use crate::refusal::Refusal;
use crate::told::{Asked, Turn, Unit};
use crate::{in_time, on_client, on_house};
use cbs_core::{Charges, ServerView};
use cbs_house::Poll;
use cbs_pacer::{Pacer, Rounding, Tick};
use std::alloc::Global;

/// Runs one unit, as [`House::run`] does. Returns what ran, and its token.
pub fn run(handle: &mut Handle) -> Result<Unit, Refusal>
    ensures { OnHouse Runs (held_by handle.old) result (held_by handle.new) }
{
    on_house::run(handle.house_mut()?)
}

/// Takes a turn, as [`House::turn`] does. Returns what the turn did, the token of the unit's job, and whether all is
/// over.
pub fn turn(handle: &mut Handle) -> Result<Turn, Refusal>
    ensures { OnHouse Turns (held_by handle.old) result (held_by handle.new) }
{
    on_house::turn(handle.house_mut()?)
}

/// Looks for the next message of a server, as [`House::poll`] does, and returns what the poll did. Refuses by
/// [`HouseError::NoSuchServer`] if there is no such server.
pub fn poll(handle: &mut Handle, server: u16) -> Result<Poll, Refusal>
    ensures { OnHouse (Polls server) (held_by handle.old) result (held_by handle.new) }
{
    on_house::poll(handle.house_mut()?, server)
}

/// Lets ticks pass, as [`House::advance`] does, and refuses by the same error.
pub fn advance(handle: &mut Handle, ticks: u64) -> Result<(), Refusal>
    ensures { OnHouse (Advances ticks) (held_by handle.old) result (held_by handle.new) }
{
    on_house::advance(handle.house_mut()?, ticks)
}

/// Charges a server the ticks that its last unit took after its first tick, as [`House::charge_server`] does, and
/// refuses by the same errors.
pub fn charge(handle: &mut Handle, server: u16, ticks: u64) -> Result<(), Refusal>
    ensures { OnHouse (ChargesServer server ticks) (held_by handle.old) result
        (held_by handle.new) }
{
    on_house::charge(handle.house_mut()?, server, ticks)
}

/// Ends the job of a server that got the last unit, although it has units left, as [`House::finish`] does, and refuses by
/// the same errors.
pub fn finish(handle: &mut Handle, server: u16) -> Result<(), Refusal>
    ensures { OnHouse (Finishes server) (held_by handle.old) result
        (held_by handle.new) }
{
    on_house::finish(handle.house_mut()?, server)
}

/// Tells the steps of the house from now on to a new tape, in a memory of this many bytes and 31 more, as
/// [`House::record`] does. A tape that the house had is dropped. Refuses by [`HouseError::OutOfMemory`].
pub fn open_tape(handle: &mut Handle, alloc: Global, bytes: u32) -> Result<(), Refusal>
    ensures { OnHouse (OpensTape bytes) (held_by handle.old) result (held_by handle.new) }
{
    on_house::open_tape(handle.house_mut()?, alloc, bytes)
}

/// Hands out what the tape has so far, as [`House::take_tape`] does. Refuses by [`HandleError::NoTape`] if the house has
/// no tape, or the place is shorter than the memory of the tape. After a refusal the place is unchanged.
pub fn take_tape(handle: &mut Handle, out: &mut [u8]) -> Result<usize, Refusal>
    ensures taken { OnHouse (HandsOutTape out.old out.new) (held_by handle.old) result
        (held_by handle.new) }
    ensures unchanged { OnErr result (out.new ≡ out.old) }
{
    on_house::take_tape(handle.house_mut()?, out)
}

/// Returns whether the tape lost a step, so that it has only those before. Refuses by [`HandleError::NoTape`] if the house
/// has no tape.
pub fn tape_lost(handle: &mut Handle) -> Result<bool, Refusal>
    ensures { OnHouse TellsLost (held_by handle.old) result (held_by handle.new) }
{
    on_house::tape_lost(handle.house_mut()?)
}

/// Takes the tape from the house, and drops it with all that was not handed out. Refuses by [`HandleError::NoTape`] if the
/// house has no tape.
pub fn close_tape(handle: &mut Handle) -> Result<(), Refusal>
    ensures { OnHouse ClosesTape (held_by handle.old) result (held_by handle.new) }
{
    on_house::close_tape(handle.house_mut()?)
}

/// Returns what a server was charged, as [`House::charges`] does.
pub fn charges(handle: &mut Handle, server: u16) -> Result<Charges, Refusal>
    ensures { OnHouse (ShowsCharges server) (held_by handle.old) result
        (held_by handle.new) }
{
    on_house::charges(handle.house_mut()?, server)
}

/// Returns the clock, as [`House::now`] does.
pub fn now(handle: &mut Handle) -> Result<u64, Refusal>
    ensures { OnHouse TellsClock (held_by handle.old) result (held_by handle.new) }
{
    on_house::now(handle.house_mut()?)
}

/// Returns for how many ticks no server will be ready, as [`House::idle_span`] does.
pub fn idle_span(handle: &mut Handle) -> Result<Option<u64>, Refusal>
    ensures { OnHouse Spans (held_by handle.old) result (held_by handle.new) }
{
    on_house::idle_span(handle.house_mut()?)
}

/// Returns a server's view, as [`House::view`] does.
pub fn view(handle: &mut Handle, server: u16) -> Result<ServerView, Refusal>
    ensures { OnHouse (Shows server) (held_by handle.old) result (held_by handle.new) }
{
    on_house::view(handle.house_mut()?, server)
}

/// Returns the tick by which all that a server accepted is finished, as [`House::promised`] does. Refuses by
/// [`HouseError::NoSuchServer`] if there is no such server.
pub fn promised(handle: &mut Handle, server: u16) -> Result<Option<u128>, Refusal>
    ensures { OnHouse (Promises server) (held_by handle.old) result (held_by handle.new) }
{
    on_house::promised(handle.house_mut()?, server)
}

/// Returns a pacer of a house, as [`Pacer::begin`] does. Its time begins at this reading of the clock, in nanoseconds.
pub fn pace(
    handle: &mut Handle,
    tick: Tick,
    rounding: Rounding,
    reading: u64,
) -> Result<Pacer, Refusal>
    ensures { OnHouse (BeginsPace tick rounding reading) (held_by handle.old) result
        (held_by handle.new) }
{
    in_time::pace(handle.house_mut()?, tick, rounding, reading)
}

/// Takes a reading of the clock, in nanoseconds, and returns what the host does next, as [`Pacer::next`] does, with the
/// token of the job whose unit it does. After a refusal the pacer is unchanged.
pub fn next(handle: &mut Handle, pacer: &mut Pacer, reading: u64) -> Result<Asked, Refusal>
    ensures next { OnHouse (Asks reading (time_to reading pacer.old.pace) pacer.old
        pacer.new) (held_by handle.old) result (held_by handle.new) }
    ensures kept { OnErr result (pacer.new ≡ pacer.old) }
{
    in_time::next(handle.house_mut()?, pacer, reading)
}

/// Does what [`next`] does, but charges the unit that was being done the time `took`, as [`Pacer::next_measured`] does.
pub fn next_measured(
    handle: &mut Handle,
    pacer: &mut Pacer,
    reading: u64,
    took: u64,
) -> Result<Asked, Refusal>
    ensures next { OnHouse (Asks reading (measured took reading pacer.old.pace)
        pacer.old pacer.new) (held_by handle.old) result (held_by handle.new) }
    ensures kept { OnErr result (pacer.new ≡ pacer.old) }
{
    in_time::next_measured(handle.house_mut()?, pacer, reading, took)
}

/// Ends a unit that was being done, at this reading of the clock, in nanoseconds, as [`Pacer::done`] does. After a
/// refusal the pacer is unchanged.
pub fn done(handle: &mut Handle, pacer: &mut Pacer, reading: u64) -> Result<(), Refusal>
    ensures done { OnHouse (EndsUnit reading (time_to reading pacer.old.pace) pacer.old
        pacer.new) (held_by handle.old) result (held_by handle.new) }
    ensures kept { OnErr result (pacer.new ≡ pacer.old) }
{
    in_time::done(handle.house_mut()?, pacer, reading)
}

/// Does what [`done`] does, but charges the time `took`, as [`Pacer::done_measured`] does.
pub fn done_measured(
    handle: &mut Handle,
    pacer: &mut Pacer,
    reading: u64,
    took: u64,
) -> Result<(), Refusal>
    ensures done { OnHouse (EndsUnit reading (measured took reading pacer.old.pace)
        pacer.old pacer.new) (held_by handle.old) result (held_by handle.new) }
    ensures kept { OnErr result (pacer.new ≡ pacer.old) }
{
    in_time::done_measured(handle.house_mut()?, pacer, reading, took)
}

/// Sends a job, as [`Client::send`] does, and returns its number. Refuses, in this order: by the job's units; by
/// [`HandleError::HouseGone`] if the client's house was freed; and as [`Client::send`] does. After a refusal nothing
/// was sent.
///
/// What a client sent before its house was freed is lost with the house.
pub fn send(handle: &mut Handle, token: u64, units: u32) -> Result<u64, Refusal>
    ensures { OnHeld (InClient (Sends token units)) (held_by handle.old) result
        (held_by handle.new) }
{
    on_client::send(handle.client_mut()?, token, units)
}

/// Sends the end, as [`Client::end`] does. Refuses by [`HandleError::HouseGone`] if the client's house was freed, and
/// then as [`Client::end`] does. After a refusal nothing was sent.
pub fn end(handle: &mut Handle) -> Result<(), Refusal>
    ensures { OnHeld (InClient Ends) (held_by handle.old) result (held_by handle.new) }
{
    on_client::end(handle.client_mut()?)
}

/// Returns how many messages wait in the client's ring, as [`Client::waiting`] does.
pub fn waiting(handle: &mut Handle) -> Result<u64, Refusal>
    ensures { OnHeld (InClient Waits) (held_by handle.old) result (held_by handle.new) }
{
    on_client::waiting(handle.client_mut()?)
}
