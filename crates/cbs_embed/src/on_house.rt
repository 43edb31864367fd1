//! What the calls on a handle do to its house.

ghost use Rattle.cbs_clients.specs.Houses.{NamesJob};
ghost use Rattle.std.specs.Prelude.{◌≡◌, IfOk};
ghost use Rattle.cbs_embed.specs.Calls.{OpensTape, HandsOutTape, TellsLost, ClosesTape, empty_tape};
ghost use Rattle.cbs_embed.specs.Calls.{Drops, Runs, Turns, Polls, Advances, ChargesServer, Finishes, ShowsCharges, TellsClock, Spans, Shows, Promises, NamesToken};
ghost use Rattle.cbs_embed.specs.Jobs.{counting};

use crate::job::UnitJob;
use crate::refusal::{HandleError, Refusal};
use crate::told::{Turn, Unit};
use cbs_core::{Charges, Ran, ServerView};
use cbs_house::{House, HouseError, Poll};
use cbs_tape::Tape;
use std::alloc::{AllocError, Global};

/// Returns the token of the job in the result of a run, or 0 if no job got a unit.
pub(crate) fn token_of(house: &House<UnitJob>, ran: Ran) -> u64
    requires { NamesJob counting ran house.now }
    ensures { NamesToken ran result house.now }
{
    match ran {
        Ran::Idle | Ran::ClockEnd => 0,
        Ran::Unit { server, .. } => house.front_output(server).unwrap_or(0),
        Ran::Done(done) => done.result,
    }
}

/// Drops the result of a finished job. The host gets the job's token, so no result is kept.
pub(crate) fn forget(house: &mut House<UnitJob>, ran: Ran)
    ensures { Drops ran house.old house.new }
{
    if let Ran::Done(done) = ran {
        house.discard_results(done.server);
    }
}

/// Runs one unit.
pub(crate) fn run(house: &mut House<UnitJob>) -> Result<Unit, Refusal>
    ensures { Runs house.old result house.new }
{
    let ran = house.run();
    let token = token_of(house, ran);
    forget(house, ran);
    Ok(Unit { ran, token })
}

/// Takes a turn.
pub(crate) fn turn(house: &mut House<UnitJob>) -> Result<Turn, Refusal>
    ensures { Turns house.old result house.new }
{
    let turn = house.turn();
    let token = token_of(house, turn.ran);
    forget(house, turn.ran);
    let over = house.is_over();
    Ok(Turn { turn, token, over })
}

/// Looks for the next message of a server.
pub(crate) fn poll(house: &mut House<UnitJob>, server: u16) -> Result<Poll, Refusal>
    ensures { Polls server house.old result house.new }
{
    match house.poll(server) {
        Poll::NoSuchServer => Err(Refusal::House(HouseError::NoSuchServer)),
        answer => Ok(answer),
    }
}

/// Lets ticks pass.
pub(crate) fn advance(house: &mut House<UnitJob>, ticks: u64) -> Result<(), Refusal>
    ensures { Advances ticks house.old result house.new }
{
    house.advance(ticks).map_err(|error| Refusal::House(error))
}

/// Charges a server the ticks that its last unit took after its first tick.
pub(crate) fn charge(house: &mut House<UnitJob>, server: u16, ticks: u64) -> Result<(), Refusal>
    ensures { ChargesServer server ticks house.old result house.new }
{
    house
        .charge_server(server, ticks)
        .map_err(|error| Refusal::House(error))
}

/// Ends the job of a server that got the last unit, although it has units left. No result is kept: the host has the job's
/// token from that unit.
pub(crate) fn finish(house: &mut House<UnitJob>, server: u16) -> Result<(), Refusal>
    ensures { Finishes server house.old result house.new }
{
    match house.finish(server) {
        Ok(_done) => {
            house.discard_results(server);
            Ok(())
        }
        Err(error) => Err(Refusal::House(error)),
    }
}

/// Tells the steps of a house from now on to a new tape, in a memory of this many bytes and 31 more. A tape that the
/// house had is dropped.
pub(crate) fn open_tape(
    house: &mut House<UnitJob>,
    alloc: Global,
    bytes: u32,
) -> Result<(), Refusal>
    ensures { OpensTape bytes house.old result house.new }
{
    match new_tape(alloc, bytes) {
        Ok(tape) => {
            drop(house.record(Some(tape)));
            Ok(())
        }
        Err(_) => Err(Refusal::House(HouseError::OutOfMemory)),
    }
}

/// Returns a tape in a box, in a memory of this many bytes and 31 more. The only error is out of memory.
fn new_tape(alloc: Global, bytes: u32) -> Result<Box<Tape>, AllocError>
    ensures { IfOk result (λ tape. tape.value ≡ empty_tape bytes) }
{
    Ok(Box::new(alloc, Tape::new(alloc, bytes)?)?)
}

/// Hands out what the tape of a house has so far.
pub(crate) fn take_tape(house: &mut House<UnitJob>, out: &mut [u8]) -> Result<usize, Refusal>
    ensures { HandsOutTape out.old out.new house.old result house.new }
{
    match house.take_tape(out) {
        Some(taken) => Ok(taken),
        None => Err(Refusal::Handle(HandleError::NoTape)),
    }
}

/// Returns whether the tape of a house lost a step.
pub(crate) fn tape_lost(house: &mut House<UnitJob>) -> Result<bool, Refusal>
    ensures { TellsLost house.old result house.new }
{
    match house.tape_is_whole() {
        Some(whole) => Ok(!whole),
        None => Err(Refusal::Handle(HandleError::NoTape)),
    }
}

/// Takes the tape from a house, and drops it.
pub(crate) fn close_tape(house: &mut House<UnitJob>) -> Result<(), Refusal>
    ensures { ClosesTape house.old result house.new }
{
    match house.record(None) {
        Some(_tape) => Ok(()),
        None => Err(Refusal::Handle(HandleError::NoTape)),
    }
}

/// Returns what a server was charged.
pub(crate) fn charges(house: &mut House<UnitJob>, server: u16) -> Result<Charges, Refusal>
    ensures { ShowsCharges server house.old result house.new }
{
    house.charges(server).map_err(|error| Refusal::House(error))
}

/// Returns the clock.
pub(crate) fn now(house: &mut House<UnitJob>) -> Result<u64, Refusal>
    ensures { TellsClock house.old result house.new }
{
    Ok(house.now())
}

/// Returns for how many ticks no server will be ready.
pub(crate) fn idle_span(house: &mut House<UnitJob>) -> Result<Option<u64>, Refusal>
    ensures { Spans house.old result house.new }
{
    Ok(house.idle_span())
}

/// Returns a server's view.
pub(crate) fn view(house: &mut House<UnitJob>, server: u16) -> Result<ServerView, Refusal>
    ensures { Shows server house.old result house.new }
{
    house.view(server).map_err(|error| Refusal::House(error))
}

/// Returns the tick by which all that a server accepted is finished.
pub(crate) fn promised(house: &mut House<UnitJob>, server: u16) -> Result<Option<u128>, Refusal>
    ensures { Promises server house.old result house.new }
{
    if server >= house.servers() {
        return Err(Refusal::House(HouseError::NoSuchServer));
    }
    Ok(house.promised(server))
}
