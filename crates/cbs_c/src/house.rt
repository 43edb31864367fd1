//! The calls on a house.

ghost use Rattle.cbs_embed.specs.Calls.{OpensTape, HandsOutTape, TellsLost, ClosesTape};
ghost use Rattle.cbs_embed.specs.Calls.{Runs, Turns, Polls, Advances, ChargesServer, Finishes, ShowsCharges, TellsClock, Spans, Shows, Promises, OnHouse};
ghost use Rattle.cbs_embed.specs.Handles.{held_by};
ghost use Rattle.cbs_c.specs.Values.{unit_shown, turn_shown, poll_kind, span_shown, view_shown, promise_low, promise_high};
ghost use Rattle.cbs_c.specs.Statuses.{Answers, Tells};

use crate::status::{status_of, tell};
use crate::values::{Turn, Unit, View, high, kind_of, low, turn_of, unit_of, view_of};
use cbs_embed::{Handle, calls};
use std::alloc::Global;

/// Runs one unit, and writes what ran. Returns the status.
#[unsafe(no_mangle)]
pub extern "C" fn cbs_run(house: &mut Handle, out: &mut Unit) -> u32
    ensures { Tells (OnHouse Runs) unit_shown (held_by house.old) out.old result
        (held_by house.new) out.new }
{
    match calls::run(house) {
        Ok(unit) => {
            *out = unit_of(unit);
            0
        }
        Err(refusal) => refusal.status(),
    }
}

/// Takes a turn, and writes what it did. Returns the status.
#[unsafe(no_mangle)]
pub extern "C" fn cbs_turn(house: &mut Handle, out: &mut Turn) -> u32
    ensures { Tells (OnHouse Turns) turn_shown (held_by house.old) out.old result
        (held_by house.new) out.new }
{
    match calls::turn(house) {
        Ok(turn) => {
            *out = turn_of(turn);
            0
        }
        Err(refusal) => refusal.status(),
    }
}

/// Looks for the next message of a server, takes it, and writes what the poll did. Returns the status. Refuses a number
/// that no server has.
#[unsafe(no_mangle)]
pub extern "C" fn cbs_poll(house: &mut Handle, server: u16, kind: &mut u32) -> u32
    ensures { Tells (OnHouse (Polls server)) poll_kind (held_by house.old) kind.old result
        (held_by house.new) kind.new }
{
    match calls::poll(house, server) {
        Ok(answer) => {
            *kind = kind_of(answer);
            0
        }
        Err(refusal) => refusal.status(),
    }
}

/// Lets ticks pass. Returns the status.
#[unsafe(no_mangle)]
pub extern "C" fn cbs_advance(house: &mut Handle, ticks: u64) -> u32
    ensures { Answers (OnHouse (Advances ticks)) (held_by house.old) result
        (held_by house.new) }
{
    status_of(calls::advance(house, ticks))
}

/// Charges a server the ticks that its last unit took after its first tick. Returns the status.
#[unsafe(no_mangle)]
pub extern "C" fn cbs_charge(house: &mut Handle, server: u16, ticks: u64) -> u32
    ensures { Answers (OnHouse (ChargesServer server ticks)) (held_by house.old) result
        (held_by house.new) }
{
    status_of(calls::charge(house, server, ticks))
}

/// Ends the job of a server that got the last unit, although it has units left. Returns the status.
#[unsafe(no_mangle)]
pub extern "C" fn cbs_finish(house: &mut Handle, server: u16) -> u32
    ensures { Answers (OnHouse (Finishes server)) (held_by house.old) result
        (held_by house.new) }
{
    status_of(calls::finish(house, server))
}

/// Tells the steps of a house from now on to a new tape, in a memory of this many bytes and 31 more. Returns the status.
#[unsafe(no_mangle)]
pub extern "C" fn cbs_tape_open(alloc: Global, house: &mut Handle, bytes: u32) -> u32
    ensures { Answers (OnHouse (OpensTape bytes)) (held_by house.old) result
        (held_by house.new) }
{
    status_of(calls::open_tape(house, alloc, bytes))
}

/// Hands out what the tape has so far, and writes how many bytes it is. Returns the status. Refuses a place that is shorter
/// than the memory of the tape.
#[unsafe(no_mangle)]
pub extern "C" fn cbs_tape_take(house: &mut Handle, out: &mut [u8], length: &mut usize) -> u32
    ensures { Tells (OnHouse (HandsOutTape out.old out.new)) (λ n.
        n) (held_by house.old) length.old result (held_by house.new) length.new }
{
    match calls::take_tape(house, out) {
        Ok(taken) => {
            *length = taken;
            0
        }
        Err(refusal) => refusal.status(),
    }
}

/// Writes whether the tape lost a step. Returns the status.
#[unsafe(no_mangle)]
pub extern "C" fn cbs_tape_lost(house: &mut Handle, lost: &mut bool) -> u32
    ensures { Tells (OnHouse TellsLost) (λ l.
        l) (held_by house.old) lost.old result (held_by house.new) lost.new }
{
    match calls::tape_lost(house) {
        Ok(answer) => {
            *lost = answer;
            0
        }
        Err(refusal) => refusal.status(),
    }
}

/// Takes the tape from a house, and frees it. Returns the status.
#[unsafe(no_mangle)]
pub extern "C" fn cbs_tape_close(house: &mut Handle) -> u32
    ensures { Answers (OnHouse ClosesTape) (held_by house.old) result (held_by house.new) }
{
    status_of(calls::close_tape(house))
}

/// Writes how many ticks a server was charged, in total and at most for one unit. Returns the status. Refuses a number
/// that no server has.
#[unsafe(no_mangle)]
pub extern "C" fn cbs_charges(
    house: &mut Handle,
    server: u16,
    total: &mut u64,
    most: &mut u64,
) -> u32
    ensures total { Tells (OnHouse (ShowsCharges server)) (λ charges.
        charges.total) (held_by house.old) total.old result (held_by house.new) total.new }
    ensures most { Tells (OnHouse (ShowsCharges server)) (λ charges.
        charges.most) (held_by house.old) most.old result (held_by house.new) most.new }
{
    match calls::charges(house, server) {
        Ok(charges) => {
            *total = charges.total;
            *most = charges.most;
            0
        }
        Err(refusal) => refusal.status(),
    }
}

/// Writes the clock. Returns the status.
#[unsafe(no_mangle)]
pub extern "C" fn cbs_now(house: &mut Handle, out: &mut u64) -> u32
    ensures { Tells (OnHouse TellsClock) (λ n.
        n) (held_by house.old) out.old result (held_by house.new) out.new }
{
    tell(out, calls::now(house))
}

/// Writes for how many ticks no server will be ready, or `u64::MAX` if one is ready now. Returns the status.
#[unsafe(no_mangle)]
pub extern "C" fn cbs_idle_span(house: &mut Handle, out: &mut u64) -> u32
    ensures { Tells (OnHouse Spans) span_shown (held_by house.old) out.old result
        (held_by house.new) out.new }
{
    match calls::idle_span(house) {
        Ok(span) => {
            *out = span.unwrap_or(u64::MAX);
            0
        }
        Err(refusal) => refusal.status(),
    }
}

/// Writes the view of a server. Returns the status. Refuses a number that no server has.
#[unsafe(no_mangle)]
pub extern "C" fn cbs_view(house: &mut Handle, server: u16, out: &mut View) -> u32
    ensures { Tells (OnHouse (Shows server)) view_shown (held_by house.old) out.old result
        (held_by house.new) out.new }
{
    match calls::view(house, server) {
        Ok(view) => {
            *out = view_of(view);
            0
        }
        Err(refusal) => refusal.status(),
    }
}

/// Writes the tick by which all that a server accepted is finished, in two halves. Both are `u64::MAX` if all is
/// finished. Returns the status. Refuses a number that no server has.
#[unsafe(no_mangle)]
pub extern "C" fn cbs_promised(
    house: &mut Handle,
    server: u16,
    lower: &mut u64,
    upper: &mut u64,
) -> u32
    ensures lower { Tells (OnHouse (Promises server)) promise_low (held_by house.old)
        lower.old result (held_by house.new) lower.new }
    ensures upper { Tells (OnHouse (Promises server)) promise_high (held_by house.old)
        upper.old result (held_by house.new) upper.new }
{
    match calls::promised(house, server) {
        Ok(tick) => {
            let tick = tick.unwrap_or(u128::MAX);
            *lower = low(tick);
            *upper = high(tick);
            0
        }
        Err(refusal) => refusal.status(),
    }
}
