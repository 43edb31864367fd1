//! The calls on a house in real time. The host reads its clock, and the library none.

ghost use Rattle.std.specs.Prelude.{◌≡◌, max};
ghost use Rattle.cbs_pace.specs.Paces.{time_to, measured};
ghost use Rattle.cbs_pace.specs.Units.{rounding_of};
ghost use Rattle.cbs_embed.specs.Calls.{OnHouse};
ghost use Rattle.cbs_embed.specs.Handles.{held_by};
ghost use Rattle.cbs_embed.specs.Paces.{Asks, BeginsPace, EndsUnit};
ghost use Rattle.cbs_c.specs.Paces.{next_shown};
ghost use Rattle.cbs_c.specs.Statuses.{Answers, Tells};

use crate::status::status_of;
use crate::values::{Unit, unit_of};
use cbs_embed::{Asked, Handle, calls};
use cbs_pacer::{Counts, Pacer, Rounding, Tick};

/// What the host of a house does next: `struct cbs_next`.
#[repr(C)]
#[derive(Clone, Copy)]
pub struct Next {
    /// 0 a unit, 1 sleep, 2 listen, 3 wait, 4 over, 5 the clock's end, 6 no memory.
    pub kind: u32,
    /// How many messages were taken, at most one of each server.
    pub taken: u32,
    /// Until when the host sleeps or waits, in nanoseconds of its clock, or 0.
    pub until: u64,
    /// The unit.
    pub unit: Unit,
}

/// Returns what the host does next for C.
fn next_of(asked: Asked) -> Next
    ensures { result ≡ next_shown asked }
{
    let (kind, until) = match asked.next {
        cbs_pacer::Next::Do(_) => (0, 0),
        cbs_pacer::Next::SleepUntil(until) => (1, until),
        cbs_pacer::Next::Listen => (2, 0),
        cbs_pacer::Next::WaitUntil(until) => (3, until),
        cbs_pacer::Next::Over => (4, 0),
        cbs_pacer::Next::ClockEnd => (5, 0),
        cbs_pacer::Next::OutOfMemory => (6, 0),
    };
    Next {
        kind,
        taken: asked.taken,
        until,
        unit: unit_of(cbs_embed::Unit {
            ran: asked.next.ran(),
            token: asked.token,
        }),
    }
}

/// Begins the time of a house, at this reading of the host's clock, in nanoseconds, and writes its pacer. A tick is
/// `tick` nanoseconds, and at least one. Returns the status.
#[unsafe(no_mangle)]
pub extern "C" fn cbs_pace(
    house: &mut Handle,
    tick: u64,
    carry: bool,
    time: u64,
    pacer: &mut Pacer,
) -> u32
    ensures { Tells (OnHouse (BeginsPace (max tick 1) (rounding_of carry) time)) (λ p.
        p) (held_by house.old) pacer.old result (held_by house.new) pacer.new }
{
    match calls::pace(house, Tick::at_least_one(tick), Rounding::of(carry), time) {
        Ok(begun) => {
            *pacer = begun;
            0
        }
        Err(refusal) => refusal.status(),
    }
}

/// Takes a reading of the host's clock, in nanoseconds, and writes what the host does next. Returns the status.
#[unsafe(no_mangle)]
pub extern "C" fn cbs_next(house: &mut Handle, pacer: &mut Pacer, time: u64, out: &mut Next) -> u32
    ensures { Tells (OnHouse (Asks time (time_to time pacer.old.pace) pacer.old pacer.new))
        next_shown (held_by house.old) out.old result (held_by house.new) out.new }
{
    match calls::next(house, pacer, time) {
        Ok(asked) => {
            *out = next_of(asked);
            0
        }
        Err(refusal) => refusal.status(),
    }
}

/// Does what [`cbs_next`] does, but charges the unit that was being done the time `took`, in nanoseconds, and no more
/// than the time since the last reading. Returns the status.
#[unsafe(no_mangle)]
pub extern "C" fn cbs_next_measured(
    house: &mut Handle,
    pacer: &mut Pacer,
    time: u64,
    took: u64,
    out: &mut Next,
) -> u32
    ensures { Tells (OnHouse (Asks time (measured took time pacer.old.pace) pacer.old
        pacer.new)) next_shown (held_by house.old) out.old result (held_by house.new) out.new }
{
    match calls::next_measured(house, pacer, time, took) {
        Ok(asked) => {
            *out = next_of(asked);
            0
        }
        Err(refusal) => refusal.status(),
    }
}

/// Ends a unit that was being done, at this reading of the host's clock, in nanoseconds, and charges its server the time
/// since the last one. Returns the status.
#[unsafe(no_mangle)]
pub extern "C" fn cbs_done(house: &mut Handle, pacer: &mut Pacer, time: u64) -> u32
    ensures { Answers (OnHouse (EndsUnit time (time_to time pacer.old.pace) pacer.old
        pacer.new)) (held_by house.old) result (held_by house.new) }
{
    status_of(calls::done(house, pacer, time))
}

/// Does what [`cbs_done`] does, but charges the time `took`, as [`cbs_next_measured`] does. Returns the status.
#[unsafe(no_mangle)]
pub extern "C" fn cbs_done_measured(
    house: &mut Handle,
    pacer: &mut Pacer,
    time: u64,
    took: u64,
) -> u32
    ensures { Answers (OnHouse (EndsUnit time (measured took time pacer.old.pace)
        pacer.old pacer.new)) (held_by house.old) result (held_by house.new) }
{
    status_of(calls::done_measured(house, pacer, time, took))
}

/// Writes what was seen so far.
#[unsafe(no_mangle)]
pub extern "C" fn cbs_counts(pacer: &Pacer, counts: &mut Counts)
    ensures { counts.new ≡ pacer.now.pace.counts }
{
    *counts = pacer.counts();
}

/// Returns the number of bytes of a pacer.
#[unsafe(no_mangle)]
pub extern "C" fn cbs_pacer_size() -> usize {
    std::mem::size_of::<Pacer>()
}
