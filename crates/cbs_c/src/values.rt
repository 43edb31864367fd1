//! The values that the calls on a house write.

ghost use Rattle.std.specs.Prelude.{◌≡◌, ◌+◌, ◌*◌, ◌%◌, ◌/◌, ◌^◌};
ghost use Rattle.cbs_c.specs.Values.{unit_shown, turn_shown, view_shown, poll_kind};

use cbs_core::{Ran, ServerView};
use cbs_house::Poll;

/// The result of a run: `struct cbs_unit`.
#[repr(C)]
#[derive(Clone, Copy)]
pub struct Unit {
    /// 0 idle, 1 the clock's end, 2 a unit, 3 the last unit of its job.
    pub kind: u32,
    /// The server of the job that got a unit.
    pub server: u16,
    /// The job's number.
    pub seq: u64,
    /// The job's token.
    pub token: u64,
}

/// The result of a turn: `struct cbs_turn`.
#[repr(C)]
#[derive(Clone, Copy)]
pub struct Turn {
    /// The number of messages that the turn took.
    pub took: u64,
    /// The ticks by which the turn advanced the clock.
    pub advanced: u64,
    /// What ran.
    pub ran: Unit,
    /// Whether a message was seen for which memory was refused.
    pub out_of_memory: bool,
    /// Whether every server is closed and every job is finished.
    pub over: bool,
}

/// The view of a server: `struct cbs_view`.
#[repr(C)]
#[derive(Clone, Copy)]
pub struct View {
    /// The ticks that are left of the budget.
    pub budget: u64,
    /// The lower 64 bits of the deadline.
    pub deadline_low: u64,
    /// The upper 64 bits of the deadline.
    pub deadline_high: u64,
    /// The number of accepted jobs.
    pub accepted: u64,
    /// The number of accepted jobs that are finished.
    pub finished: u64,
    /// Whether the server waits for its replenishment.
    pub throttled: bool,
    /// Whether the server is closed.
    pub closed: bool,
}

/// Returns the unit of a run for C.
pub(crate) fn unit_of(unit: cbs_embed::Unit) -> Unit
    ensures { result ≡ unit_shown unit }
{
    let (kind, server, seq) = match unit.ran {
        Ran::Idle => (0, 0, 0),
        Ran::ClockEnd => (1, 0, 0),
        Ran::Unit { server, seq } => (2, server, seq),
        Ran::Done(done) => (3, done.server, done.seq),
    };
    Unit {
        kind,
        server,
        seq,
        token: unit.token,
    }
}

/// Returns a turn for C.
pub(crate) fn turn_of(turn: cbs_embed::Turn) -> Turn
    ensures { result ≡ turn_shown turn }
{
    let cbs_embed::Turn { turn, token, over } = turn;
    Turn {
        took: turn.took,
        advanced: turn.advanced,
        ran: unit_of(cbs_embed::Unit {
            ran: turn.ran,
            token,
        }),
        out_of_memory: turn.out_of_memory,
        over,
    }
}

/// Returns the lower 64 bits of a number.
pub(crate) fn low(number: u128) -> u64
    ensures { result ≡ number % 2 ^ 64 }
{
    (number % (1 << 64)) as u64
}

/// Returns the upper 64 bits of a number.
pub(crate) fn high(number: u128) -> u64
    ensures { result ≡ number / 2 ^ 64 }
{
    (number >> 64) as u64
}

/// Returns the number of these lower and upper 64 bits.
pub(crate) fn wide(low: u64, high: u64) -> u128
    ensures { result ≡ low + high * 2 ^ 64 }
{
    u128::from(low) + (u128::from(high) << 64)
}

/// Returns the view of a server for C.
pub(crate) fn view_of(view: ServerView) -> View
    ensures { result ≡ view_shown view }
{
    View {
        budget: view.budget,
        deadline_low: low(view.deadline),
        deadline_high: high(view.deadline),
        accepted: view.accepted,
        finished: view.finished,
        throttled: view.throttled,
        closed: view.closed,
    }
}

/// Returns the number of a poll's result. A call for a server that the house does not have is refused by its status
/// instead.
pub(crate) fn kind_of(answer: Poll) -> u32
    ensures { result ≡ poll_kind answer }
{
    match answer {
        Poll::Nothing | Poll::NoSuchServer => 0,
        Poll::Took(_) => 1,
        Poll::Closed => 2,
        Poll::Full => 3,
        Poll::OutOfMemory => 4,
    }
}
