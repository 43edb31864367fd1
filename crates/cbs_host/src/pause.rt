//! How the two sides of a round let other threads run.

ghost use Rattle.std.specs.Prelude.{◌≡◌, ◌≤◌, ◌*◌};
ghost use Rattle.std.specs.Duration.{as_nanos};
ghost use Rattle.cbs_host.specs.Pauses.{slept};

use std::marker::Model;
use std::thread::{sleep, yield_now};
use std::time::{Clock, Duration};

/// The number of turns in a row that moved no message and end with a yield. It is bounded, since on a busy machine each
/// yield may last as long as another program's share.
const YIELDS: u64 = 64;

/// The number of idle turns, after those that yield, from one sleep to the next. The other turns go on at once, since a
/// yield after each would take more of the processor than all the sleeps.
const TURNS_A_SLEEP: u64 = 128;

/// By how much each sleep in a row is longer than the sleep before it, in microseconds.
const GROWTH: u64 = 20;

/// The longest sleep of a side that has done nothing in its round, in microseconds.
const LONGEST: u64 = 2_000;

/// The longest sleep of a side that has done something in its round, in microseconds. It is short, since a full ring,
/// or a full backlog of a throttled server, may wait for the end of the round.
const LONGEST_AFTER_WORK: u64 = 20;

/// The way a side rests after a turn.
#[derive(Clone, Copy)]
pub enum Rest {
    /// No rest.
    GoOn,
    /// A yield: another thread may have the processor.
    Yield,
    /// A sleep of this many microseconds.
    Sleep(u64),
}

impl Rest {
    /// Returns how long it sleeps.
    fn length(self) -> Duration
        ensures { as_nanos result ≡ slept self * 1_000 }
    {
        match self {
            Rest::GoOn | Rest::Yield => Duration::ZERO,
            Rest::Sleep(micros) => Duration::from_micros(micros),
        }
    }

    /// Rests in this way.
    fn take<R: Clock>(self, rt: &R) {
        match self {
            Rest::GoOn => {}
            Rest::Yield => yield_now(),
            Rest::Sleep(_) => sleep(rt, self.length()),
        }
    }
}

/// The pauses of one side of a round, after its turns that moved no message.
#[derive(Drop)]
pub struct Pause {
    // The number of turns in a row that moved no message.
    still: u64,
    // The longest sleep, in microseconds.
    longest: u64,
    ghost short: { longest ≤ 2000 },
}

impl Model for Pause {
    ghost use Rattle.cbs_host.specs.Pauses.{Stillness};

    ghost Value = { Stillness };

    ghost view = { λ p. record { still = p.still; longest = p.longest } };
}

impl Pause {
    ghost use Rattle.std.specs.Prelude.{◌≡◌, ◌≤◌};
    ghost use Rattle.cbs_host.specs.Pauses.{one_more, rest_after, slept};

    /// Returns the pauses of a side that has taken no turn.
    pub fn new() -> Pause
        ensures still { result.still ≡ 0 }
        ensures longest { result.longest ≡ 2_000 }
    {
        Pause {
            still: 0,
            longest: LONGEST,
        }
    }

    /// Records that a turn moved a message.
    pub fn moved(&mut self)
        ensures still { self.new.still ≡ 0 }
        ensures longest { self.new.longest ≡ 20 }
    {
        self.still = 0;
        self.longest = LONGEST_AFTER_WORK;
    }

    /// Records that a turn moved no message, but did something, and yields: the side may be ahead of the other.
    pub fn ran(&mut self)
        ensures still { self.new.still ≡ one_more self.old.still }
        ensures longest { self.new.longest ≡ 20 }
    {
        self.still = self.still.saturating_add(1);
        self.longest = LONGEST_AFTER_WORK;
        if self.still <= YIELDS {
            yield_now();
        }
    }

    /// Returns how the side rests after a turn that did nothing. No sleep is longer than 2 milliseconds.
    pub fn next(&mut self) -> Rest
        ensures still { self.new.still ≡ one_more self.old.still }
        ensures longest { self.new.longest ≡ self.old.longest }
        ensures rests { result ≡ rest_after self.new.still self.new.longest }
        ensures short { slept result ≤ 2_000 }
    {
        self.still = self.still.saturating_add(1);
        let after_yields = self.still.saturating_sub(YIELDS);
        if after_yields == 0 {
            return Rest::Yield;
        }
        if after_yields % TURNS_A_SLEEP > 0 {
            return Rest::GoOn;
        }
        let grown = (after_yields / TURNS_A_SLEEP).saturating_mul(GROWTH);
        Rest::Sleep(grown.min(self.longest))
    }

    /// Rests after a turn that did nothing, as [`next`](Pause::next) returns.
    pub fn idle<R: Clock>(&mut self, rt: &R)
        ensures still { self.new.still ≡ one_more self.old.still }
        ensures longest { self.new.longest ≡ self.old.longest }
    {
        self.next().take(rt);
    }
}
