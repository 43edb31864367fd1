//! Meters: how many ticks a unit took after its first tick.

ghost use Rattle.std.specs.Prelude.{ℕ, ◌≡◌, ◌<◌, MatchOption};
ghost use Rattle.std.specs.Duration.{as_nanos};
ghost use Rattle.cbs_host.specs.Meters.{NothingBeyond, IsMeasuredFrom, nanos_of, ticks_between};

use cbs_pace::Tick;
use std::time::{Clock, Duration};

/// A meter. It is asked after each unit for how long the unit ran, on the house's thread. The server that got the unit
/// is charged the ticks that the meter returns, as by `House::charge`.
pub trait Meter {
    /// The rule that it may return `n` ticks after the first for a unit of server `s`. If a meter does not say
    /// otherwise, it may return any number.
    ghost may_tell: { ℕ → ℕ → Type 0 } = { λ s n. Unit {0} };

    /// What a begin does to the meter. If a meter does not say otherwise, nothing is known about it.
    ghost begins: { Self → Self → Type 0 } = { λ _ _. Unit {0} };

    /// What an answer of `n` ticks for a unit of server `s` does to the meter. If a meter does not say otherwise,
    /// nothing is known about it.
    ghost tells: { Self → ℕ → ℕ → Self → Type 0 } = { λ _ _ _ _. Unit {0} };

    /// Begins a measurement: a unit is about to run, or no unit if no server is ready.
    fn begin(&mut self)
        ensures { begins self.old self.new };

    /// Returns how many ticks the unit that `server` just got took after its first tick. It is called once after each
    /// unit.
    ///
    /// Round up: a unit that took part of a tick took all of it.
    fn beyond(&mut self, server: u16) -> u64
        ensures may { may_tell server result }
        ensures tells { tells self.old server result self.new };
}

/// The meter that never charges: each unit counts as one tick, however long it takes.
#[derive(Clone, Copy, Debug)]
pub struct NoMeter;

impl Meter for NoMeter {
    ghost may_tell = { NothingBeyond };

    ghost begins = { λ old new. new ≡ old };

    ghost tells = { λ old s n new. new ≡ old };

    #[inline(always)]
    fn begin(&mut self) {}

    #[inline(always)]
    fn beyond(&mut self, _server: u16) -> u64 {
        0
    }
}

/// The meter that measures each unit by a runtime's clock, [`Clock::monotonic`], in ticks of one length.
///
/// A unit of at most one tick is charged nothing. A longer unit is charged each further tick that it began, as a pacer
/// that rounds up charges it ([`Tick::beyond`]). If the clock cannot be read, or goes back, nothing is charged.
pub struct ClockMeter<'a, R: Clock> {
    rt: &'a R,
    // In nanoseconds.
    tick: u64,
    // The time when the unit began, if the clock could be read.
    begun: Option<Duration>,
    ghost long: { 0 < tick },
}

// Dropped by hand, so that the drop has no requirement on the runtime.
impl<'a, R: Clock> Drop for ClockMeter<'a, R> {
    fn drop(self) {
        let ClockMeter {
            rt: _,
            tick: _,
            begun: _,
        } = self;
    }
}

impl<'a, R: Clock> ClockMeter<'a, R> {
    /// Returns a meter with ticks of this length, or `None` if the length is zero. A tick of more than `u64::MAX`
    /// nanoseconds, 584 years, counts as one of so many.
    pub fn new(rt: &'a R, tick: Duration) -> Option<ClockMeter<'a, R>>
        ensures { MatchOption result (as_nanos tick ≡ 0)
            (λ meter. (0 < as_nanos tick) × (meter.tick ≡ nanos_of tick)) }
    {
        let tick = nanos(tick);
        if tick == 0 {
            return None;
        }
        Some(ClockMeter {
            rt,
            tick,
            begun: None,
        })
    }
}

impl<'a, R: Clock> Meter for ClockMeter<'a, R> {
    ghost begins = { λ old new. new.tick ≡ old.tick };

    ghost tells = { λ old s n new. IsMeasuredFrom old.begun old.tick n × (new ≡ old) };

    fn begin(&mut self) {
        self.begun = self.rt.monotonic().ok();
    }

    fn beyond(&mut self, _server: u16) -> u64 {
        let now = self.rt.monotonic().ok();
        beyond_between(self.begun, now, self.tick)
    }
}

/// Returns so much time in nanoseconds, at most `u64::MAX`.
fn nanos(time: Duration) -> u64
    ensures { result ≡ nanos_of time }
{
    time.as_nanos().min(u128::from(u64::MAX)) as u64
}

/// Returns how many ticks a unit took after its first tick, by the readings of a clock before and after it, rounded up.
/// It is 0 if a reading is missing, or if the clock went back.
fn beyond_between(begun: Option<Duration>, ended: Option<Duration>, tick: u64) -> u64
    requires { 0 < tick }
    ensures { result ≡ ticks_between begun ended tick }
{
    let (Some(begun), Some(ended)) = (begun, ended) else {
        return 0;
    };
    Tick::at_least_one(tick).beyond(nanos(ended.saturating_sub(begun)))
}
