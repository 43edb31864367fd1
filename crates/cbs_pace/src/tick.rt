//! The length of a tick, and the numbers that follow from it.

ghost use Rattle.std.specs.Prelude.{◌≡◌, ◌≤◌, ◌<◌, ◌+◌, ◌-◌, ◌*◌, ◌/◌, ◌↔◌, ◌^◌, ℕ, max, IsTrue, MatchOption};
ghost use Rattle.cbs_pace.specs.Times.{HasCome, ticks_behind, shown_at, seen_at, most};
ghost use Rattle.cbs_pace.specs.Units.{charge_of, carried_of};
ghost use Rattle.cbs_pace.specs.declared.watch.Watch.{Watch};

use crate::rounding::Rounding;
use crate::watch::Watch;
use std::marker::Model;

/// The length of a tick, at least a nanosecond.
///
/// It is kept less one, so that each value is a length: all bytes 0 are a tick of a nanosecond.
#[repr(C)]
#[derive(Clone, Copy, Debug, PartialEq, Eq)]
pub struct Tick {
    less_one: u64,
}

impl Model for Tick {
    ghost use Rattle.std.specs.Prelude.{ℕ, ◌+◌, ◌-◌, ◌^◌, ◌<◌};

    ghost Value = { ℕ };

    ghost view = { λ t. t.less_one + 1 };

    ghost invariant = { λ t. t.less_one + 1 < 2 ^ 64 };

    ghost inverse = { λ v. record { less_one = v - 1 } };
}

impl Tick {
    /// Returns a tick of so many nanoseconds, or `None` if they are 0.
    pub fn new(nanos: u64) -> Option<Tick>
        ensures { MatchOption result (nanos ≡ 0) (λ tick. (tick ≡ nanos) × (0 < nanos)) }
    {
        if nanos == 0 {
            return None;
        }
        Some(Tick {
            less_one: nanos - 1,
        })
    }

    /// Returns a tick of so many nanoseconds, or of one if they are 0.
    pub fn at_least_one(nanos: u64) -> Tick
        ensures { result ≡ max nanos 1 }
    {
        Tick {
            less_one: nanos.max(1) - 1,
        }
    }

    /// Returns its length in nanoseconds.
    pub fn nanos(self) -> u64
        ensures value { result ≡ self }
        ensures long { 0 < self }
    {
        self.less_one + 1
    }

    /// Returns whether tick `n` has come: `n` ticks are over.
    pub fn has_come(self, n: u64, watch: Watch) -> bool
        ensures { IsTrue result ↔ HasCome self n watch }
    {
        n <= watch.over / self.nanos()
    }

    /// Returns by how many whole ticks a clock that stands at tick `n` is behind, 0 if it is not.
    pub fn behind(self, n: u64, watch: Watch) -> u64
        ensures { result ≡ ticks_behind self n watch }
    {
        (watch.over / self.nanos()).saturating_sub(n)
    }

    /// Returns what the clock will show when tick `n` comes, in nanoseconds, or `u64::MAX` if it
    /// cannot show that.
    pub fn due(self, n: u64, watch: Watch) -> u64
        ensures comes { (reading : ℕ) → result < most → result ≤ reading
            → HasCome self n (seen_at reading watch) }
        ensures not_before { (reading : ℕ) → reading < result
            → HasCome self n (seen_at reading watch) → HasCome self n watch }
        ensures ahead { watch.seen ≤ result }
    {
        match n.checked_mul(self.nanos()) {
            Some(time) => watch.shown_at(time),
            None => u64::MAX,
        }
    }

    /// Returns how many ticks of `took` nanoseconds lie after the first. A tick that was begun counts
    /// whole.
    pub fn beyond(self, took: u64) -> u64
        ensures value { result ≡ charge_of Rounding.Up self 0 took }
        ensures within { result * self ≤ took }
    {
        took.saturating_sub(1) / self.nanos()
    }

    /// Returns how many ticks a unit is charged that took `took` nanoseconds, if its server carries
    /// `carried`. Then `carried` is what the server carries to its next unit.
    pub fn charge(self, rounding: Rounding, carried: &mut u64, took: u64) -> u64
        requires { carried.old < self }
        ensures value { result ≡ charge_of rounding self carried.old took }
        ensures carried { carried.new ≡ carried_of rounding self carried.old took }
        ensures less { carried.new < self }
        ensures paid { took + carried.old ≤ (1 + result) * self + carried.new }
        ensures within { result * self ≤ took }
    {
        match rounding {
            Rounding::Up => self.beyond(took),
            Rounding::Carry => {
                let beyond = *carried + took.saturating_sub(self.nanos());
                *carried = beyond % self.nanos();
                beyond / self.nanos()
            }
        }
    }
}
