//! The pace of a house.

ghost use Rattle.std.specs.Prelude.{◌≡◌, ◌≤◌, ◌<◌, ◌+◌, ◌*◌, ◌↔◌, ℕ, IsTrue};
ghost use Rattle.cbs_pace.specs.Paces.{pacing_begun, pacing_seen, pacing_with_behind, pacing_with_charge, pacing_with_unit, time_to, unit_charge, carried_at, behind_of, IsDue, IsPacing};
ghost use Rattle.cbs_pace.specs.Times.{most};

use crate::counts::Counts;
use crate::rounding::Rounding;
use crate::tick::Tick;
use crate::watch::Watch;
use std::marker::Model;

/// The pace of a house: which of its ticks have come, by the readings of a clock, and what its
/// servers are charged for their units.
///
/// Times and readings are in nanoseconds.
#[repr(C)]
#[derive(Debug, Drop)]
pub struct Pace {
    tick: Tick,
    // Whether what is less than a tick is carried.
    carries: bool,
    // The tick at which the house's clock stood when its time began.
    first: u64,
    watch: Watch,
    // What each server carries to its next unit in nanoseconds, less than a tick.
    carried: [u64; 64],
    counts: Counts,
}

impl Model for Pace {
    ghost use Rattle.cbs_pace.specs.Paces.{Pacing, IsPacing};

    ghost Value = { Pacing };

    ghost view = { λ p. record {
      tick = p.tick;
      carries = p.carries;
      first = p.first;
      watch = p.watch;
      carried = p.carried;
      counts = p.counts;
    } };

    ghost inverse = { λ v. record {
      tick = v.tick;
      carries = v.carries;
      first = v.first;
      watch = v.watch;
      carried = v.carried;
      counts = v.counts;
    } };

    ghost invariant = { λ p. IsPacing (record {
      tick = p.tick;
      carries = p.carries;
      first = p.first;
      watch = p.watch;
      carried = p.carried;
      counts = p.counts;
    }) };
}

impl Pace {
    /// Returns the pace of a house whose clock stands at tick `now`. Its time begins at this
    /// reading.
    pub fn begin(tick: Tick, rounding: Rounding, now: u64, reading: u64) -> Pace
        ensures { result ≡ pacing_begun tick rounding now reading }
    {
        // Reading the length tells the proof that it is not 0.
        let _nanos = tick.nanos();
        Pace {
            tick,
            carries: rounding.carries(),
            first: now,
            watch: Watch::begin(reading),
            carried: [0; 64],
            counts: Counts {
                units: 0,
                overruns: 0,
                longest: 0,
                charged: 0,
                behind: 0,
                most_behind: 0,
            },
        }
    }

    /// Takes a reading of the clock into account. Returns the nanoseconds since the last reading, 0
    /// if the clock stepped back.
    pub fn see(&mut self, reading: u64) -> u64
        ensures kept { self.new ≡ pacing_seen reading self.old }
        ensures value { result ≡ time_to reading self.old }
        ensures over { self.old.watch.over + result ≡ self.new.watch.over }
        ensures lawful { IsPacing self.old }
    {
        self.watch.see(reading)
    }

    /// Returns whether tick `now` of the house has come, so that a house whose clock stands there
    /// may begin its next unit.
    pub fn is_due(&self, now: u64) -> bool
        ensures { IsTrue result ↔ IsDue self.now now }
    {
        self.tick
            .has_come(now.saturating_sub(self.first), self.watch)
    }

    /// Returns what the clock will show when the house's tick `now` comes, in nanoseconds, or
    /// `u64::MAX` if it cannot show that.
    pub fn due(&self, now: u64) -> u64
        ensures comes { (reading : ℕ) → result < most → result ≤ reading
            → IsDue (pacing_seen reading self.now) now }
        ensures not_before { (reading : ℕ) → reading < result
            → IsDue (pacing_seen reading self.now) now → IsDue self.now now }
        ensures ahead { self.now.watch.seen ≤ result }
    {
        self.tick.due(now.saturating_sub(self.first), self.watch)
    }

    /// Returns by how many whole ticks the house's clock is behind if it stands at tick `now`.
    pub fn behind(&self, now: u64) -> u64
        ensures { result ≡ behind_of self.now now }
    {
        self.tick.behind(now.saturating_sub(self.first), self.watch)
    }

    /// Returns how many ticks `server` is charged for a unit that took `took` nanoseconds, and
    /// keeps what the server carries to its next unit. The unit is counted.
    pub fn charge(&mut self, server: u16, took: u64) -> u64
        requires { server < 64 }
        ensures value { result ≡ unit_charge self.old server took }
        ensures kept { self.new ≡ pacing_with_unit self.old server took }
        ensures within { result * self.old.tick ≤ took }
        ensures paid { took + carried_at self.old server
            ≤ (1 + result) * self.old.tick + carried_at self.new server }
    {
        let index = usize::from(server);
        let mut carried = self.carried[index];
        let ticks = self
            .tick
            .charge(Rounding::of(self.carries), &mut carried, took);
        self.carried[index] = carried;
        self.counts.units = self.counts.units.saturating_add(1);
        self.counts.overruns = self
            .counts
            .overruns
            .saturating_add(u64::from(took > self.tick.nanos()));
        self.counts.longest = self.counts.longest.max(took);
        ticks
    }

    /// Counts so many ticks as charged for a unit.
    pub fn note_charge(&mut self, ticks: u64)
        ensures { self.new ≡ pacing_with_charge ticks self.old }
    {
        self.counts.charged = self.counts.charged.saturating_add(ticks);
    }

    /// Notes by how many whole ticks the house's clock is behind.
    pub fn note_behind(&mut self, behind: u64)
        ensures { self.new ≡ pacing_with_behind behind self.old }
    {
        self.counts.behind = behind;
        self.counts.most_behind = self.counts.most_behind.max(behind);
    }

    /// Returns what was seen so far.
    pub fn counts(&self) -> Counts
        ensures { result ≡ self.now.counts }
    {
        self.counts
    }
}
