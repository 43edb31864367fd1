//! How much time is over, by the readings of a clock.

ghost use Rattle.std.specs.Prelude.{◌≡◌, ◌+◌, ◌-◌};
ghost use Rattle.cbs_pace.specs.Times.{begun_at, seen_at, shown_at};

/// How much time is over since it was begun, by the readings of a clock. A step back of the clock
/// counts as no time.
#[repr(C)]
#[derive(Clone, Copy, Debug, PartialEq, Eq)]
pub struct Watch {
    /// What the clock showed last, in nanoseconds.
    pub seen: u64,
    /// How many nanoseconds were over then, at most `u64::MAX`.
    pub over: u64,
}

impl Watch {
    /// Returns a watch that begins at this reading.
    pub fn begin(reading: u64) -> Watch
        ensures { result ≡ begun_at reading }
    {
        Watch {
            seen: reading,
            over: 0,
        }
    }

    /// Takes a reading of the clock into account. Returns the nanoseconds since the last reading, 0
    /// if the clock stepped back.
    pub fn see(&mut self, reading: u64) -> u64
        ensures kept { self.new ≡ seen_at reading self.old }
        ensures value { self.old.over + result ≡ self.new.over }
    {
        let before = self.over;
        self.over = before.saturating_add(reading.saturating_sub(self.seen));
        self.seen = reading;
        self.over - before
    }

    /// Returns what the clock will show when so many nanoseconds are over, or `u64::MAX` if it
    /// cannot show that.
    pub fn shown_at(&self, time: u64) -> u64
        ensures { result ≡ shown_at self.now time }
    {
        self.seen.saturating_add(time.saturating_sub(self.over))
    }
}
