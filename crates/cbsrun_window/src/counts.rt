//! Counts of the ticks in a cell that stretches take.

ghost use Rattle.std.specs.Prelude.{◌≡◌, ◌+◌};
ghost use Rattle.cbsrun_window.specs.Counts.{counts_of, counts_with, overlap};

use crate::stretch::{Kind, Stretch};

/// The ticks of a cell that stretches take, counted by what goes on in them. A count of more than 2^64 - 1 is given as
/// 2^64 - 1.
#[derive(Clone, Copy)]
pub struct Counts {
    /// The server runs.
    pub runs: u64,
    /// The server is charged for its last unit.
    pub charged: u64,
    /// The server has a job, and is throttled.
    pub throttled: u64,
    /// The server has a job, and another runs.
    pub waits: u64,
    /// A release is refused.
    pub refused: u64,
    /// A job is late.
    pub late: u64,
    /// Nobody runs.
    pub idle: u64,
}

impl Stretch {
    /// Returns how many ticks of the stretch are at `from` or later and before `to`.
    pub fn overlap(&self, from: u64, to: u64) -> u64
        ensures { result ≡ overlap from to self.now }
    {
        self.to.min(to).saturating_sub(self.from.max(from))
    }
}

impl Counts {
    /// Returns the counts with this many more ticks of a kind.
    fn with(self, kind: Kind, ticks: u64) -> Counts
        ensures { result ≡ counts_with kind ticks self }
    {
        let mut counts = self;
        match kind {
            Kind::Runs(_) => counts.runs = self.runs.saturating_add(ticks),
            Kind::Charged => counts.charged = self.charged.saturating_add(ticks),
            Kind::Throttled => counts.throttled = self.throttled.saturating_add(ticks),
            Kind::Waits => counts.waits = self.waits.saturating_add(ticks),
            Kind::Refused => counts.refused = self.refused.saturating_add(ticks),
            Kind::Late => counts.late = self.late.saturating_add(ticks),
            Kind::Idle => counts.idle = self.idle.saturating_add(ticks),
            Kind::Resting => {}
        }
        counts
    }

    /// Returns the counts of the ticks that stretches take, at `from` or later and before `to`.
    pub fn of(stretches: &[Stretch], from: u64, to: u64) -> Counts
        ensures { result ≡ counts_of from to stretches.now }
    {
        let mut counts = Counts {
            runs: 0,
            charged: 0,
            throttled: 0,
            waits: 0,
            refused: 0,
            late: 0,
            idle: 0,
        };
        for stretch in stretches {
            let ticks = stretch.overlap(from, to);
            if ticks > 0 {
                counts = counts.with(stretch.kind, ticks);
            }
        }
        counts
    }
}
