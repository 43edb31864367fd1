//! Stretches of ticks in which one thing goes on.

ghost use Rattle.std.specs.Prelude.{◌≡◌};
ghost use Rattle.cbsrun_window.specs.Stretches.{clipped, joins, same_kind};

use crate::window::Window;

/// What goes on in a stretch of ticks.
#[derive(Clone, Copy, Debug, PartialEq, Eq)]
pub enum Kind {
    /// The server runs units of its job with this number.
    Runs(u64),
    /// The server is charged for its last unit.
    Charged,
    /// The server has a job and is not throttled, but does not run.
    Waits,
    /// The server has a job, and is throttled.
    Throttled,
    /// The server has no job, and is throttled.
    Resting,
    /// In each of the ticks a release of the server is refused.
    Refused,
    /// A job of the server is late.
    Late,
    /// Nobody runs.
    Idle,
}

/// The ticks from `from` up to `to`, without `to`, and what goes on in them.
#[derive(Clone, Copy, Debug, PartialEq, Eq)]
pub struct Stretch {
    /// What goes on.
    pub kind: Kind,
    /// The first tick.
    pub from: u64,
    /// The tick after the last one.
    pub to: u64,
}

impl Kind {
    /// Returns whether both kinds are the same.
    pub fn is_same(self, other: Kind) -> bool
        ensures { result ≡ same_kind self other }
    {
        match (self, other) {
            (Kind::Runs(job), Kind::Runs(other)) => job == other,
            (Kind::Charged, Kind::Charged)
            | (Kind::Waits, Kind::Waits)
            | (Kind::Throttled, Kind::Throttled)
            | (Kind::Resting, Kind::Resting)
            | (Kind::Refused, Kind::Refused)
            | (Kind::Late, Kind::Late)
            | (Kind::Idle, Kind::Idle) => true,
            _ => false,
        }
    }
}

impl Stretch {
    /// Returns the part of the stretch that is within a window.
    pub(crate) fn clipped(self, window: Window) -> Stretch
        ensures { result ≡ clipped window self }
    {
        Stretch {
            kind: self.kind,
            from: self.from.max(window.from),
            to: self.to.min(window.to),
        }
    }

    /// Returns whether another stretch of the same kind begins within this one or at its end.
    pub(crate) fn joins(self, other: Stretch) -> bool
        ensures { result ≡ joins self other }
    {
        self.kind.is_same(other.kind) && self.from <= other.from && other.from <= self.to
    }
}
