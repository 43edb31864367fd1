//! How much of a unit's time is charged at once.

ghost use Rattle.std.specs.Prelude.{◌≡◌};
ghost use Rattle.cbs_pace.specs.Units.{rounding_of, carries_of};

/// How many ticks a unit is charged that took longer than one. Of what a server's units took beyond
/// a tick, nothing is lost.
#[derive(Clone, Copy, Debug, PartialEq, Eq)]
pub enum Rounding {
    /// The time beyond its first tick, rounded up: a unit of 1.01 ticks is charged one.
    Up,
    /// The whole ticks of the time beyond its first tick and of what was carried from the server's
    /// earlier units. What is less than a tick is carried to the server's next unit.
    Carry,
}

impl Rounding {
    /// Returns [`Rounding::Carry`] if what is less than a tick is carried, else [`Rounding::Up`].
    pub fn of(carries: bool) -> Rounding
        ensures { result ≡ rounding_of carries }
    {
        if carries {
            Rounding::Carry
        } else {
            Rounding::Up
        }
    }

    /// Returns whether what is less than a tick is carried.
    pub fn carries(self) -> bool
        ensures { result ≡ carries_of self }
    {
        match self {
            Rounding::Up => false,
            Rounding::Carry => true,
        }
    }
}
