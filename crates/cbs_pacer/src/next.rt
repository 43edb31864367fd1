//! What a host does next.

ghost use Rattle.std.specs.Prelude.{◌≡◌};
ghost use Rattle.cbs_pacer.specs.Paced.{ran_next};

use cbs_core::Ran;

/// What the host of a house does next. Then the host reads its clock, and asks again.
#[derive(Clone, Copy, Debug, PartialEq, Eq)]
pub enum Next {
    /// It does the unit of which this tells: the tick of the unit has come. The unit lasts until
    /// the next reading.
    Do(Ran),
    /// Somebody is ready, but the tick of its unit has not come. The host sleeps until the clock
    /// shows this, in nanoseconds. `u64::MAX` is for no end.
    SleepUntil(u64),
    /// Nobody is ready. From now on the host listens for its bell, and asks again at once, lest a
    /// message came before.
    Listen,
    /// Nobody is ready, the host listens, and the last polls took no message. The host sleeps until
    /// the bell rings, but no longer than until the clock shows this, in nanoseconds. `u64::MAX` is
    /// for no end.
    WaitUntil(u64),
    /// Every server is closed, and every job is finished. There is nothing more to do.
    Over,
    /// The clock of the house is at its end: no unit can run any more.
    ClockEnd,
    /// A poll found no memory for a message, which stays in its ring. Nothing was run.
    OutOfMemory,
}

impl Next {
    /// Returns the result of the run whose unit the host does, or [`Ran::Idle`] if it does none.
    pub fn ran(self) -> Ran
        ensures { result ≡ ran_next self }
    {
        match self {
            Next::Do(ran) => ran,
            Next::SleepUntil(_)
            | Next::Listen
            | Next::WaitUntil(_)
            | Next::Over
            | Next::ClockEnd
            | Next::OutOfMemory => Ran::Idle,
        }
    }
}
