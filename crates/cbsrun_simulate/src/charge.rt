//! Charges that are owed.

ghost use Rattle.std.specs.Prelude.{◌≡◌};
ghost use Rattle.cbsrun_simulate.specs.Moves.{owing_of};

/// A charge of a server that must come before any other move.
#[derive(Clone, Copy)]
pub(crate) struct Charge {
    /// The server that ran the last unit.
    pub server: u16,
    /// The ticks that the unit took beyond its first, 1 or more.
    pub ticks: u64,
}

impl Charge {
    /// Returns the charge of this many ticks, or `None` if there are none.
    pub fn of(server: u16, ticks: u64) -> Option<Charge>
        ensures { result ≡ owing_of server ticks }
    {
        if ticks == 0 {
            return None;
        }
        Some(Charge { server, ticks })
    }
}
