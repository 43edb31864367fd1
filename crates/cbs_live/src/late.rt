//! By how much a unit is late.

ghost use Rattle.std.specs.Prelude.{◌≡◌, ◌+◌, ◌-◌, min};
ghost use Rattle.cbs_live.specs.Late.{OfEachStart};
ghost use Rattle.cbs_live.specs.Spreads.{most};

/// What a house shows of a server right after it told one of the server's units, before anything
/// else.
#[derive(Clone, Copy, Debug, PartialEq, Eq)]
pub struct Told {
    /// The budget of the server's reservation, in ticks.
    pub whole: u64,
    /// Its period, in ticks.
    pub period: u64,
    /// The ticks that are left of the server's budget.
    pub budget: u64,
    /// The server's deadline, in ticks.
    pub deadline: u128,
}

impl Told {
    /// Returns the deadline by which the unit was chosen. A server whose budget is whole was given
    /// it after the unit, and its deadline was postponed by one period then.
    pub fn chosen_by(self) -> u128
        ensures { OfEachStart self (λ before. result ≡ before.deadline) }
    {
        if self.budget == self.whole {
            self.deadline.saturating_sub(u128::from(self.period))
        } else {
            self.deadline
        }
    }

    /// Returns by how many ticks the unit ended after the deadline by which it was chosen, and 0 if
    /// it did not. The house's clock stood at `clock` after it told the unit, and the unit was
    /// charged so many ticks.
    pub fn lateness(self, clock: u64, charged: u64) -> u64
        ensures { OfEachStart self (λ before.
            result ≡ min (clock + charged - before.deadline) most) }
    {
        let end = u128::from(clock) + u128::from(charged);
        let late = end.saturating_sub(self.chosen_by());
        late.min(u128::from(u64::MAX)) as u64
    }
}
