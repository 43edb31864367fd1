//! A caller of cbs_rate.

ghost use Rattle.std.specs.Prelude.{◌≡◌, [], ◌∷◌, IfSome};

use cbs_rate::{Bound, Plan, Reservation};

/// Returns a plan whose only server may run for `budget` ticks in every `period`, on its own processor. Returns `None`
/// if one of the calls refuses.
pub fn plan_of_one(budget: u64, period: u64) -> Option<Plan>
    ensures { IfSome result (λ plan. plan.rates ≡ record {
      budget = budget;
      period = period;
    } ∷ []) }
{
    let bound = Bound::new(1, 1).ok()?;
    let reservation = Reservation::new(budget, period).ok()?;
    let mut plan = Plan::new(bound);
    plan.admit(reservation).ok()?;
    Some(plan)
}
