//! Whether one executor takes all reservations.

ghost use Rattle.std.specs.Prelude.{◌≡◌};
ghost use Rattle.cbsrun_sized.specs.Admitted.{are_admitted, plan_of, rate_in};

use cbs_rate::{Bound, Plan, Reservation};
use cbsrun_proposals::Proposal;

/// Returns a proposal as a reservation, or `None` if it is none.
fn reservation_of(proposal: Proposal) -> Option<Reservation>
    ensures { result ≡ rate_in proposal }
{
    match Reservation::new(proposal.budget, proposal.period) {
        Ok(reservation) => Some(reservation),
        Err(_) => None,
    }
}

/// Returns the plan with this bound of all these reservations, or `None` if one is none or the plan does not take it.
fn plan_of(bound: Bound, proposals: &[Proposal]) -> Option<Plan>
    ensures { result ≡ plan_of bound proposals.now }
{
    let mut plan = Plan::new(bound);
    for proposal in proposals {
        let Some(reservation) = reservation_of(*proposal) else {
            return None;
        };
        if plan.admit(reservation).is_err() {
            return None;
        }
    }
    Some(plan)
}

/// Returns whether a plan with this bound takes all these reservations, one after another.
pub(crate) fn are_admitted(bound: Bound, proposals: &[Proposal]) -> bool
    ensures { result ≡ are_admitted bound proposals.now }
{
    plan_of(bound, proposals).is_some()
}
