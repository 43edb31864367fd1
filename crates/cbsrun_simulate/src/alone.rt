//! Simulations from the start, on a core of their own.

ghost use Rattle.std.specs.Prelude.{◌≡◌, ◌≤◌, length, IfOk, OnErr};
ghost use Rattle.cbs_rate.specs.Refusals.{RefusesByOrMemory};
ghost use Rattle.cbs_steps.specs.Setups.{new_refusal};
ghost use Rattle.cbsrun_simulate.specs.Driving.{alone, SimulatesLoad};
ghost use Rattle.cbsrun_simulate.specs.Loading.{loading, job_of};
ghost use Rattle.cbsrun_simulate.specs.Simulating.{SeesSome};

use crate::driver::simulate;
use crate::load_job::LoadJob;
use crate::releases::Releases;
use cbs_core::Core;
use cbs_rate::Plan;
use cbs_rules::{LIMIT, Modes};
use cbs_steps::CoreError;
use cbsrun_events::View;
use std::alloc::Allocator;

/// Simulates a load up to the tick `until`, as [`simulate`] does, on a new core. Returns the core.
///
/// There must be a mode for each server of the plan, `until` must be at most [`LIMIT`], and the view has to be
/// ready.
///
/// Refuses a backlog outside 1 to [`MAX_BACKLOG`](cbs_core::MAX_BACKLOG) with [`CoreError::BadBacklog`]. Refuses with
/// [`CoreError::OutOfMemory`] if out of memory, or if the view fails. The view has then seen the first moves, up
/// to some move.
// Not inlined, so that the loop over all moves is a function of its own, with the registers for itself.
#[inline(never)]
pub fn simulate_plan<A: Allocator + Clone, R: Releases, C, V: View<C>>(
    alloc: A,
    plan: &Plan,
    modes: &Modes,
    backlog: u64,
    releases: &mut R,
    until: u64,
    view: &mut V,
    lent: &mut C,
) -> Result<Core<LoadJob, A>, CoreError>
    requires modes { length modes.now ≡ length plan.now.rates }
    requires end { until ≤ LIMIT }
    requires ready { V.ready view.old lent.old }
    ensures simulates { IfOk result (λ core. SimulatesLoad until V.saw
        (alone plan.now modes.now backlog (R.coming releases.old)) core (view.old, lent.old)
        (view.new, lent.new)) }
    ensures stopped { OnErr result (SeesSome loading job_of until V.saw V.failed
        (alone plan.now modes.now backlog (R.coming releases.old)) (view.old, lent.old)
        (view.new, lent.new)) }
    ensures refusal { RefusesByOrMemory CoreError.OutOfMemory result (new_refusal backlog) }
{
    let mut core = Core::of(alloc, plan, modes, backlog)?;
    match simulate(&mut core, releases, until, view, lent) {
        Ok(()) => Ok(core),
        Err(_) => Err(CoreError::OutOfMemory),
    }
}
