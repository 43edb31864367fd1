//! The steps of a load, shown to a view.

ghost use Rattle.std.specs.Prelude.{[], OnOk, OnErr};
ghost use Rattle.cbsrun_loads.specs.Loads.{with_seed};
ghost use Rattle.cbsrun_runs.specs.Loads.{IsKept, run_of, seen_in};
ghost use Rattle.cbsrun_runs.specs.Runs.{AreInOrder, SawSome};

use cbsrun_events::View;
use cbsrun_loads::Load;
use cbsrun_simulate::{load_of, simulate_plan};
use std::alloc::{AllocError, Global};

/// Simulates a load with this seed up to its end, and shows each step to the view. The view has to be ready.
///
/// Refuses if out of memory, or if the view fails. The view has then seen the first steps, up to some step. It may have
/// failed to see the last of these.
pub fn show_load<C, V: View<C>>(
    alloc: Global,
    load: &Load,
    seed: u64,
    view: &mut V,
    lent: &mut C,
) -> Result<(), AllocError>
    requires { V.ready view.old lent.old }
    ensures seen { OnOk result ((first : (V × C)) → V.saw first (view.old, lent.old) []
        → V.saw first (view.new, lent.new) (seen_in (with_seed seed load.now))) }
    ensures lawful { OnOk result (IsKept (with_seed seed load.now)) }
    ensures in_order { OnOk result (AreInOrder (run_of (with_seed seed load.now))) }
    ensures stopped { OnErr result ((first : (V × C)) → V.saw first (view.old, lent.old) []
        → SawSome V.saw V.failed first (view.new, lent.new) (seen_in (with_seed seed load.now))) }
{
    let mut releases = load_of(alloc, load.sources(), load.listed(), load.until(), seed)?;
    match simulate_plan(
        alloc,
        load.plan(),
        load.modes(),
        load.backlog(),
        &mut releases,
        load.until(),
        view,
        lent,
    ) {
        Ok(_core) => {
            // Reading the plan gives the proof what every plan keeps.
            let _servers = load.plan().len();
            Ok(())
        }
        Err(_) => Err(AllocError),
    }
}
