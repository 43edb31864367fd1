//! The theorem about all lists of steps.

ghost use Rattle.std.specs.Prelude.{◌≡◌, List, length};
ghost use Rattle.cbs_steps.specs.Punctual.{IsPunctual};
ghost use Rattle.cbs_steps.specs.Setups.{history_of};

use crate::step::Step;
use cbs_job::Work;
use cbs_rate::Plan;
use cbs_rules::Modes;

/// States that every list of steps is punctual if the servers were admitted to a plan and each has a mode. The function
/// does nothing. Its contract is the theorem, for every executor that makes the steps.
///
/// In a punctual list no server is ever late, and no server takes more than its share. Each job is finished by its due
/// tick, and by the tick that can be given when the job is accepted. The laws on time have a premise: no advance takes
/// time from any server. Some of them also require that no charge takes time; the others count the charges.
pub fn all_punctual<W: Work>(plan: &Plan, modes: &Modes, backlog: u64)
    requires { length modes.now ≡ length plan.now.rates }
    ensures { (steps : List (Step W)) → IsPunctual W.meaning
        (history_of modes.now plan.now.rates backlog steps) }
{
    // Reading the plan gives the proof what every plan keeps.
    let _ = plan.len();
}
