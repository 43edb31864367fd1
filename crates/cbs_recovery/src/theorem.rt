//! The theorem on how a delay is made up.

ghost use Rattle.std.specs.Prelude.{◌≡◌, List, length};
ghost use Rattle.cbs_steps.specs.Setups.{setup_of, history_of};
ghost use Rattle.cbs_recovery.specs.Recovery.{KeepsRecovery, KeepsOneRecovery};

use cbs_job::Work;
use cbs_rate::Plan;
use cbs_rules::Modes;
use cbs_steps::Step;

/// States how late a ready server can be after charges, if each advance is quiet. The servers were admitted to a plan,
/// and each has a mode. The function does nothing. Its contract is the theorem, for every executor that makes the
/// steps.
///
/// `made_up`: there is a tick t such that the server's deadline d has passed by less than some charges since t, less
/// what is free of the ticks from t to d. They are those of servers which are due later than d once they are charged.
/// Free is what no server has reserved. So a delay is made up at the rate of what is free.
///
/// `of_one`: if one charge of n ticks was made, and no other, t is the tick at which these began. So a server whose
/// deadline comes late enough after t is not late: if n ticks are free until then.
pub fn all_recover<W: Work>(plan: &Plan, modes: &Modes, backlog: u64)
    requires { length modes.now ≡ length plan.now.rates }
    ensures made_up { (steps : List (Step W)) → KeepsRecovery W.meaning plan.now.rates
        (history_of modes.now plan.now.rates backlog steps) }
    ensures of_one { KeepsOneRecovery W.meaning plan.now.rates
        (setup_of modes.now plan.now.rates backlog) }
{
    // Reading the plan gives the proof what every plan keeps.
    let _ = plan.len();
}
