//! The theorem about all lists of steps.

ghost use Rattle.std.specs.Prelude.{◌≡◌, List, length};
ghost use Rattle.cbs_guarantee.specs.Guarantees.{IsGuaranteed};
ghost use Rattle.cbs_steps.specs.Setups.{history_of};

use cbs_job::Work;
use cbs_rate::Plan;
use cbs_rules::Modes;
use cbs_steps::{Step, all_punctual};

/// States what is guaranteed for every list of steps, if the servers were admitted to a plan and each has a mode. The
/// function does nothing. Its contract is the theorem, for every executor that makes the steps.
///
/// The guarantee is for a server whose jobs are those of streams that ask for no more than all its time. Each such job
/// is accepted, if the backlog suffices. It is finished within the sum of all spans and the delay by the other servers,
/// counted from when it came. The one premise on the others is that no advance takes anybody's time.
pub fn all_guaranteed<W: Work>(plan: &Plan, modes: &Modes, backlog: u64)
    requires { length modes.now ≡ length plan.now.rates }
    ensures { (steps : List (Step W)) → IsGuaranteed W.meaning (history_of modes.now plan.now.rates
        backlog steps) }
{
    all_punctual::<W>(plan, modes, backlog);
}
