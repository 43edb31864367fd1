//! The theorem that only the number of units of a job counts.

ghost use Rattle.std.specs.Prelude.{List};
ghost use Rattle.cbs_steps.specs.History.{History};
ghost use Rattle.cbs_units.specs.Laws.{KeepsWorld, KeepsFaces, KeepsChoice, KeepsReplies};

use cbs_job::Work;
use cbs_steps::Step;

/// States that of a job only its number of units counts. The function does nothing. Its contract is the theorem, for
/// every list of steps. Let each job that is handed over be replaced by a `CountJob` of as many units.
///
/// `world`: the same steps then lead to the same clock, and to the same servers: their budgets, deadlines, overruns and
/// charges, the units that each got, who is closed, and which jobs were accepted, each as its units.
///
/// `faces`: so what is seen of each server is the same, also how many of its jobs are finished.
///
/// `choice`: the next Run is for the same server, or for none.
///
/// `replies`: any steps that follow get the same replies: the same job numbers, refusals, units and ends of jobs. Only the
/// result of a job is 0, and a job that is handed back is its units.
pub fn all_by_units<W: Work>()
    ensures world { (M : History W) → KeepsWorld W.meaning M }
    ensures faces { (M : History W) → KeepsFaces W.meaning M }
    ensures choice { (M : History W) → KeepsChoice W.meaning M }
    ensures replies { (M : History W) (xs : List (Step W)) → KeepsReplies W.meaning M xs }
{}
