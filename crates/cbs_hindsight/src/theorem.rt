//! The theorem on jobs that end early.

ghost use Rattle.cbs_steps.specs.History.{History};
ghost use Rattle.cbs_hindsight.specs.Hindsight.{HasCut, KeepsEffective, KeepsHindsight};

use cbs_job::Work;

/// States what a job that ends early leaves, right after a unit of it that was not its last. The function does nothing.
/// Its contract is the theorem, for every list of steps.
///
/// `hindsight`: suppose that the job had had only the units that it got, from its submit on. Then the same steps lead to
/// the same clock, budgets, deadlines and charges of all servers, after all steps and after the first ones, however many.
/// Each reply is the same, except that the last unit finishes the job. No server is owed more in hindsight, so no promised
/// tick is later. So to end the job early needs no step of its own, and every law of lists of steps holds of it.
///
/// `effective`: a submit that was refused and a Run that ran no unit may be left out. They do nothing, but the law is not
/// said of histories with such a step between the last unit and the end: in hindsight there may have been room.
///
/// `some`: for each kind of work there is a way to make each job shorter.
pub fn all_end_early<W: Work>()
    ensures hindsight { (N : History W) → KeepsHindsight W.meaning N }
    ensures effective { (N : History W) → KeepsEffective W.meaning N }
    ensures some { HasCut W.meaning }
{}
