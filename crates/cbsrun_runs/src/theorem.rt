//! The theorem on records of simulations.

ghost use Rattle.cbsrun_loads.specs.Loads.{IsLoad, LoadFile};
ghost use Rattle.cbsrun_records.specs.Records.{RecordFile};
ghost use Rattle.cbsrun_runs.specs.Records.{ShowsAgain};

/// States what a record shows that has the servers of a load and each step of its simulation. The function does nothing.
/// Its contract is the theorem, for every load and every such record.
///
/// The record shows the schedule of the simulation, step by step: clock, choice, budgets, deadlines, job numbers, refusals
/// and promised ticks. Only what a record does not have of a job is not shown: its result is 0, it comes when its submit
/// is made, and nothing says within how many ticks it is wanted.
pub fn all_shown_again()
    ensures { (f : LoadFile) (r : RecordFile) → IsLoad f → ShowsAgain f r }
{}
