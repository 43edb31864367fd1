//! The theorem on the lines of records.

ghost use Rattle.std.specs.Prelude.{◌≡◌};
ghost use Rattle.cbsrun_loads.specs.Loads.{IsLoad, LoadFile};
ghost use Rattle.cbsrun_records.specs.Records.{RecordFile};
ghost use Rattle.cbsrun_runs.specs.Loads.{seen_in};
ghost use Rattle.cbsrun_runs.specs.Records.{seen_in_record, IsRecordOf};
ghost use Rattle.cbsrun_lines.specs.Lines.{lines_of};
ghost use Rattle.cbsrun_lines.specs.Records.{lines_without_results};

/// States which lines a record has that has the servers of a load and each step of its simulation. The function does
/// nothing. Its contract is the theorem, for every load and every such record: the lines are those of the simulation, with
/// 0 for the results of jobs.
pub fn all_lines_again()
    ensures { (f : LoadFile) (r : RecordFile) → IsLoad f → IsRecordOf f r
        → lines_of (seen_in_record r) ≡ lines_without_results (seen_in f) }
{}
