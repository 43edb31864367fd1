//! The trace of a task file: the lines of its steps.

ghost use Rattle.std.specs.Prelude.{OnOk};
ghost use Rattle.cbsrun_lines.specs.Traces.{trace, LinesStop};
ghost use Rattle.cbsrun_lines.specs.Writers.{MayWrite, Leaves};
ghost use Rattle.cbsrun_runs.specs.Tasks.{KeepsLaws, seen_in_tasks};

use crate::lines::write_lines;
use crate::run_error::RunError;
use cbsrun_io::ByteOutput;
use cbsrun_runs::Replay;
use cbsrun_tasks::TaskFile;
use std::alloc::Global;

/// Runs the steps of a task file on a new core, and writes a line for each step.
///
/// Refuses with [`RunError::OutOfMemory`] if out of memory: then the lines of the first steps are written, up to some
/// step. Refuses with [`RunError::WriteFault`] if a write fails or takes no byte: then a prefix of the whole text is
/// written.
pub fn replay<O: ByteOutput>(alloc: Global, file: TaskFile, out: &mut O) -> Result<(), RunError>
    requires { MayWrite (O.state out.old) }
    ensures written { Leaves (trace file) (LinesStop (seen_in_tasks file)) result
        (O.state out.old) (O.state out.new) }

    // What the replies on these lines mean for each server, over the whole file.
    ensures laws { OnOk result (KeepsLaws file) }
{
    write_lines(alloc, &mut Replay::of(file), out)
}
