//! The lines of a run, written while its steps are made.

ghost use Rattle.std.specs.Prelude.{◌≡◌, false, [], List, IfOk, IsOk, OnOk};
ghost use Rattle.std.specs.Bool.{OnTrue};
ghost use Rattle.cbsrun_events.specs.declared.seen.Seen.{Seen};
ghost use Rattle.cbsrun_lines.specs.Traces.{LeavesLines};
ghost use Rattle.cbsrun_lines.specs.Writers.{Writer, MayWrite};
ghost use Rattle.cbsrun_lines.specs.Lines.{WroteShown};

use crate::line::write_line;
use crate::run_error::RunError;
use cbsrun_events::{Seen, View};
use cbsrun_io::{ByteOutput, Pending};
use cbsrun_runs::Run;
use std::alloc::{AllocError, Global};

/// A view that writes the line of each step to the writer that it is lent.
#[derive(Drop)]
pub(crate) struct Lines {
    line: String,
    pending: Pending,
    write_failed: bool,
}

impl Lines {
    /// Returns a view that has written nothing yet. The only error is out of memory.
    pub fn new(alloc: Global) -> Result<Lines, AllocError>
        ensures { IfOk result (λ lines. (lines.write_failed ≡ false) × (lines.pending ≡ [])) }
    {
        Ok(Lines {
            line: String::new(alloc),
            pending: Pending::new(alloc)?,
            write_failed: false,
        })
    }

    /// Writes the text that still waits, after steps were shown with this result. Returns how the run ended.
    pub fn end<O: ByteOutput>(
        &mut self,
        shown: Result<u64, AllocError>,
        out: &mut O,
    ) -> Result<(), RunError>
        requires { self.old.write_failed ≡ false → MayWrite (O.state out.old) }
        ensures shown { OnOk result (IsOk shown) }
        ensures written { (first : Writer) (steps : List Seen)
            → WroteShown shown self.old first (O.state out.old) steps
            → LeavesLines steps result first (O.state out.new) }
    {
        if self.write_failed {
            return Err(RunError::WriteFault);
        }
        self.pending.flush(out)?;
        match shown {
            Ok(_end) => Ok(()),
            Err(_) => Err(RunError::OutOfMemory),
        }
    }
}

impl<O: ByteOutput> View<O> for Lines {
    ghost use Rattle.cbsrun_lines.specs.Writers.{MayWrite};
    ghost use Rattle.cbsrun_lines.specs.Lines.{HasWritten, FailedToWrite};

    ghost ready = { λ lines out. MayWrite (O.state out) };

    ghost saw = { λ first now seen. HasWritten now.0 (O.state first.1) (O.state now.1) seen };

    ghost failed = { λ first now seen. FailedToWrite now.0 (O.state first.1) (O.state now.1) seen };

    fn see(&mut self, lent: &mut O, seen: Seen) -> Result<(), AllocError> {
        write_line(&mut self.line, seen)?;
        let Ok(()) = self.pending.push(self.line.as_str(), lent) else {
            self.write_failed = true;
            return Err(AllocError);
        };
        Ok(())
    }
}

/// Makes the steps of a run, and writes a line for each step. A load is unchanged.
///
/// Refuses with [`RunError::OutOfMemory`] if out of memory: then the lines of the first steps are written, up to some
/// step. Refuses with [`RunError::WriteFault`] if a write fails or takes no byte: then a prefix of the whole text is
/// written.
pub fn write_lines<R: Run, O: ByteOutput>(
    alloc: Global,
    run: &mut R,
    out: &mut O,
) -> Result<(), RunError>
    requires { MayWrite (O.state out.old) }
    ensures written { LeavesLines (R.run run.old).seen result (O.state out.old) (O.state out.new) }
    ensures lawful { OnOk result (R.lawful run.old) }
    ensures leaves { OnTrue R.repeats (run.new ≡ run.old) }
{
    let mut lines = Lines::new(alloc)?;
    let shown = run.show(alloc, &mut lines, out);
    lines.end(shown, out)
}
