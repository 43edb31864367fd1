//! The lines of the steps of a load: from its bytes to a status.

ghost use Rattle.cbsrun_commands.specs.Commands.{Does, EndsAs};
ghost use Rattle.cbsrun_commands.specs.Outputs.{lines_command};
ghost use Rattle.cbsrun_lines.specs.Writers.{MayWrite};

use crate::ending::{Stopped, status_of};
use crate::reading::load_file;
use cbsrun_io::ByteOutput;
use cbsrun_lines::write_lines;
use cbsrun_options::Changes;
use std::alloc::Global;

/// Simulates the load that the bytes spell, with these changes, and writes a line for each step.
fn write_steps<O: ByteOutput>(
    alloc: Global,
    memory: u64,
    changes: Changes,
    bytes: &[u8],
    out: &mut O,
) -> Result<(), Stopped>
    requires { MayWrite (O.state out.old) }
    ensures { Does (lines_command changes) bytes.now result (O.state out.old) (O.state out.new) }
{
    let mut load = load_file(alloc, memory, changes, bytes)?;
    write_lines(alloc, &mut load, out)?;
    Ok(())
}

/// Simulates the load that the bytes spell, with these changes, and writes a line for each step. The explanation of a fault names the file
/// `name`. Returns the status.
///
/// At status 0 all lines are on `out`, or a prefix of them if a write found a closed pipe, and nothing on `err`. At
/// status 3 the file has a fault, as in [`report_bytes_within`](crate::report_bytes_within). At status 4 the run ended
/// early, and the line of the run fault goes to `err`. If out of memory, `out` has the lines of the first steps, up to
/// some step. If a write failed, `out` has a prefix of all lines. A line on `err` that cannot be written changes no
/// status.
///
/// A file that has to be read as one document may need `memory` bytes of memory. If it needs more, the status is 3, and the
/// line of out of memory goes to `err`.
pub fn simulate_lines_within<O: ByteOutput, E: ByteOutput>(
    alloc: Global,
    memory: u64,
    changes: Changes,
    name: &str,
    bytes: &[u8],
    out: &mut O,
    err: &mut E,
) -> u8
    requires out { MayWrite (O.state out.old) }
    requires err { MayWrite (E.state err.old) }
    ensures { EndsAs (lines_command changes) name.now bytes.now (O.closed out.new)
        (O.state out.old) (O.state out.new) (E.state err.old) (E.state err.new) result }
{
    let ended = write_steps(alloc, memory, changes, bytes, out);
    status_of(alloc, memory, name, bytes, ended, out.is_closed(), err)
}
