//! The jobs of a load as CSV: from its bytes to a status.

ghost use Rattle.cbsrun_commands.specs.Commands.{Does, EndsAs};
ghost use Rattle.cbsrun_commands.specs.Outputs.{jobs_command};
ghost use Rattle.cbsrun_lines.specs.Writers.{MayWrite};

use crate::ending::{Stopped, print, status_of};
use crate::reading::load_file;
use cbsrun_io::ByteOutput;
use cbsrun_options::Changes;
use cbsrun_runs::{Progress, csv_of};
use std::alloc::Global;

/// Simulates the load that the bytes spell, with these changes, and prints its jobs.
fn write_jobs<P: Progress, O: ByteOutput>(
    alloc: Global,
    memory: u64,
    changes: Changes,
    bytes: &[u8],
    progress: &mut P,
    out: &mut O,
) -> Result<(), Stopped>
    requires { MayWrite (O.state out.old) }
    ensures { Does (jobs_command changes) bytes.now result (O.state out.old) (O.state out.new) }
{
    let mut load = load_file(alloc, memory, changes, bytes)?;
    let text = csv_of(alloc, &mut load, progress)?;
    print(&text, out)?;
    Ok(())
}

/// Simulates the load that the bytes spell, with these changes, and prints its jobs as CSV: a line for each. Reports to
/// `progress` now and then how far the simulation is. The explanation of a fault names the file `name`. Returns the
/// status.
///
/// The statuses are those of [`report_bytes_within`](crate::report_bytes_within).
pub fn simulate_jobs_within<P: Progress, O: ByteOutput, E: ByteOutput>(
    alloc: Global,
    memory: u64,
    changes: Changes,
    name: &str,
    bytes: &[u8],
    progress: &mut P,
    out: &mut O,
    err: &mut E,
) -> u8
    requires out { MayWrite (O.state out.old) }
    requires err { MayWrite (E.state err.old) }
    ensures { EndsAs (jobs_command changes) name.now bytes.now (O.closed out.new)
        (O.state out.old) (O.state out.new) (E.state err.old) (E.state err.new) result }
{
    let ended = write_jobs(alloc, memory, changes, bytes, progress, out);
    status_of(alloc, memory, name, bytes, ended, out.is_closed(), err)
}
