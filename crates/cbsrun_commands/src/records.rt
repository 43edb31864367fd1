//! Records: from their bytes to a status.

ghost use Rattle.std.specs.Prelude.{map, string_bytes};
ghost use Rattle.cbsrun_commands.specs.Commands.{Does, EndsAs};
ghost use Rattle.cbsrun_commands.specs.Drawings.{Draws, EndsDrawing};
ghost use Rattle.cbsrun_commands.specs.Records.{record_drawer, record_lines, record_report};
ghost use Rattle.cbsrun_lines.specs.Writers.{MayWrite};

use crate::drawn::{Drawn, status_of_drawing};
use crate::ending::{Stopped, status_of};
use crate::pictures::print_drawing;
use crate::reading::record_file;
use crate::report::print_run;
use cbsrun_io::ByteOutput;
use cbsrun_lines::write_lines;
use cbsrun_options::{Form, RunDrawing};
use cbsrun_runs::{NoProgress, end_of};
use std::alloc::Global;

/// Makes the steps of the record that the bytes spell, and writes a line for each.
fn write_steps<O: ByteOutput>(
    alloc: Global,
    memory: u64,
    bytes: &[u8],
    out: &mut O,
) -> Result<(), Stopped>
    requires { MayWrite (O.state out.old) }
    ensures { Does record_lines bytes.now result (O.state out.old) (O.state out.new) }
{
    let mut record = record_file(alloc, memory, bytes)?;
    write_lines(alloc, &mut record, out)?;
    Ok(())
}

/// Makes the steps of the record that the bytes spell, and writes a line for each. The explanation of a fault names the
/// file `name`. Returns the status.
///
/// At status 0 all lines are on `out`, or a prefix of them if a write found a closed pipe, and nothing on `err`. At
/// status 3 the file has a fault, as in [`report_record_within`]. At status 4 the run ended early, and the line of the run
/// fault goes to `err`. If out of memory, `out` has the lines of the first steps, up to some step. If a write failed,
/// `out` has a prefix of all lines. A line on `err` that cannot be written changes no status.
///
/// A file that has to be read as one document may need `memory` bytes of memory. If it needs more, the status is 3, and the
/// line of out of memory goes to `err`.
pub fn replay_record_within<O: ByteOutput, E: ByteOutput>(
    alloc: Global,
    memory: u64,
    name: &str,
    bytes: &[u8],
    out: &mut O,
    err: &mut E,
) -> u8
    requires out { MayWrite (O.state out.old) }
    requires err { MayWrite (E.state err.old) }
    ensures { EndsAs record_lines name.now bytes.now (O.closed out.new)
        (O.state out.old) (O.state out.new) (E.state err.old) (E.state err.new) result }
{
    let ended = write_steps(alloc, memory, bytes, out);
    status_of(alloc, memory, name, bytes, ended, out.is_closed(), err)
}

/// Makes the steps of the record that the bytes spell, and prints the report of its run in this form.
fn report_record<O: ByteOutput>(
    alloc: Global,
    memory: u64,
    form: Form,
    name: &str,
    bytes: &[u8],
    out: &mut O,
) -> Result<(), Stopped>
    requires { MayWrite (O.state out.old) }
    ensures { Does (record_report form name.now) bytes.now result
        (O.state out.old) (O.state out.new) }
{
    let mut record = record_file(alloc, memory, bytes)?;
    print_run(alloc, form, name, &mut record, out)?;
    Ok(())
}

/// Makes the steps of the record that the bytes spell, and prints the report of its run in this form. The report names
/// the file `name`. Returns the status.
///
/// The statuses are those of [`report_bytes_within`](crate::report_bytes_within).
pub fn report_record_within<O: ByteOutput, E: ByteOutput>(
    alloc: Global,
    memory: u64,
    form: Form,
    name: &str,
    bytes: &[u8],
    out: &mut O,
    err: &mut E,
) -> u8
    requires out { MayWrite (O.state out.old) }
    requires err { MayWrite (E.state err.old) }
    ensures { EndsAs (record_report form name.now) name.now bytes.now (O.closed out.new)
        (O.state out.old) (O.state out.new) (E.state err.old) (E.state err.new) result }
{
    let ended = report_record(alloc, memory, form, name, bytes, out);
    status_of(alloc, memory, name, bytes, ended, out.is_closed(), err)
}

/// Draws what is asked for of the record that the bytes spell. Its steps are made twice: the first time only for the tick
/// at which they end.
fn draw_record<O: ByteOutput>(
    alloc: Global,
    memory: u64,
    asked: RunDrawing,
    servers: &[String],
    name: &str,
    bytes: &[u8],
    out: &mut O,
) -> Result<Drawn, Stopped>
    requires { MayWrite (O.state out.old) }
    ensures { Draws (record_drawer asked (map string_bytes servers.now) name.now) bytes.now
        result (O.state out.old) (O.state out.new) }
{
    let mut record = record_file(alloc, memory, bytes)?;
    let end = end_of(alloc, &mut record)?;
    print_drawing(
        alloc,
        asked,
        end,
        servers,
        name,
        &mut record,
        &mut NoProgress,
        out,
    )
}

/// Makes the steps of the record that the bytes spell. Draws the ticks that are asked for, as far as the run has them,
/// and the servers with these names, or all of them if there is no name. The drawing names the file `name`. Returns the
/// status.
///
/// The statuses are those of [`draw_load_within`](crate::draw_load_within). The run of a record ends at the tick to which
/// its steps bring the clock.
pub fn draw_record_within<O: ByteOutput, E: ByteOutput>(
    alloc: Global,
    memory: u64,
    asked: RunDrawing,
    servers: &[String],
    name: &str,
    bytes: &[u8],
    out: &mut O,
    err: &mut E,
) -> u8
    requires out { MayWrite (O.state out.old) }
    requires err { MayWrite (E.state err.old) }
    ensures { EndsDrawing (record_drawer asked (map string_bytes servers.now) name.now)
        bytes.now (O.closed out.new)
        (O.state out.old) (O.state out.new) (E.state err.old) (E.state err.new) result }
{
    let ended = draw_record(alloc, memory, asked, servers, name, bytes, out);
    status_of_drawing(alloc, memory, name, bytes, ended, out.is_closed(), err)
}
