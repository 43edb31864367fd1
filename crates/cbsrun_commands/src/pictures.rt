//! Pictures of loads and task files: from their bytes to a status.

ghost use Rattle.std.specs.Prelude.{◌≤◌, IfOk, length, map, string_bytes};
ghost use Rattle.cbsrun_options.specs.Fits.{Fits};
ghost use Rattle.cbsrun_commands.specs.Drawings.{Draws, EndsDrawing, IsDrawingOfThose, PrintsDrawing, load_drawer, task_drawer};
ghost use Rattle.cbsrun_commands.specs.FaultLines.{Prints};
ghost use Rattle.cbsrun_commands.specs.Outputs.{IsDrawn};
ghost use Rattle.cbsrun_lines.specs.Writers.{MayWrite};

use crate::drawn::{Drawn, cut_of, status_of_drawing};
use crate::ending::{Stopped, print};
use crate::reading::{load_file, task_file};
use crate::servers::no_server;
use cbsrun_chart::{Picture, Window};
use cbsrun_io::ByteOutput;
use cbsrun_lines::RunError;
use cbsrun_options::{Changes, Drawing, RunDrawing};
use cbsrun_perfetto::trace_json;
use cbsrun_runs::{NoProgress, Progress, Replay, Run, clock_of, picture_of, shown_of};
use cbsrun_svg::svg_text;
use cbsrun_timeline::timeline_text;
use std::alloc::{AllocError, Global};

/// Returns the text of a picture of at most 64 servers, in this drawing.
fn drawn_text(alloc: Global, drawing: Drawing, picture: &Picture) -> Result<String, AllocError>
    requires few { length picture.now.servers.items ≤ 64 }
    requires fits { Fits drawing picture.now.window }
    ensures { IfOk result (λ text. IsDrawn drawing picture.now (string_bytes text)) }
{
    match drawing {
        Drawing::Svg => svg_text(alloc, picture),
        Drawing::Text => timeline_text(alloc, picture),
        Drawing::Trace => trace_json(alloc, picture),
    }
}

/// Makes the steps of a run, and prints the picture of a window of it, in this drawing. The picture names the file `name`,
/// and draws the servers with these names, or all of them if there is no name.
fn print_picture<R: Run, P: Progress, O: ByteOutput>(
    alloc: Global,
    drawing: Drawing,
    window: Window,
    servers: &[String],
    name: &str,
    run: &mut R,
    progress: &mut P,
    out: &mut O,
) -> Result<(), RunError>
    requires may { MayWrite (O.state out.old) }
    requires fits { Fits drawing window }
    ensures { Prints (IsDrawingOfThose drawing (map string_bytes servers.now) name.now
        (R.run run.old) window) result
        (O.state out.old) (O.state out.new) }
{
    let picture = picture_of(alloc, name, run, window, progress)?.chosen(servers);
    let text = drawn_text(alloc, drawing, &picture)?;
    print(&text, out)
}

/// Makes the steps of a run, which ends at the tick `end`, and prints the drawing of it that is asked for. The drawing names
/// the file `name`, and has the servers with these names, or all of them if there is no name.
pub(crate) fn print_drawing<R: Run, P: Progress, O: ByteOutput>(
    alloc: Global,
    asked: RunDrawing,
    end: u64,
    servers: &[String],
    name: &str,
    run: &mut R,
    progress: &mut P,
    out: &mut O,
) -> Result<Drawn, Stopped>
    requires { MayWrite (O.state out.old) }
    ensures { PrintsDrawing asked (map string_bytes servers.now) name.now (R.run run.old) end result
        (O.state out.old) (O.state out.new) }
{
    let missing = no_server(alloc, run, servers)?;
    match missing {
        Some(told) => return Ok(Drawn::NoServer(told)),
        None => {}
    }
    let window = shown_of(asked.ticks, end)?;
    print_picture(
        alloc,
        asked.drawing,
        window,
        servers,
        name,
        run,
        progress,
        out,
    )?;
    Ok(Drawn::Printed(cut_of(asked, end)))
}

/// Draws what is asked for of the load that the bytes spell, with these changes.
fn draw_load<P: Progress, O: ByteOutput>(
    alloc: Global,
    memory: u64,
    asked: RunDrawing,
    servers: &[String],
    changes: Changes,
    name: &str,
    bytes: &[u8],
    progress: &mut P,
    out: &mut O,
) -> Result<Drawn, Stopped>
    requires { MayWrite (O.state out.old) }
    ensures { Draws (load_drawer changes asked (map string_bytes servers.now) name.now) bytes.now
        result (O.state out.old) (O.state out.new) }
{
    let mut load = load_file(alloc, memory, changes, bytes)?;
    let end = load.until();
    print_drawing(alloc, asked, end, servers, name, &mut load, progress, out)
}

/// Draws what is asked for of the task file that the bytes spell. The file is read twice, and its steps are made twice: the
/// first time only for the tick at which they end.
fn draw_tasks<O: ByteOutput>(
    alloc: Global,
    memory: u64,
    asked: RunDrawing,
    servers: &[String],
    name: &str,
    bytes: &[u8],
    out: &mut O,
) -> Result<Drawn, Stopped>
    requires { MayWrite (O.state out.old) }
    ensures { Draws (task_drawer asked (map string_bytes servers.now) name.now) bytes.now
        result (O.state out.old) (O.state out.new) }
{
    let first = task_file(alloc, memory, bytes)?;
    let end = clock_of(alloc, first)?;
    let tasks = task_file(alloc, memory, bytes)?;
    let mut replay = Replay::of(tasks);
    print_drawing(
        alloc,
        asked,
        end,
        servers,
        name,
        &mut replay,
        &mut NoProgress,
        out,
    )
}

/// Simulates the load that the bytes spell, with these changes. Draws the ticks that are asked for, as far as the run has
/// them, and the servers with these names, or all of them if there is no name. The drawing names the file `name`. Reports
/// to `progress` now and then how far the simulation is. Returns the status.
///
/// At status 0 the whole drawing is on `out`, or a prefix of it if a write found a closed pipe. If the drawing leaves out
/// ticks since it can show no more of them, a line on `err` says which, and else nothing is on `err`. At status 2 the load
/// ends at or before the first tick that is asked for, or it has no server of some name. A line on `err` names that tick
/// and the end, or that name, and nothing is on `out`. At status 3 the file has a fault: the line of the fault goes to `err`, with an explanation
/// below it, and nothing to `out`. At status 4 the run ended early: the line of the run fault goes to `err`, and `out`
/// has a prefix of the drawing. That prefix is empty unless a write failed. A line that cannot be written changes no
/// status.
///
/// A file that has to be read as one document may need `memory` bytes of memory. If it needs more, the status is 3, and the
/// line of out of memory goes to `err`.
pub fn draw_load_within<P: Progress, O: ByteOutput, E: ByteOutput>(
    alloc: Global,
    memory: u64,
    asked: RunDrawing,
    servers: &[String],
    changes: Changes,
    name: &str,
    bytes: &[u8],
    progress: &mut P,
    out: &mut O,
    err: &mut E,
) -> u8
    requires out { MayWrite (O.state out.old) }
    requires err { MayWrite (E.state err.old) }
    ensures { EndsDrawing (load_drawer changes asked (map string_bytes servers.now) name.now)
        bytes.now (O.closed out.new)
        (O.state out.old) (O.state out.new) (E.state err.old) (E.state err.new) result }
{
    let ended = draw_load(
        alloc, memory, asked, servers, changes, name, bytes, progress, out,
    );
    status_of_drawing(alloc, memory, name, bytes, ended, out.is_closed(), err)
}

/// Makes the steps of the task file that the bytes spell. Draws the ticks that are asked for, as far as the run has
/// them, and the servers with these names, or all of them if there is no name. The drawing names the file `name`. Returns
/// the status.
///
/// The statuses are those of [`draw_load_within`]. The run of a task file ends at the tick to which its steps bring the
/// clock.
pub fn draw_tasks_within<O: ByteOutput, E: ByteOutput>(
    alloc: Global,
    memory: u64,
    asked: RunDrawing,
    servers: &[String],
    name: &str,
    bytes: &[u8],
    out: &mut O,
    err: &mut E,
) -> u8
    requires out { MayWrite (O.state out.old) }
    requires err { MayWrite (E.state err.old) }
    ensures { EndsDrawing (task_drawer asked (map string_bytes servers.now) name.now)
        bytes.now (O.closed out.new)
        (O.state out.old) (O.state out.new) (E.state err.old) (E.state err.new) result }
{
    let ended = draw_tasks(alloc, memory, asked, servers, name, bytes, out);
    status_of_drawing(alloc, memory, name, bytes, ended, out.is_closed(), err)
}
