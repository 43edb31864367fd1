//! Reports of the runs of loads and task files: from their bytes to a status.

ghost use Rattle.std.specs.Prelude.{◌≡◌, ◌≤◌, [], IfOk, Ok, length, string_bytes};
ghost use Rattle.cbsrun_report_json.specs.Json.{all_in_time};
ghost use Rattle.cbsrun_loads.specs.Loads.{LoadFile};
ghost use Rattle.cbsrun_commands.specs.Commands.{Does, EndsAs, EndsByAnswer};
ghost use Rattle.cbsrun_commands.specs.FaultLines.{Prints};
ghost use Rattle.cbsrun_commands.specs.Outputs.{changed_load, load_report, task_report, AreTold, IsInTime, IsReportText, IsRunText, text_in};
ghost use Rattle.cbsrun_lines.specs.Writers.{MayWrite};

use crate::ending::{Stopped, print, status_by_answer, status_of};
use crate::reading::{load_file, task_file};
use cbsrun_io::ByteOutput;
use cbsrun_lines::RunError;
use cbsrun_loads::Load;
use cbsrun_options::{Form, LoadReport};
use cbsrun_report_json::report_json;
use cbsrun_report_text::{RunReport, report_text};
use cbsrun_runs::{NoProgress, Progress, Replay, Run, report_of};
use cbsrun_sizing::{ServerLoad, server_loads};
use std::alloc::{AllocError, Global};

/// Returns the text of a report of at most 64 servers, in this form. `loads` has what `check` tells of each server of a
/// load, and is empty for a task file.
fn text_of(
    alloc: Global,
    form: Form,
    report: &RunReport,
    loads: &[ServerLoad],
) -> Result<String, AllocError>
    requires { length report.now.servers.items ≤ 64 }
    ensures { IfOk result (λ text. string_bytes text ≡ text_in form report.now loads.now) }
{
    match form {
        Form::Report => report_text(alloc, report, loads),
        Form::Json => report_json(alloc, report),
    }
}

/// Returns whether no server of a report has a job that is late or was refused.
fn all_in_time(report: &RunReport) -> bool
    ensures { result ≡ all_in_time report.now.servers.items }
{
    report.servers.iter().all(|server| server.is_in_time())
}

/// Prints a report of at most 64 servers in this form, with what `check` tells of the servers.
fn print_report<O: ByteOutput>(
    alloc: Global,
    form: Form,
    report: &RunReport,
    loads: &[ServerLoad],
    out: &mut O,
) -> Result<(), RunError>
    requires writes { MayWrite (O.state out.old) }
    requires few { length report.now.servers.items ≤ 64 }
    ensures { Prints (λ text. text ≡ text_in form report.now loads.now) result
        (O.state out.old) (O.state out.new) }
{
    let text = text_of(alloc, form, report, loads)?;
    print(&text, out)
}

/// Makes the steps of a run, and prints its report in this form, with nothing besides the run. The report names the file
/// `name`.
pub(crate) fn print_run<R: Run, O: ByteOutput>(
    alloc: Global,
    form: Form,
    name: &str,
    run: &mut R,
    out: &mut O,
) -> Result<(), RunError>
    requires { MayWrite (O.state out.old) }
    ensures { Prints (IsRunText form name.now (R.run run.old) (λ r loads. loads ≡ [])) result
        (O.state out.old) (O.state out.new) }
{
    let report = report_of(alloc, name, run, &mut NoProgress)?;
    print_report(alloc, form, &report, &[], out)
}

/// Returns what `check` tells of each server of a load, if a report in this form tells it: if it is a text, and if a
/// server is not in time.
fn loads_told(
    alloc: Global,
    form: Form,
    load: &Load,
    in_time: bool,
) -> Result<Vec<ServerLoad>, AllocError>
    ensures { IfOk result (λ loads. AreTold form in_time load.now loads.items) }
{
    match (form, in_time) {
        (Form::Report, false) => server_loads(alloc, load),
        _ => Ok(Vec::new(alloc)),
    }
}

/// Simulates a load, and prints the report of its run in this form. The report names the file `name`. Returns whether each
/// job of the run was in time.
fn print_load<P: Progress, O: ByteOutput>(
    alloc: Global,
    form: Form,
    name: &str,
    load: &mut Load,
    progress: &mut P,
    out: &mut O,
) -> Result<bool, RunError>
    requires { MayWrite (O.state out.old) }
    ensures printed { Prints (IsReportText form name.now load.old) result
        (O.state out.old) (O.state out.new) }
    ensures answer { IfOk result (IsInTime name.now load.old) }
{
    let report = report_of(alloc, name, load, progress)?;
    let in_time = all_in_time(&report);
    let loads = loads_told(alloc, form, load, in_time)?;
    print_report(alloc, form, &report, &loads, out)?;
    Ok(in_time)
}

/// Makes the steps of the task file that the bytes spell, and prints the report of its run in this form.
fn report_tasks<O: ByteOutput>(
    alloc: Global,
    memory: u64,
    form: Form,
    name: &str,
    bytes: &[u8],
    out: &mut O,
) -> Result<(), Stopped>
    requires { MayWrite (O.state out.old) }
    ensures { Does (task_report form name.now) bytes.now result
        (O.state out.old) (O.state out.new) }
{
    let tasks = task_file(alloc, memory, bytes)?;
    let mut replay = Replay::of(tasks);
    print_run(alloc, form, name, &mut replay, out)?;
    Ok(())
}

/// Makes the steps of the task file that the bytes spell, and prints the report of its run in this form. The report
/// names the file `name`. Returns the status.
///
/// At status 0 the whole report is on `out`, or a prefix of it if a write found a closed pipe, and nothing on `err`. At
/// status 3 the file has a fault: the line of the fault goes to `err`, with an explanation below it, and nothing to
/// `out`. At status 4 the run ended early: the line of the run fault goes to `err`, and `out` has a prefix of the
/// report. That prefix is empty unless a write failed. A line that cannot be written changes no status.
///
/// A file that has to be read as one document may need `memory` bytes of memory. If it needs more, the status is 3, and the
/// line of out of memory goes to `err`.
pub fn report_bytes_within<O: ByteOutput, E: ByteOutput>(
    alloc: Global,
    memory: u64,
    form: Form,
    name: &str,
    bytes: &[u8],
    out: &mut O,
    err: &mut E,
) -> u8
    requires out { MayWrite (O.state out.old) }
    requires err { MayWrite (E.state err.old) }
    ensures { EndsAs (task_report form name.now) name.now bytes.now (O.closed out.new)
        (O.state out.old) (O.state out.new) (E.state err.old) (E.state err.new) result }
{
    let ended = report_tasks(alloc, memory, form, name, bytes, out);
    status_of(alloc, memory, name, bytes, ended, out.is_closed(), err)
}

/// Simulates the load that the bytes spell, as it is asked for, and prints the report of its run. Returns whether each job
/// of the run was in time.
fn report_load<P: Progress, O: ByteOutput>(
    alloc: Global,
    memory: u64,
    asked: LoadReport,
    name: &str,
    bytes: &[u8],
    progress: &mut P,
    out: &mut O,
) -> Result<bool, Stopped>
    requires { MayWrite (O.state out.old) }
    ensures printed { Does (load_report asked.changes asked.form name.now) bytes.now result
        (O.state out.old) (O.state out.new) }
    ensures answer { IfOk result (λ answer. (f : LoadFile)
        × (changed_load asked.changes bytes.now ≡ Ok f) × IsInTime name.now f answer) }
{
    let mut load = load_file(alloc, memory, asked.changes, bytes)?;
    let in_time = print_load(alloc, asked.form, name, &mut load, progress, out)?;
    Ok(in_time)
}

/// Simulates the load that the bytes spell, with the changes that are asked for, and prints the report of its run in the
/// form that is asked for. The report names the file `name`. Reports to `progress` now and then how far the simulation
/// is. Returns the status.
///
/// The statuses are those of [`report_bytes_within`]. Besides, if `asked` is strict, the status is 1 in the place of 0 if
/// a job is late or was refused.
pub fn simulate_bytes_within<P: Progress, O: ByteOutput, E: ByteOutput>(
    alloc: Global,
    memory: u64,
    asked: LoadReport,
    name: &str,
    bytes: &[u8],
    progress: &mut P,
    out: &mut O,
    err: &mut E,
) -> u8
    requires out { MayWrite (O.state out.old) }
    requires err { MayWrite (E.state err.old) }
    ensures { EndsByAnswer (load_report asked.changes asked.form name.now) (IsInTime name.now)
        asked.strict name.now bytes.now (O.closed out.new)
        (O.state out.old) (O.state out.new) (E.state err.old) (E.state err.new) result }
{
    let ended = report_load(alloc, memory, asked, name, bytes, progress, out);
    status_by_answer(
        alloc,
        memory,
        asked.strict,
        name,
        bytes,
        ended,
        out.is_closed(),
        err,
    )
}
