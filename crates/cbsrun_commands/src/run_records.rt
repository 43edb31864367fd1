//! The record of a run: from the bytes of a file to a status.

ghost use Rattle.std.specs.Prelude.{map, string_bytes};
ghost use Rattle.cbsrun_commands.specs.Commands.{DoesOrLacks, EndsOrLacks};
ghost use Rattle.cbsrun_commands.specs.Records.{load_record, record_again, task_record, IsNotRecorded, PrintsRecord};
ghost use Rattle.cbsrun_lines.specs.Writers.{MayWrite};

use crate::check::numbers;
use crate::ending::{Stopped, status_or_lack};
use crate::reading::{load_file, record_file, task_file};
use cbsrun_io::{ByteOutput, write_text};
use cbsrun_lines::RunError;
use cbsrun_options::Changes;
use cbsrun_run_records::{NotRecorded, RecordForm, recorded_run};
use cbsrun_runs::{Replay, Run, names_of};
use std::alloc::{AllocError, Global};

/// Returns why a run is not recorded, for a person.
fn not_recorded_text(alloc: Global, why: NotRecorded) -> Result<String, AllocError> {
    format!(in alloc; "error: the run is not recorded: {why}\n")
}

/// Makes the steps of a run, and prints its record in this form. In the record the servers have these names. Returns `None` if it is printed,
/// and else why there is none.
fn print_record<R: Run, O: ByteOutput>(
    alloc: Global,
    form: RecordForm,
    names: &[String],
    run: &mut R,
    out: &mut O,
) -> Result<Option<String>, RunError>
    requires { MayWrite (O.state out.old) }
    ensures { PrintsRecord (map string_bytes names.now) (R.run run.old) result
        (O.state out.old) (O.state out.new) }
{
    let bytes = match recorded_run(alloc, form, names, run) {
        Ok(bytes) => bytes,
        Err(NotRecorded::OutOfMemory) => return Err(RunError::OutOfMemory),
        Err(why) => return Ok(Some(not_recorded_text(alloc, why)?)),
    };
    write_text(out, &bytes)?;
    Ok(None)
}

/// Simulates the load that the bytes spell, with these changes, and prints the record of its run in this form.
fn record_load<O: ByteOutput>(
    alloc: Global,
    memory: u64,
    form: RecordForm,
    changes: Changes,
    bytes: &[u8],
    out: &mut O,
) -> Result<Option<String>, Stopped>
    requires { MayWrite (O.state out.old) }
    ensures { DoesOrLacks (load_record changes) IsNotRecorded bytes.now result
        (O.state out.old) (O.state out.new) }
{
    let mut load = load_file(alloc, memory, changes, bytes)?;
    // Reading the backlog gives the proof what every load keeps.
    let _backlog = load.backlog();
    let names = names_of(alloc, &load)?;
    Ok(print_record(alloc, form, &names, &mut load, out)?)
}

/// Makes the steps of the task file that the bytes spell, and prints the record of its run in this form. Server S is called `server-S`.
fn record_tasks<O: ByteOutput>(
    alloc: Global,
    memory: u64,
    form: RecordForm,
    bytes: &[u8],
    out: &mut O,
) -> Result<Option<String>, Stopped>
    requires { MayWrite (O.state out.old) }
    ensures { DoesOrLacks task_record IsNotRecorded bytes.now result
        (O.state out.old) (O.state out.new) }
{
    let tasks = task_file(alloc, memory, bytes)?;
    let names = numbers(alloc, "server-", &tasks)?;
    let mut replay = Replay::of(tasks);
    Ok(print_record(alloc, form, &names, &mut replay, out)?)
}

/// Makes the steps of the record that the bytes spell, and prints the record of its run in this form.
fn record_again<O: ByteOutput>(
    alloc: Global,
    memory: u64,
    form: RecordForm,
    bytes: &[u8],
    out: &mut O,
) -> Result<Option<String>, Stopped>
    requires { MayWrite (O.state out.old) }
    ensures { DoesOrLacks record_again IsNotRecorded bytes.now result
        (O.state out.old) (O.state out.new) }
{
    let mut record = record_file(alloc, memory, bytes)?;
    let names = names_of(alloc, &record)?;
    Ok(print_record(alloc, form, &names, &mut record, out)?)
}

/// Simulates the load that the bytes spell, with these changes, and prints the record of its run in this form. The explanation of a
/// fault names the file `name`. Returns the status.
///
/// At status 0 the record is on `out`, whole, or a prefix of it if a write found a closed pipe, and nothing on `err`. At
/// status 1 the run has no record that `cbsrun` could read: why is on `err`, and nothing on `out`. At status 3 the file
/// has a fault, as in [`report_bytes_within`](crate::report_bytes_within). At status 4 the run ended early: the line of
/// the run fault goes to `err`, and `out` has a prefix of the record. That prefix is empty unless a write failed. A line
/// that cannot be written changes no status.
///
/// A file that has to be read as one document may need `memory` bytes of memory. If it needs more, the status is 3, and the
/// line of out of memory goes to `err`.
pub fn record_load_within<O: ByteOutput, E: ByteOutput>(
    alloc: Global,
    memory: u64,
    form: RecordForm,
    changes: Changes,
    name: &str,
    bytes: &[u8],
    out: &mut O,
    err: &mut E,
) -> u8
    requires out { MayWrite (O.state out.old) }
    requires err { MayWrite (E.state err.old) }
    ensures { EndsOrLacks (load_record changes) IsNotRecorded name.now bytes.now
        (O.closed out.new)
        (O.state out.old) (O.state out.new) (E.state err.old) (E.state err.new) result }
{
    let ended = record_load(alloc, memory, form, changes, bytes, out);
    status_or_lack(alloc, memory, name, bytes, ended, out.is_closed(), err)
}

/// Makes the steps of the task file that the bytes spell, and prints the record of its run in this form. Server S is called `server-S`.
/// The explanation of a fault names the file `name`. Returns the status.
///
/// The statuses are those of [`record_load_within`].
pub fn record_tasks_within<O: ByteOutput, E: ByteOutput>(
    alloc: Global,
    memory: u64,
    form: RecordForm,
    name: &str,
    bytes: &[u8],
    out: &mut O,
    err: &mut E,
) -> u8
    requires out { MayWrite (O.state out.old) }
    requires err { MayWrite (E.state err.old) }
    ensures { EndsOrLacks task_record IsNotRecorded name.now bytes.now (O.closed out.new)
        (O.state out.old) (O.state out.new) (E.state err.old) (E.state err.new) result }
{
    let ended = record_tasks(alloc, memory, form, bytes, out);
    status_or_lack(alloc, memory, name, bytes, ended, out.is_closed(), err)
}

/// Makes the steps of the record that the bytes spell, and prints the record of its run in this form: the same
/// servers and steps, as `cbsrun` writes them. The explanation of a fault names the file `name`. Returns the status.
///
/// The statuses are those of [`record_load_within`].
pub fn record_again_within<O: ByteOutput, E: ByteOutput>(
    alloc: Global,
    memory: u64,
    form: RecordForm,
    name: &str,
    bytes: &[u8],
    out: &mut O,
    err: &mut E,
) -> u8
    requires out { MayWrite (O.state out.old) }
    requires err { MayWrite (E.state err.old) }
    ensures { EndsOrLacks record_again IsNotRecorded name.now bytes.now (O.closed out.new)
        (O.state out.old) (O.state out.new) (E.state err.old) (E.state err.new) result }
{
    let ended = record_again(alloc, memory, form, bytes, out);
    status_or_lack(alloc, memory, name, bytes, ended, out.is_closed(), err)
}
