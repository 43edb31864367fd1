//! One run: from the bytes of a file to a status.

ghost use Rattle.cbsrun_commands.specs.Verbs.{Ends, output_of, StopsShort};
ghost use Rattle.cbsrun_lines.specs.Writers.{Leaves, MayWrite};

use crate::ending::{BAD_FILE, DONE, RUN_FAULT};
use crate::fault_lines::{write_file_fault, write_run_fault};
use crate::reading::task_file;
use crate::serve::serve_file;
use cbsrun_io::ByteOutput;
use cbsrun_lines::{RunError, replay};
use cbsrun_options::Verb;
use cbsrun_tasks::{MEMORY, TaskFile};
use std::alloc::Global;
use std::thread::Threads;
use std::time::Clock;

/// Replays or serves a task file, as the verb says.
fn run_file<R: Threads + Clock + Sync, O: ByteOutput>(
    rt: &R,
    alloc: Global,
    verb: Verb,
    file: TaskFile,
    out: &mut O,
) -> Result<(), RunError>
    requires { MayWrite (O.state out.old) }
    ensures { Leaves (output_of verb file) (StopsShort verb file) result (O.state out.old)
        (O.state out.new) }
{
    match verb {
        Verb::Replay => replay(alloc, file, out),
        Verb::Serve => serve_file(rt, alloc, file, out),
    }
}

/// Replays or serves the task file that the bytes spell, as [`run_bytes`] does. Returns the status.
///
/// A file that has to be read as one document may need `memory` bytes of memory. If it needs more, the status is 3, and the
/// line of out of memory goes to `err`.
pub fn run_bytes_within<R: Threads + Clock + Sync, O: ByteOutput, E: ByteOutput>(
    rt: &R,
    alloc: Global,
    memory: u64,
    verb: Verb,
    bytes: &[u8],
    out: &mut O,
    err: &mut E,
) -> u8
    requires out { MayWrite (O.state out.old) }
    requires err { MayWrite (E.state err.old) }
    ensures { Ends verb bytes.now (O.state out.old) (O.state out.new) (E.state err.old)
        (E.state err.new) result }
{
    let file = match task_file(alloc, memory, bytes) {
        Ok(file) => file,
        Err(fault) => {
            let _written = write_file_fault(err, fault);
            return BAD_FILE;
        }
    };
    match run_file(rt, alloc, verb, file, out) {
        Ok(()) => DONE,
        Err(error) => {
            let _written = write_run_fault(err, error);
            RUN_FAULT
        }
    }
}

/// Replays or serves the task file that the bytes spell, as the verb says. Returns the status.
///
/// At status 0 the whole output is on `out`, and nothing on `err`. At status 3 the file has a fault: the line of the
/// fault goes to `err`, and nothing to `out`. At status 4 the run ended early: the line of the run fault goes to `err`,
/// and `out` has a prefix of the output. In serving that prefix is empty unless a write failed. A line that cannot be
/// written changes no status.
///
/// A file that is read as one document may need up to [`MEMORY`] bytes of memory.
pub fn run_bytes<R: Threads + Clock + Sync, O: ByteOutput, E: ByteOutput>(
    rt: &R,
    alloc: Global,
    verb: Verb,
    bytes: &[u8],
    out: &mut O,
    err: &mut E,
) -> u8
    requires out { MayWrite (O.state out.old) }
    requires err { MayWrite (E.state err.old) }
    ensures { Ends verb bytes.now (O.state out.old) (O.state out.new) (E.state err.old)
        (E.state err.new) result }
{
    run_bytes_within(rt, alloc, MEMORY, verb, bytes, out, err)
}
