//! How a command on a file ends: its status, and what is written to standard error.

ghost use Rattle.std.specs.Prelude.{◌≡◌, IfSome};
ghost use Rattle.cbsrun_toml_tables.specs.Documents.{no_memory};
ghost use Rattle.cbsrun_commands.specs.Commands.{Tells, TellsAnswer, TellsCheck, TellsOrLacks, TellsRun, status_done};
ghost use Rattle.cbsrun_commands.specs.FaultLines.{document_of, file_line, Explains, ExplainsAll, Prints, WritesExplained};
ghost use Rattle.cbsrun_commands.specs.declared.ending.Stopped.TheVariants.{Ended, Run, Unread};
ghost use Rattle.cbsrun_lines.specs.Writers.{MayWrite, TriesToWrite};
ghost use Rattle.cbsrun_lines.specs.declared.run_error.RunError.TheVariants.{OutOfMemory};

use crate::fault_lines::{write_file_fault, write_nothing_shown, write_run_fault};
use cbsrun_fault_texts::explain;
use cbsrun_io::{ByteOutput, write_pieces, write_text};
use cbsrun_lines::RunError;
use cbsrun_other_faults::explain_others;
use cbsrun_records::{is_record, text_of};
use cbsrun_runs::NothingShown;
use cbsrun_tasks::{FileFault, FileKind, wants_within};
use std::alloc::{AllocError, Global};

/// The status of a run that is complete, of one whose output nobody reads any more, and of a request for help.
pub const DONE: u8 = 0;

/// The status of a command that is done, if its answer is no: with `--strict`, of a sketch that is not sized, and of a run
/// that is not recorded.
pub const ANSWER_IS_NO: u8 = 1;

/// The status of a wrong command line.
pub const WRONG_WORDS: u8 = 2;

/// The status if the file could not be read, or has a fault.
pub const BAD_FILE: u8 = 3;

/// The status of a run that ended early.
pub const RUN_FAULT: u8 = 4;

/// The most faults of a file that `check` explains.
const MOST_EXPLAINED: usize = 10;

/// The reason why a command ends early.
#[derive(Clone, Copy)]
pub(crate) enum Stopped {
    /// The file has a fault.
    Unread(FileFault),
    /// The run ends before the first tick to show.
    Ended(NothingShown),
    /// The run ended early.
    Run(RunError),
}

impl From<FileFault> for Stopped {
    ghost from_gives = { λ fault stopped. stopped ≡ Unread fault };

    fn from(fault: FileFault) -> Stopped {
        Stopped::Unread(fault)
    }
}

impl From<NothingShown> for Stopped {
    ghost from_gives = { λ nothing stopped. stopped ≡ Ended nothing };

    fn from(nothing: NothingShown) -> Stopped {
        Stopped::Ended(nothing)
    }
}

impl From<RunError> for Stopped {
    ghost from_gives = { λ error stopped. stopped ≡ Run error };

    fn from(error: RunError) -> Stopped {
        Stopped::Run(error)
    }
}

impl From<AllocError> for Stopped {
    ghost from_gives = { λ _ stopped. stopped ≡ Run OutOfMemory };

    fn from(_error: AllocError) -> Stopped {
        Stopped::Run(RunError::OutOfMemory)
    }
}

/// Prints a text.
pub(crate) fn print<O: ByteOutput>(text: &str, out: &mut O) -> Result<(), RunError>
    requires { MayWrite (O.state out.old) }
    ensures { Prints (λ printed. printed ≡ text.now) result (O.state out.old) (O.state out.new) }
{
    write_text(out, text.as_bytes())?;
    Ok(())
}

/// Returns the TOML document of a file: all of it, but of a record what stands before its tape.
fn document_of(bytes: &[u8]) -> &[u8]
    ensures { result.now ≡ document_of bytes.now }
{
    if is_record(bytes) {
        text_of(bytes)
    } else {
        bytes
    }
}

/// Writes the line of a file's fault, then an empty line and an explanation of the fault. To explain a fault, the file is
/// read as one document. The explanation is left out if the fault is out of memory, if the document needs more than
/// `memory` bytes, or if there is no memory for it. Returns `None` if it is left out, or if a call failed.
fn write_explained<E: ByteOutput>(
    alloc: Global,
    memory: u64,
    name: &str,
    bytes: &[u8],
    fault: FileFault,
    err: &mut E,
) -> Option<()>
    requires { MayWrite (E.state err.old) }
    ensures explained { Explains name.now bytes.now fault (E.state err.old) (E.state err.new) }
    ensures memory { fault ≡ no_memory → TriesToWrite (E.state err.old) (E.state err.new)
        (file_line no_memory) }
    ensures whole { IfSome result (λ _. WritesExplained name.now bytes.now fault
        (E.state err.old) (E.state err.new)) }
{
    write_file_fault(err, fault).ok()?;
    let document = document_of(bytes);
    if fault.kind == FileKind::OutOfMemory || !wants_within(document, memory) {
        return None;
    }
    let text = explain(alloc, name, document, fault).ok()?;
    write_pieces(err, &["\n", text.as_str()]).ok()
}

/// Writes the line of a file's fault, an empty line and an explanation of the fault. Below it writes explanations of the
/// other faults of the file, as [`explain_others`] makes them. They are left out if there is no memory for them, and if
/// the first explanation is.
fn write_all_explained<E: ByteOutput>(
    alloc: Global,
    memory: u64,
    name: &str,
    bytes: &[u8],
    fault: FileFault,
    err: &mut E,
)
    requires { MayWrite (E.state err.old) }
    ensures { ExplainsAll name.now bytes.now fault (E.state err.old) (E.state err.new) }
{
    let Some(()) = write_explained(alloc, memory, name, bytes, fault, err) else {
        return;
    };
    if let Ok(others) = explain_others(alloc, name, bytes, MOST_EXPLAINED) {
        let _written = write_text(err, others.as_bytes());
    }
}

/// Writes that a run ended early, and returns the status. If a write found a closed pipe, nobody reads the output any
/// more: then writes nothing, and the status is that of a run that is complete.
fn status_of_run<E: ByteOutput>(error: RunError, closed: bool, err: &mut E) -> u8
    requires { MayWrite (E.state err.old) }
    ensures { TellsRun error closed (E.state err.old) (E.state err.new) result }
{
    if closed && error == RunError::WriteFault {
        return DONE;
    }
    let _written = write_run_fault(err, error);
    RUN_FAULT
}

/// Writes how a command on the file that the bytes spell ended: nothing if it is done, or if nobody reads the output any
/// more, else why it stopped. The output was found `closed` or not. Returns the status.
pub(crate) fn status_of<E: ByteOutput>(
    alloc: Global,
    memory: u64,
    name: &str,
    bytes: &[u8],
    ended: Result<(), Stopped>,
    closed: bool,
    err: &mut E,
) -> u8
    requires { MayWrite (E.state err.old) }
    ensures { Tells name.now bytes.now closed ended (E.state err.old) (E.state err.new) result }
{
    let Err(stopped) = ended else {
        return DONE;
    };
    match stopped {
        Stopped::Unread(fault) => {
            let _explained = write_explained(alloc, memory, name, bytes, fault, err);
            BAD_FILE
        }
        Stopped::Ended(nothing) => {
            let _written = write_nothing_shown(err, nothing);
            WRONG_WORDS
        }
        Stopped::Run(error) => status_of_run(error, closed, err),
    }
}

/// Returns the status of a command that is done, with this answer. A strict command tells it.
fn status_done(strict: bool, answer: bool) -> u8
    ensures { result ≡ status_done strict answer }
{
    if strict && !answer {
        ANSWER_IS_NO
    } else {
        DONE
    }
}

/// Writes how a command whose answer is yes or no ended, on the file that the bytes spell: nothing if it is done, else why
/// it stopped. The output was found `closed` or not. Returns the status. A strict command that is done has the status of
/// its answer, and tells of a closed pipe as of any write that failed.
pub(crate) fn status_by_answer<E: ByteOutput>(
    alloc: Global,
    memory: u64,
    strict: bool,
    name: &str,
    bytes: &[u8],
    ended: Result<bool, Stopped>,
    closed: bool,
    err: &mut E,
) -> u8
    requires { MayWrite (E.state err.old) }
    ensures { TellsAnswer strict name.now bytes.now closed ended
        (E.state err.old) (E.state err.new) result }
{
    match ended {
        Ok(answer) => status_done(strict, answer),
        Err(stopped) => {
            let quiet = closed && !strict;
            status_of(alloc, memory, name, bytes, Err(stopped), quiet, err)
        }
    }
}

/// Writes how a command that may find nothing to print ended, on the file that the bytes spell: nothing if it is done, and
/// else why nothing is printed, or why it stopped. The output was found `closed` or not. Returns the status.
pub(crate) fn status_or_lack<E: ByteOutput>(
    alloc: Global,
    memory: u64,
    name: &str,
    bytes: &[u8],
    ended: Result<Option<String>, Stopped>,
    closed: bool,
    err: &mut E,
) -> u8
    requires { MayWrite (E.state err.old) }
    ensures { TellsOrLacks name.now bytes.now closed ended
        (E.state err.old) (E.state err.new) result }
{
    let found = match ended {
        Ok(found) => found,
        Err(stopped) => return status_of(alloc, memory, name, bytes, Err(stopped), closed, err),
    };
    let Some(why) = found else {
        return DONE;
    };
    let _written = write_pieces(err, &[why.as_str()]);
    ANSWER_IS_NO
}

/// Writes how `check` ended, on the file that the bytes spell, and returns the status, as [`status_by_answer`] does. If the
/// file has faults, explains the others after the first one, too.
pub(crate) fn status_of_check<E: ByteOutput>(
    alloc: Global,
    memory: u64,
    strict: bool,
    name: &str,
    bytes: &[u8],
    ended: Result<bool, Stopped>,
    closed: bool,
    err: &mut E,
) -> u8
    requires { MayWrite (E.state err.old) }
    ensures { TellsCheck strict name.now bytes.now closed ended
        (E.state err.old) (E.state err.new) result }
{
    if let Err(Stopped::Unread(fault)) = ended {
        write_all_explained(alloc, memory, name, bytes, fault, err);
        return BAD_FILE;
    }
    status_by_answer(alloc, memory, strict, name, bytes, ended, closed, err)
}
