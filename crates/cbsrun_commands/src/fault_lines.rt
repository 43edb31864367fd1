//! The lines of faults on standard error. They take no memory.

ghost use Rattle.std.specs.Prelude.{OnOk, OnErr};
ghost use Rattle.cbsrun_commands.specs.FaultLines.{read_line, file_line, run_line, nothing_shown_line};
ghost use Rattle.cbsrun_lines.specs.Writers.{MayWrite, Writes, FailsToWrite};

use cbsrun_io::{ByteOutput, ReadError, write_pieces};
use cbsrun_lines::RunError;
use cbsrun_runs::NothingShown;
use cbsrun_tasks::{FileFault, Place};
use itoa::Buffer;
use std::io;

/// Writes the line of a read that failed.
#[tactic(auto, unfolding(crate::specs::FaultLines::read_line))]
pub fn write_read_fault<E: ByteOutput>(err: &mut E, fault: ReadError) -> io::Result<()>
    requires { MayWrite (E.state err.old) }
    ensures ok { OnOk result (Writes (E.state err.old) (E.state err.new) (read_line fault)) }
    ensures err { OnErr result (FailsToWrite (E.state err.old) (E.state err.new)
        (read_line fault)) }
{
    let mut digits = Buffer::new();
    let number = digits.format(fault.number());
    let name = fault.name();
    write_pieces(err, &["cbsrun: read fault ", number, " ", name, "\n"])
}

/// Writes the line of a file's fault.
#[tactic(auto, unfolding(crate::specs::FaultLines::file_line))]
pub fn write_file_fault<E: ByteOutput>(err: &mut E, fault: FileFault) -> io::Result<()>
    requires { MayWrite (E.state err.old) }
    ensures ok { OnOk result (Writes (E.state err.old) (E.state err.new) (file_line fault)) }
    ensures err { OnErr result (FailsToWrite (E.state err.old) (E.state err.new)
        (file_line fault)) }
{
    let mut digits = Buffer::new();
    let number = digits.format(fault.kind.number());
    let name = fault.kind.name();
    let front = "cbsrun: file fault ";
    let mut entry = Buffer::new();
    match fault.place {
        Place::Top => write_pieces(err, &[front, number, " ", name, " at top\n"]),
        Place::Server(i) => {
            let i = entry.format(i);
            write_pieces(err, &[front, number, " ", name, " at server ", i, "\n"])
        }
        Place::Step(i) => {
            let i = entry.format(i);
            write_pieces(err, &[front, number, " ", name, " at step ", i, "\n"])
        }
        Place::Source(i) => {
            let i = entry.format(i);
            write_pieces(err, &[front, number, " ", name, " at source ", i, "\n"])
        }
    }
}

/// Writes the line of a run that ended early.
#[tactic(auto, unfolding(crate::specs::FaultLines::run_line))]
pub fn write_run_fault<E: ByteOutput>(err: &mut E, fault: RunError) -> io::Result<()>
    requires { MayWrite (E.state err.old) }
    ensures ok { OnOk result (Writes (E.state err.old) (E.state err.new) (run_line fault)) }
    ensures err { OnErr result (FailsToWrite (E.state err.old) (E.state err.new) (run_line fault)) }
{
    let mut digits = Buffer::new();
    let number = digits.format(fault.number());
    let name = fault.name();
    write_pieces(err, &["cbsrun: run fault ", number, " ", name, "\n"])
}

/// Writes the line of a run that has none of the ticks to show.
#[tactic(auto, unfolding(crate::specs::FaultLines::nothing_shown_line))]
pub(crate) fn write_nothing_shown<E: ByteOutput>(
    err: &mut E,
    nothing: NothingShown,
) -> io::Result<()>
    requires { MayWrite (E.state err.old) }
    ensures ok { OnOk result (Writes (E.state err.old) (E.state err.new)
        (nothing_shown_line nothing.from nothing.end)) }
    ensures err { OnErr result (FailsToWrite (E.state err.old) (E.state err.new)
        (nothing_shown_line nothing.from nothing.end)) }
{
    let mut first = Buffer::new();
    let from = first.format(nothing.from);
    let mut last = Buffer::new();
    let end = last.format(nothing.end);
    write_pieces(
        err,
        &[
            "error: there is no tick to show from ",
            from,
            " on: the run ends at tick ",
            end,
            "\n",
        ],
    )
}
