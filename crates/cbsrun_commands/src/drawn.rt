//! How a run was drawn, and how a command that draws ends.

ghost use Rattle.std.specs.Prelude.{◌≡◌, OnErr, OnOk};
ghost use Rattle.cbsrun_commands.specs.Drawings.{TellsDrawn, cut_line, cut_of};
ghost use Rattle.cbsrun_lines.specs.Writers.{FailsToWrite, MayWrite, Writes};

use crate::ending::{DONE, Stopped, WRONG_WORDS, status_of};
use cbsrun_io::{ByteOutput, write_pieces};
use cbsrun_options::RunDrawing;
use itoa::Buffer;
use std::alloc::Global;
use std::io;

/// Ticks of a run that a drawing leaves out, since it can show no more of them.
#[derive(Clone, Copy)]
pub(crate) struct Cut {
    /// The first of them.
    pub from: u64,
    /// The tick after the last one, at which the run ends.
    pub to: u64,
}

/// What became of a drawing.
#[derive(Drop)]
pub(crate) enum Drawn {
    /// It is printed, and leaves out these ticks, if any.
    Printed(Option<Cut>),
    /// A server is named that the run does not have: this is what to tell.
    NoServer(String),
}

/// Returns the ticks of a run, which ends at the tick `end`, that a drawing leaves out since it can show no more of them.
pub(crate) fn cut_of(drawing: RunDrawing, end: u64) -> Option<Cut>
    ensures { result ≡ cut_of drawing end }
{
    if drawing.bounded || end <= drawing.ticks.to {
        return None;
    }
    Some(Cut {
        from: drawing.ticks.to,
        to: end,
    })
}

/// Writes the line of ticks that are left out.
#[tactic(auto, unfolding(crate::specs::Drawings::cut_line))]
fn write_cut<E: ByteOutput>(err: &mut E, cut: Cut) -> io::Result<()>
    requires { MayWrite (E.state err.old) }
    ensures ok { OnOk result (Writes (E.state err.old) (E.state err.new) (cut_line cut)) }
    ensures err { OnErr result (FailsToWrite (E.state err.old) (E.state err.new) (cut_line cut)) }
{
    let mut first = Buffer::new();
    let from = first.format(cut.from);
    let mut last = Buffer::new();
    let to = last.format(cut.to);
    write_pieces(
        err,
        &[
            "note: ticks ",
            from,
            " to ",
            to,
            " are not shown: --from and --to choose others\n",
        ],
    )
}

/// Writes how a command that draws the file that the bytes spell ended: which ticks are left out, if any, or why there is
/// no drawing. The output was found `closed` or not. Returns the status.
pub(crate) fn status_of_drawing<E: ByteOutput>(
    alloc: Global,
    memory: u64,
    name: &str,
    bytes: &[u8],
    ended: Result<Drawn, Stopped>,
    closed: bool,
    err: &mut E,
) -> u8
    requires { MayWrite (E.state err.old) }
    ensures { TellsDrawn name.now bytes.now closed ended (E.state err.old) (E.state err.new) result }
{
    match ended {
        Ok(Drawn::Printed(None)) => DONE,
        Ok(Drawn::Printed(Some(cut))) => {
            let _written = write_cut(err, cut);
            DONE
        }
        Ok(Drawn::NoServer(text)) => {
            let _written = write_pieces(err, &[text.as_str()]);
            WRONG_WORDS
        }
        Err(stopped) => status_of(alloc, memory, name, bytes, Err(stopped), closed, err),
    }
}
