//! The bytes of the file that the command line names, and why they could not be read.

ghost use Rattle.std.specs.Prelude.{◌-◌, ◌<◌, ◌^◌};
ghost use Rattle.cbsrun_io.specs.Writers.{MayWrite};

use cbsrun_commands::{ByteOutput, FromRead, ReadError, read_all, write_pieces};
use cbsrun_refusal_texts::printable;
use std::alloc::{AllocError, Global};
use std::fs::File;
use std::{fs, io};

/// The name of standard input.
const STANDARD_INPUT: &str = "-";

/// The reason why the bytes of a file could not be read.
#[derive(Drop)]
pub enum Unread {
    /// The file could not be opened.
    Unopened(io::Error),
    /// The file was opened, but could not be read.
    Opened(ReadError),
}

impl Unread {
    /// Returns the read fault that stands for this reason.
    pub fn fault(&self) -> ReadError {
        match self {
            Unread::Unopened(_) => ReadError::ReadFault,
            Unread::Opened(fault) => *fault,
        }
    }
}

/// Returns the bytes of a file, or those of standard input if the name is `-`.
// A read has a buffer of 64 KiB on the stack. It must be gone before the file is run. Otherwise, if the address space
// is limited, a stack that grows late ends the program with a signal.
#[inline(never)]
pub fn bytes_of(rt: &HostRuntime, alloc: Global, name: &str) -> Result<Vec<u8>, Unread> {
    let read = if name == STANDARD_INPUT {
        read_all(alloc, &mut FromRead::new(rt.stdin()))
    } else {
        match File::open(rt, name) {
            Ok(file) => read_all(alloc, &mut FromRead::new(file)),
            Err(error) => return Err(Unread::Unopened(error)),
        }
    };
    read.map_err(Unread::Opened)
}

/// Returns why a file could not be read, as a sentence for a person.
fn reason(
    rt: &HostRuntime,
    alloc: Global,
    name: &str,
    unread: &Unread,
) -> Result<String, AllocError> {
    let shown = printable(alloc, name)?;
    match unread {
        Unread::Unopened(error) => format!(in alloc; "cannot open {shown}: {error}"),
        Unread::Opened(fault) if name == STANDARD_INPUT => {
            format!(in alloc; "cannot read standard input: {fault}")
        }
        Unread::Opened(ReadError::ReadFault) if fs::metadata(rt, name).is_ok_and(|m| m.is_dir()) =>
            format!(in alloc; "cannot read {shown}: it is a folder"),
        Unread::Opened(fault) => format!(in alloc; "cannot read {shown}: {fault}"),
    }
}

/// Writes an empty line, and why a file could not be read. If out of memory, writes nothing.
pub fn write_reason<E: ByteOutput>(
    rt: &HostRuntime,
    alloc: Global,
    name: &str,
    unread: &Unread,
    err: &mut E,
)
    requires { MayWrite (E.state err.old) }
{
    if unread.fault() == ReadError::OutOfMemory {
        return;
    }
    if let Ok(text) = reason(rt, alloc, name, unread) {
        let _written = write_pieces(err, &["\nerror: ", text.as_str(), "\n"]);
    }
}
