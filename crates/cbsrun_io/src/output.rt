//! Writers that count their failed calls, and calls that write a whole text.

ghost use Rattle.std.specs.Prelude.{◌≡◌, ◌↔◌, ◌<◌, ◌≤◌, Bool, true, false, length, take, IfOk, IfErr, OnOk, OnErr};
ghost use Rattle.std.specs.IoError.{error_kind};
ghost use Rattle.cbsrun_io.specs.Counted.{CountedWriter};
ghost use Rattle.cbsrun_io.specs.Writers.{Writer, MayWrite, Writes, Fails, FailsToWrite, joined};

use std::io;
use std::io::{ErrorKind, Write};
use std::marker::Model;

/// A writer of bytes, which counts its calls that failed.
pub trait ByteOutput {
    // What was written so far, and how many calls failed.
    ghost state: { Self → Writer };

    // Whether the last call that failed found a closed pipe.
    ghost closed: { Self → Bool };

    /// Writes a prefix of the bytes, and returns its length. It is 0 only if there are no bytes. A call that fails has
    /// written nothing.
    fn write(&mut self, bytes: &[u8]) -> io::Result<usize>
        requires { MayWrite (state self.old) }
        ensures took { IfOk result (λ n. (n ≤ length bytes.now) × (0 < length bytes.now → 0 < n)) }
        ensures ok { IfOk result (λ n. Writes (state self.old) (state self.new)
            (take n bytes.now)) }
        ensures err { OnErr result (Fails (state self.old) (state self.new)) }
        ensures closed { IfErr result (λ e. (closed self.new ≡ true)
            ↔ (error_kind e ≡ ErrorKind.BrokenPipe)) };

    /// Returns whether the last call that failed found a closed pipe: nobody reads the bytes any more.
    fn is_closed(&self) -> bool
        ensures { result ≡ closed self.now };
}

/// Any writer of the library, with a count of its calls that failed, and the reason of the last of these.
#[derive(Drop)]
pub struct ToWrite<W> {
    writer: W,
    failed: u64,
    closed: bool,
    // The system's number of the last error, if the error was the system's.
    code: Option<i32>,
}

impl<W> Model for ToWrite<W> {
    ghost Value = { CountedWriter W };

    ghost view = { λ s. record { inner = s.writer; failed = s.failed; closed = s.closed } };
}

impl<W> ToWrite<W> {
    /// Returns a writer of which no call has failed yet.
    pub fn new(writer: W) -> ToWrite<W>
        ensures { result ≡ record { inner = writer; failed = 0; closed = false } }
    {
        ToWrite {
            writer,
            failed: 0,
            closed: false,
            code: None,
        }
    }

    /// Returns the system's error by which the last call that failed did so. Returns `None` if no call failed, or if the
    /// last one that failed took no byte of some.
    pub fn system_error(&self) -> Option<io::Error> {
        self.code.map(io::Error::from_raw_os_error)
    }
}

/// Returns whether an error is that of a closed pipe.
fn is_broken_pipe(error: &io::Error) -> bool
    ensures { (result ≡ true) ↔ (error_kind error.now ≡ ErrorKind.BrokenPipe) }
{
    error.kind() == ErrorKind::BrokenPipe
}

impl<W: Write> ByteOutput for ToWrite<W> {
    ghost state = { λ s. record { written = W.contents s.inner; failed = s.failed } };

    ghost closed = { λ s. s.closed };

    fn write(&mut self, bytes: &[u8]) -> io::Result<usize> {
        let error = match self.writer.write(bytes) {
            Ok(n) if n > 0 || bytes.is_empty() => return Ok(n),
            Ok(_) => io::Error::from(ErrorKind::WriteZero),
            Err(error) => error,
        };
        self.failed += 1;
        self.closed = is_broken_pipe(&error);
        self.code = error.raw_os_error();
        Err(error)
    }

    fn is_closed(&self) -> bool {
        self.closed
    }
}

/// Writes the whole text. If it refuses, a prefix of the text is written.
pub fn write_text<O: ByteOutput>(out: &mut O, text: &[u8]) -> io::Result<()>
    requires { MayWrite (O.state out.old) }
    ensures ok { OnOk result (Writes (O.state out.old) (O.state out.new) text.now) }
    ensures err { OnErr result (FailsToWrite (O.state out.old) (O.state out.new) text.now) }
{
    let mut done = 0;
    while done < text.len() {
        done += out.write(&text[done..])?;
    }
    Ok(())
}

/// Writes the pieces in turn, and takes no memory. If it refuses, a prefix of them is written.
pub fn write_pieces<O: ByteOutput>(out: &mut O, pieces: &[&str]) -> io::Result<()>
    requires { MayWrite (O.state out.old) }
    ensures ok { OnOk result (Writes (O.state out.old) (O.state out.new) (joined pieces.now)) }
    ensures err { OnErr result (FailsToWrite (O.state out.old) (O.state out.new)
        (joined pieces.now)) }
{
    for piece in pieces {
        write_text(out, piece.as_bytes())?;
    }
    Ok(())
}
