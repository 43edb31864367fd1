//! Text that waits to be written.

ghost use Rattle.std.specs.Prelude.{◌≡◌, [], ◌++◌, OnOk, OnErr, IfOk};
ghost use Rattle.cbsrun_io.specs.Writers.{MayWrite, Writes, WritesAllBut, FailsToWrite};

use crate::output::{ByteOutput, write_text};
use std::alloc::{AllocError, Global};
use std::io;
use std::marker::Model;

/// How many bytes may wait before they are written.
const CAPACITY: usize = 16_384;

/// Text that waits to be written, so that the writer is called seldom.
#[derive(Drop)]
pub struct Pending {
    text: String,
}

impl Model for Pending {
    ghost use Rattle.std.specs.Prelude.{ℕ, List, string_bytes};

    ghost Value = { List ℕ };

    ghost view = { λ p. string_bytes p.text };
}

impl Pending {
    /// Returns an empty text with room for 16 KiB. The only error is out of memory.
    pub fn new(alloc: Global) -> Result<Pending, AllocError>
        ensures { IfOk result (λ p. p ≡ []) }
    {
        let text = String::with_capacity(alloc, CAPACITY)?;
        Ok(Pending { text })
    }

    /// Writes all text that waits. If it refuses, a prefix of that text is written.
    pub fn flush<O: ByteOutput>(&mut self, out: &mut O) -> io::Result<()>
        requires { MayWrite (O.state out.old) }
        ensures ok { OnOk result (Writes (O.state out.old) (O.state out.new) self.old
            × (self.new ≡ [])) }
        ensures err { OnErr result (FailsToWrite (O.state out.old) (O.state out.new) self.old) }
    {
        write_text(out, self.text.as_bytes())?;
        self.text.clear();
        Ok(())
    }

    /// Writes the text that waits if this many more bytes would not fit.
    fn make_room<O: ByteOutput>(&mut self, bytes: usize, out: &mut O) -> io::Result<()>
        requires { MayWrite (O.state out.old) }
        ensures ok { OnOk result (WritesAllBut (O.state out.old) (O.state out.new) self.new
            self.old) }
        ensures err { OnErr result (FailsToWrite (O.state out.old) (O.state out.new) self.old) }
    {
        if bytes > CAPACITY.saturating_sub(self.text.len()) {
            self.flush(out)?;
        }
        Ok(())
    }

    /// Adds the text to what waits. If it does not fit, what waits is written first. A text for which there is neither
    /// room nor memory is written at once.
    pub fn push<O: ByteOutput>(&mut self, text: &str, out: &mut O) -> io::Result<()>
        requires { MayWrite (O.state out.old) }
        ensures ok { OnOk result (WritesAllBut (O.state out.old) (O.state out.new) self.new
            (self.old ++ text.now)) }
        ensures err { OnErr result (FailsToWrite (O.state out.old) (O.state out.new) (self.old
            ++ text.now)) }
    {
        self.make_room(text.len(), out)?;
        let Err(_) = self.text.push_str(text) else {
            return Ok(());
        };
        self.flush(out)?;
        write_text(out, text.as_bytes())
    }
}
