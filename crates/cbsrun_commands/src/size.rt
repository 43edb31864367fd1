//! The command `size`: from the bytes of a sketch to a load file, and a status.

ghost use Rattle.cbsrun_commands.specs.Commands.{DoesOrLacks, EndsOrLacks};
ghost use Rattle.cbsrun_commands.specs.Outputs.{size_command, IsNotSized};
ghost use Rattle.cbsrun_lines.specs.Writers.{MayWrite};

use crate::ending::{Stopped, print, status_or_lack};
use crate::reading::sketch_file;
use cbsrun_io::ByteOutput;
use cbsrun_sized::{not_sized_text, sized_load};
use std::alloc::Global;

/// Prints the load file of the sketch that the bytes spell, with a reservation for each server. Returns `None` if it is
/// printed, and else why there is none.
fn size<O: ByteOutput>(
    alloc: Global,
    memory: u64,
    all: bool,
    name: &str,
    bytes: &[u8],
    out: &mut O,
) -> Result<Option<String>, Stopped>
    requires { MayWrite (O.state out.old) }
    ensures { DoesOrLacks (size_command all) (IsNotSized all) bytes.now result
        (O.state out.old) (O.state out.new) }
{
    let sketch = sketch_file(alloc, memory, bytes)?;
    let text = match sized_load(alloc, &sketch, all) {
        Ok(text) => text,
        Err(why) => {
            let told = not_sized_text(alloc, name, &sketch, why)?;
            return Ok(Some(told));
        }
    };
    print(&text, out)?;
    Ok(None)
}

/// Prints the load file of the sketch that the bytes spell, with a reservation for each server. A sketch is a load in which
/// a server may have no reservation yet. Such a server gets the one of least share, among those that are looked at, that
/// promises its jobs in time; if `all` is true, each server does. The explanation of a fault names the file `name`.
/// Returns the status.
///
/// At status 0 the load file is on `out`, whole, or a prefix of it if a write found a closed pipe, and nothing on `err`.
/// At status 1 there is no such load: why is on `err`, and nothing on `out`. At status 3 the file has a fault: the line
/// of the fault goes to `err`, with an explanation below it, and nothing to `out`. At status 4 the run ended early: the
/// line of the run fault goes to `err`, and `out` has a prefix of the load file. That prefix is empty unless a write
/// failed. A line that cannot be written changes no status.
///
/// A file that has to be read as one document may need `memory` bytes of memory. If it needs more, the status is 3, and the
/// line of out of memory goes to `err`.
pub fn size_bytes_within<O: ByteOutput, E: ByteOutput>(
    alloc: Global,
    memory: u64,
    all: bool,
    name: &str,
    bytes: &[u8],
    out: &mut O,
    err: &mut E,
) -> u8
    requires out { MayWrite (O.state out.old) }
    requires err { MayWrite (E.state err.old) }
    ensures { EndsOrLacks (size_command all) (IsNotSized all) name.now bytes.now
        (O.closed out.new)
        (O.state out.old) (O.state out.new) (E.state err.old) (E.state err.new) result }
{
    let ended = size(alloc, memory, all, name, bytes, out);
    status_or_lack(alloc, memory, name, bytes, ended, out.is_closed(), err)
}
