//! Why the output could not be written.

ghost use Rattle.std.specs.Prelude.{◌-◌, ◌<◌, ◌^◌};
ghost use Rattle.cbsrun_io.specs.Writers.{MayWrite};

use cbsrun_commands::{ByteOutput, ToWrite, write_pieces};
use std::alloc::Global;

/// Writes an empty line, and why the last write to standard output failed, if the system gave a reason. If out of memory,
/// writes nothing.
pub fn write_loss<W, E: ByteOutput>(alloc: Global, out: &ToWrite<W>, err: &mut E)
    requires { MayWrite (E.state err.old) }
{
    let Some(error) = out.system_error() else {
        return;
    };
    if let Ok(text) = format!(in alloc; "cannot write standard output: {error}") {
        let _written = write_pieces(err, &["\nerror: ", text.as_str(), "\n"]);
    }
}
