//! Bytes of readers and writers that count their failed calls: all bytes of a reader, a whole text to a writer, and
//! text that waits to be written.
#![tactic(auto)]

mod input;
mod output;
mod pending;

pub use input::{ByteInput, FromRead, MAX_BYTES, ReadError, read_all};
pub use output::{ByteOutput, ToWrite, write_pieces, write_text};
pub use pending::Pending;
