//! Tapes: the steps of a run, as bytes.
#![tactic(auto)]

mod entry;
mod marks;
mod reading;
mod tape;
mod theorem;
mod writing;

pub use entry::{Ending, Entry};
pub use reading::{TapeRead, read};
pub use tape::Tape;
pub use theorem::{all_fronts, all_pieces};
pub use writing::write;
