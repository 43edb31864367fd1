//! Blocks of a tape, each with a sum of all that stands before it in a file, so that a changed byte is told.
#![tactic(auto)]

mod reading;
mod sum;
mod theorem;
mod writing;

pub use reading::{NO_ENTRY, Stop, read_blocks};
pub use sum::Sum;
pub use theorem::{all_blocks, all_changes, all_told};
pub use writing::{MOST, TEXT_END, push_block};
