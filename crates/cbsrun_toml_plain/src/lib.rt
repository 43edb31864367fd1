//! Tables in their plain spelling, read pair by pair from the start of a text: bare keys, and numbers of plain digits.
#![tactic(auto)]

mod blanks;
mod numbers;
mod pairs;

pub use blanks::{after_trivia, after_word};
pub use numbers::number_of;
pub use pairs::{Layout, first_value, next_value, table_end};
