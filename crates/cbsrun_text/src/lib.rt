//! Texts that several outputs share: rows of cells in columns, numbers, and the words for modes.
#![tactic(auto)]

mod cell;
mod columns;
mod modes;
mod numbers;
mod row;

pub use cell::Cell;
pub use columns::append_columns;
pub use modes::mode_word;
pub use numbers::{append_pair, digits_of};
pub use row::{ToCell, add_cells, cells};
