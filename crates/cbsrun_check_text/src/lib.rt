//! The text about a file with no fault: the servers of a task file or a load, and the sources of a load.
#![tactic(auto)]

mod cells;
mod check;
mod fractions;
mod lateness;
mod notes;
mod servers;
mod sources;

pub use check::{check_load, check_plan, numbered};
pub use fractions::{append_fraction, append_percent};
pub use notes::append_why;
