//! The explanation of a fault of a task file or a load file, for a person. It is printed below the line of the fault.
#![tactic(auto)]

mod faults;
mod key_line;
mod not_toml;
mod notes;
mod pieces;
mod remarks;
mod shown;
mod values;

pub use faults::{explain, explain_in};
