//! The report of a run, as text: a verdict, tables and notes.
#![tactic(auto)]

mod cells;
mod notes;
mod numbers;
mod report;
mod tables;
mod text;
mod totals;
mod verdict;

pub use report::{RunReport, ServerReport};
pub use text::report_text;
