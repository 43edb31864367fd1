//! The jobs of a run as CSV: a header line, and then a line for each job that came.
#![tactic(auto)]

mod job;
mod jobs;
mod lines;
mod view;

pub use view::CsvView;
