//! The report of a run, as JSON.
#![tactic(auto)]

mod json;
mod parts;
mod server;
mod sums;

pub use json::report_json;
