//! What `check` tells of a file with no fault, as JSON.
#![tactic(auto)]

mod json;
mod plan;
mod promises;
mod server;
mod source;

pub use json::check_json;
pub use plan::check_plan_json;
