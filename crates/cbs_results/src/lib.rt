//! The results of the servers, each server's in the order of its jobs and each once.
#![tactic(auto)]

mod collector;
mod error;
mod shelf;

pub use collector::Collector;
pub use error::CollectError;
