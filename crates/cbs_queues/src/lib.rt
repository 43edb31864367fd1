//! The unfinished jobs of all servers, with one queue for each server, all in one slab.
#![tactic(auto)]

mod chains;
mod queues;

pub use queues::Queues;
