//! Reservations with which the jobs of a server are promised in time, and the one of least share among them.
#![tactic(auto)]

mod proposal;
mod remedy;
mod wanted;

pub use proposal::propose;
pub use remedy::{Proposal, Remedy, remedy_for};
pub use wanted::Wanted;
