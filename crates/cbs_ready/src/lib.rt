//! The list of ready servers, in the order of the choice.
#![tactic(auto)]

mod entries;
mod ready_list;

pub use entries::Entry;
pub use ready_list::ReadyList;
