//! Jobs that are only their number of units, and the law that nothing else of a job counts.
#![tactic(auto)]

mod count;
mod theorem;

pub use count::CountJob;
pub use theorem::all_by_units;
