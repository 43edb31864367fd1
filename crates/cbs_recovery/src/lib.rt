//! How a delay by charges is made up: by what of the processor is not reserved.
#![tactic(auto)]

mod theorem;

pub use theorem::all_recover;
