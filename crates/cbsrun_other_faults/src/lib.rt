//! The explanations of the faults of a load file after its first one, for a person. They are printed below that of the
//! first.
#![tactic(auto)]

mod others;

pub use others::explain_others;
