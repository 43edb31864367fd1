//! A job that ends early: in hindsight it had only the units that it got.
#![tactic(auto)]

mod theorem;

pub use theorem::all_end_early;
