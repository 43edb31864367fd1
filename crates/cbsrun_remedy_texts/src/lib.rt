//! What would do for a server whose jobs are not promised in time, as text: checks and reports tell it alike.
#![tactic(auto)]

mod remedy;

pub use remedy::append_remedy;
