//! The times of a load file that are no whole number of ticks, as a table that tells as what each is taken.
#![tactic(auto)]

mod place;
mod rounded;
mod roundings;
mod table;
mod text;

pub use text::RoundingsText;
