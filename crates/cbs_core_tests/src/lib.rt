//! Tests of cbs_core and of the crates below it, and a caller of each.
#![tactic(auto)]

#[cfg(test)]
pub mod callers;
#[cfg(test)]
mod tests;
