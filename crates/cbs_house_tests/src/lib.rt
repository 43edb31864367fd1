//! Tests of the house and its clients, with callers of cbs_house and of cbs_embed.
#![tactic(auto)]

#[cfg(test)]
pub mod callers;
#[cfg(test)]
mod tests;
