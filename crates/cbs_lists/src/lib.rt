//! Definitions and lemmas about lists that the other crates share: a list with one element changed, two lists place by
//! place, and sums. The crate contains no code.
#![tactic(auto)]
