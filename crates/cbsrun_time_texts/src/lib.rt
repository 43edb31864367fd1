//! Ticks as times, in milliseconds.
#![tactic(auto)]

mod text;

pub use text::{append_amount, append_milliseconds, append_part, append_ticks, append_time};
