//! Keys and values of the TOML files that are written. The only error of each call is out of memory.
#![tactic(auto)]

mod text;

pub use text::{append_executor, append_number, append_ticks, append_time, append_word};
