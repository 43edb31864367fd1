//! The tokens of a TOML text, the reasons why reading it stops, and how much memory may hold what is read of it.
#![tactic(auto)]

mod room;
mod stop;
mod tokens;

pub use room::{PAIR, Room, TABLE, size_of_value};
pub use stop::Stop;
pub use tokens::{atom, dotted, ends_line, key_equals, simple};
