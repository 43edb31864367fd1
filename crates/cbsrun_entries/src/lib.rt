//! The entries of a load file: each is one table, which spells a server or a source. The faults that are found are noted,
//! the first of them and how many there are.
#![tactic(auto)]

mod listed;
mod noted;
mod server;
mod source;
mod times;

pub use noted::Faults;
pub use server::{ServerEntry, is_taken, name_of, server_entry};
pub use source::{due_within, terms_entry};
pub use times::{optional_ticks_at, tick_at, ticks, ticks_at};
