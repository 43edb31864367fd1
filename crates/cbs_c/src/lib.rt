//! The library for C: the calls of `cbs_embed` with names and types of C, as `cbs.h` declares them. Each call returns a
//! status: 0, or [`Refusal::status`](cbs_embed::Refusal::status). A call that refuses changes nothing, and writes
//! nothing to its out parameters.
#![tactic(auto)]

mod client;
mod handles;
mod house;
mod live;
mod pace;
mod status;
mod values;
mod version;

pub use pace::Next;
pub use values::{Turn, Unit, View};
pub use version::{MAJOR, MINOR, PATCH};
