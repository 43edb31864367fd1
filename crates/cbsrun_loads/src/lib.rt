//! Load files: servers with a name, a mode and a reservation each, and sources of jobs for them. They are read from the
//! bytes of a TOML document.
#![tactic(auto)]

mod due;
mod faults;
mod file;
mod load;
mod sketch;
mod sketch_file;
mod sketch_server;
mod top;

pub use cbsrun_entries::{Faults, tick_at, ticks, ticks_at};
pub use faults::load_faults;
pub use file::{load_in, read_load, read_load_within, servers_of};
pub use load::Load;
pub use sketch::{Given, ServerSketch, Sketch};
pub use sketch_file::read_sketch_within;
pub use top::MAX_SOURCES;
