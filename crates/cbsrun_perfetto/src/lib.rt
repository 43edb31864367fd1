//! A picture of a run as a trace, for programs that display traces.
#![tactic(auto)]

mod events;
mod line;
mod marks;
mod server;
mod slices;
mod times;
mod trace;

pub use trace::trace_json;
