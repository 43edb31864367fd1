//! What a host gives to a house: a gate, a sink and a meter; also the result of a poll, and how a thread rests.
#![tactic(auto)]

mod gate;
mod meter;
mod pause;
mod poll;
mod sink;

pub use gate::{Gate, OpenGate};
pub use meter::{ClockMeter, Meter, NoMeter};
pub use pause::Pause;
pub use poll::Poll;
pub use sink::{NoSink, Sink};
