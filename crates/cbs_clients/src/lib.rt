//! A house and its clients: what one thread does with the rings of all clients.
#![tactic(auto)]

mod client;
mod drain;
mod error;
mod house;
mod marks;
mod message;
mod open;
mod results;
mod rings;
mod turn;
mod until_closed;

pub use cbs_host::{ClockMeter, Gate, Meter, NoMeter, NoSink, OpenGate, Pause, Poll, Sink};
pub use cbs_rate::MAX_RING;
pub use client::{Client, SendRefused};
pub use error::{HouseError, SendError};
pub use house::House;
pub use message::Message;
pub use open::{open_house, open_house_of};
pub use turn::{Polls, Turn, poll_each, poll_marked};
