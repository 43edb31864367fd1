//! The house: one thread that serves the jobs of many clients, each over a ring of its own.
#![tactic(auto)]

mod at_work;
mod feed;
mod open;
mod round;
mod senders;
mod service;

pub use cbs_clients::{
    Client, ClockMeter, Gate, House, HouseError, MAX_RING, Message, Meter, NoMeter, NoSink,
    OpenGate, Poll, SendError, SendRefused, Sink, Turn, open_house, open_house_of,
};
pub use cbs_results::{CollectError, Collector};
pub use feed::{Feed, FeedsRefused, feeds_of};
pub use open::{OpenRefused, open_feeds};
pub use round::{Round, serve_round, serve_round_metered};
pub use service::{serve, serve_metered};
