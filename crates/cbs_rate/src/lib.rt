//! Reservations and plans. A reservation is a budget of so many ticks in every period of so many ticks. A plan is a
//! list of reservations whose total bandwidth stays within a bound.
#![tactic(auto)]

mod bandwidth;
mod bound;
mod error;
mod limits;
mod multiple;
mod plan;
mod ratio;
mod reservation;
mod room;

pub use bandwidth::Bandwidth;
pub use bound::{Bound, MAX_DENOMINATOR};
pub use error::{AdmitError, RateError};
pub use limits::MAX_RING;
pub use plan::{MAX_COMMON_MULTIPLE, MAX_SERVERS, Plan};
pub use ratio::Ratio;
pub use reservation::{MAX_PERIOD, Reservation};
