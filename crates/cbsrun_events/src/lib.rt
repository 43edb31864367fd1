//! Steps as a view sees them, without their jobs. A view shows the same, whatever made the steps.
#![tactic(auto)]

mod seen;
mod view;

pub use seen::{Arrival, Event, Seen, ticks_of_run};
pub use view::View;
