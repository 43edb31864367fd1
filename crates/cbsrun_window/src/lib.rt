//! The window of ticks that a picture shows, stretches of ticks in which one thing goes on, and counts of these in a cell.
#![tactic(auto)]

mod counts;
mod shown;
mod stretch;
mod stretches;
mod window;

pub use counts::Counts;
pub use shown::{NothingShown, shown_of};
pub use stretch::{Kind, Stretch};
pub use stretches::Stretches;
pub use window::{MOST_TICKS, Window, WindowError};
