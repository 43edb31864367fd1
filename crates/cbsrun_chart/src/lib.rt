//! What a picture shows of a run: what each server does in each tick of a window, and which jobs come and end then.
#![tactic(auto)]

mod chart;
mod course;
mod deadlines;
mod hidden;
mod jobs;
mod marks;
mod picture;
mod row;
mod steps;
mod view;
mod waits;

pub use cbsrun_window::{Counts, Kind, MOST_TICKS, Stretch, Window, WindowError};
pub use chart::{Chart, ServerChart};
pub use course::Corner;
pub use hidden::{Hidden, LeftOut};
pub use jobs::{ChartJob, are_in_turn, job_in_turn, job_numbered};
pub use picture::{Drawn, Picture};
pub use view::ChartView;
