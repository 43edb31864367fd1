//! Runs that can be shown: loads that are simulated and task files that are replayed, with their outcome as a report or a
//! picture.
#![tactic(auto)]

mod end;
mod jobs;
mod load_steps;
mod picture;
mod progress;
mod recorded;
mod replay;
mod report;
mod run;
mod simulated;
mod steps;
mod theorem;
mod within;

pub use cbsrun_window::{NothingShown, shown_of};
pub use end::end_of;
pub use jobs::{csv_of, names_of};
pub use load_steps::show_load;
pub use picture::picture_of;
pub use progress::{NoProgress, Progress};
pub use replay::{Replay, clock_of};
pub use report::report_of;
pub use run::Run;
pub use simulated::SeededLoad;
pub use steps::show_steps;
pub use theorem::all_shown_again;
