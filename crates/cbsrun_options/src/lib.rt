//! The options of a command line, and what they ask for.
#![tactic(auto)]

mod actions;
mod options;
mod run_drawing;

pub use actions::{
    Action, Asked, Changes, Drawing, Form, LAST_END, Listing, LoadReport, LoadSweep, MOST_RUNS,
    MOST_SEED, Seeds, SweepForm, Verb,
};
pub use cbsrun_window::Window;
pub use options::{Options, action_of, are_enough, several_files_text, wrong_options_text};
pub use run_drawing::RunDrawing;
