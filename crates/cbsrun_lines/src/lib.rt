//! The lines of steps, written while the steps are made: the steps of a task file, or of a load's simulation.
#![tactic(auto)]

mod line;
mod lines;
mod run_error;
mod theorem;
mod trace;

pub use lines::write_lines;
pub use run_error::RunError;
pub use theorem::all_lines_again;
pub use trace::replay;
