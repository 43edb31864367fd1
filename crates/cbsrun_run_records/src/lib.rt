//! The record of a run, as a text that was read back.
#![tactic(auto)]

mod not_recorded;
mod recorded;
mod same;
mod text;
mod told;

pub use not_recorded::NotRecorded;
pub use recorded::{RecordForm, recorded_run};
