//! The servers and the steps of task files, entry by entry. Steps are read one by one from the text of a TOML document.
#![tactic(auto)]

mod entries;
mod format;
mod plain;
mod steps;
mod terms;

pub use entries::{ServerEntry, server_entry, step_entry};
pub use format::{Format, format_at};
pub use steps::{StepsRead, step_array, step_tables};
pub use terms::Terms;
