//! A picture of a run as text: a timeline in columns.
#![tactic(auto)]

mod grid;
mod legend;
mod lines;
mod ruler;
mod signs;
mod timeline;

pub use timeline::timeline_text;
