//! A picture of a run, as SVG.
#![tactic(auto)]

mod head;
mod picture;
mod row;
mod scale;
mod style;

pub use picture::svg_text;
