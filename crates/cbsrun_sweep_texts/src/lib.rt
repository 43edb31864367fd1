//! What many runs of a load tell, as text, as CSV and as JSON.
#![tactic(auto)]

mod cells;
mod csv;
mod json;
mod rows;
mod text;

pub use csv::sweep_csv;
pub use json::sweep_json;
pub use text::sweep_text;
