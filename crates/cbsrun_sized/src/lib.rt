//! Sketches of loads, sized: each server that has no reservation gets the one of least share that promises its jobs. The
//! answer is a load file.
#![tactic(auto)]

mod admitted;
mod given;
mod not_sized;
mod same;
mod sized;
mod text;
mod told;

pub use not_sized::NotSized;
pub use sized::sized_load;
pub use told::not_sized_text;
