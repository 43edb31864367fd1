//! The words of a command line, and the request that they make.
#![tactic(auto)]

mod fault;
mod texts;
mod words;

pub use fault::WordsFault;
pub use words::read_words;
