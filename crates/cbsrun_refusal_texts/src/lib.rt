//! The explanation of a server that a plan refuses, as a text for a person, and the page on which it is put together.
#![tactic(auto)]

mod limits;
mod over;
mod page;

pub use limits::append_not_admitted;
pub use page::{COLUMNS, Page, printable};
