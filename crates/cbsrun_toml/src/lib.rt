//! TOML values, pairs and arrays of tables, read from the start of a text with the tokens of `toml_parser`.
#![tactic(auto)]

mod documents;
mod lines;
mod tables;
mod values;

pub use cbsrun_toml_tokens::{Room, Stop, ends_line, key_equals};
pub use documents::{arrays_before, document, skip_bom};
pub use lines::{array_header, pairs};
pub use tables::tables as array_of_tables;
pub use values::{after_element, put, value};
