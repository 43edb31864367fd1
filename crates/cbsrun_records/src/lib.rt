//! Records: named servers with their plan and modes, and the steps that were made on them. They are read from the bytes
//! of a TOML document, or of one with a tape after it.
#![tactic(auto)]

mod entries;
mod file;
mod kind;
mod parts;
mod record;
mod taped;
mod top;

pub use file::{read_record, read_record_within, record_in};
pub use kind::is_record;
pub use parts::text_of;
pub use record::Record;
pub use taped::cut_after;
