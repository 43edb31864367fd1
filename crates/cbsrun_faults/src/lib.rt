//! The findings in a faulty task file or load file: the table, key and value that the fault is about, and what would
//! fit.
#![tactic(auto)]

mod broken;
mod document;
mod finding;
mod keys;
mod lines;
mod meant;
mod nearest;
mod refused;
mod spot;
mod wants;

pub use broken::{BadByte, Broken, Position, Quote, Wrong, bad_byte, broken_at};
pub use document::{Document, Kind, server_names};
pub use finding::{Finding, find};
pub use keys::{Key, Subject, Want, Words};
pub use lines::{Line, header_line, line_of};
pub use meant::{Meant, meant_by};
pub use nearest::nearest_word;
pub use refused::{Refused, refused_at, reservations};
pub use spot::{Spot, spot_at};
pub use wants::{MAX_NUMBER, first_bad_tick, first_bad_unit, two_numbers};
