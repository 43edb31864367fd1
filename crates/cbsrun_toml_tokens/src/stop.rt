//! The reasons why reading stops.

/// The reason why a text was not read to its end.
#[derive(Clone, Copy)]
pub enum Stop {
    /// The text is no TOML.
    NotToml,
    /// Out of memory.
    OutOfMemory,
    /// The text has a shape that is not read here: a key with dots, or a table with a header.
    Unusual,
}
