//! Where a time stands.

use cbsrun_times::Rounding;

/// Where a time stands, and how it is rounded there.
#[derive(Clone, Copy)]
pub(crate) struct Place<'a> {
    /// The name of the server of the table in which the time stands, or `top`.
    pub owner: &'a str,
    /// Its key.
    pub key: &'a str,
    /// How it is rounded.
    pub rounding: Rounding,
}

/// A kind of table in an array.
#[derive(Clone, Copy)]
pub(crate) enum Kind {
    /// A server.
    Server,
    /// A source.
    Source,
}
