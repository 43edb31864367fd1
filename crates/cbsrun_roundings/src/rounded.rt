//! A time of a load file that is no whole number of ticks.

/// A time of a load file that is no whole number of ticks.
#[derive(Clone, Copy)]
pub(crate) struct Rounded<'a> {
    /// The name of the server of the table in which the time stands, or `top`.
    pub owner: &'a str,
    /// Its key.
    pub key: &'a str,
    /// Its text, as it stands in the file.
    pub text: &'a str,
    /// The number of ticks as which it is taken.
    pub ticks: u64,
}
