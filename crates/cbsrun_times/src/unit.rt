//! Units of time and of frequency.

ghost use Rattle.std.specs.Prelude.{◌≡◌, ◌≤◌, ◌<◌};
ghost use Rattle.cbsrun_times.specs.Units.{is_frequency, length_in, unit_of};

use crate::decimal::Decimal;

/// A unit of a time, or of a frequency.
#[derive(Clone, Copy, PartialEq, Eq)]
pub(crate) enum Unit {
    /// `s`
    Seconds,
    /// `ms`
    Milliseconds,
    /// `us`
    Microseconds,
    /// `ns`
    Nanoseconds,
    /// `Hz`
    Hertz,
    /// `kHz`
    Kilohertz,
}

/// A length of time, as a fraction of nanoseconds. It is none if `of` is 0.
#[derive(Clone, Copy)]
pub(crate) struct Length {
    pub nanoseconds: u128,
    pub of: u128,
}

/// Returns the unit with this name, or `None` if there is none.
pub(crate) fn unit_of(name: &str) -> Option<Unit>
    ensures { result ≡ unit_of name.now }
{
    match name {
        "s" => Some(Unit::Seconds),
        "ms" => Some(Unit::Milliseconds),
        "us" => Some(Unit::Microseconds),
        "ns" => Some(Unit::Nanoseconds),
        "Hz" => Some(Unit::Hertz),
        "kHz" => Some(Unit::Kilohertz),
        _ => None,
    }
}

impl Unit {
    /// Returns whether this is a unit of frequency.
    pub(crate) fn is_frequency(self) -> bool
        ensures { result ≡ is_frequency self }
    {
        matches!(self, Unit::Hertz | Unit::Kilohertz)
    }

    /// Returns the length of so many units. A frequency stands for the time from one to the next.
    pub(crate) fn length(self, count: Decimal) -> Length
        requires parts { count.parts < 1000000000000000000 }
        requires of { count.of ≤ 1000000000 }
        ensures value { result ≡ length_in self count }
        ensures short { (result.nanoseconds < 1000000000000000000000000000)
            × (result.of < 1000000000000000000) }
    {
        let parts = u128::from(count.parts);
        let of = u128::from(count.of);
        let (nanoseconds, of) = match self {
            Unit::Seconds => (parts * 1_000_000_000, of),
            Unit::Milliseconds => (parts * 1_000_000, of),
            Unit::Microseconds => (parts * 1_000, of),
            Unit::Nanoseconds => (parts, of),
            Unit::Hertz => (of * 1_000_000_000, parts),
            Unit::Kilohertz => (of * 1_000_000, parts),
        };
        Length { nanoseconds, of }
    }
}
