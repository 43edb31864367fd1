//! Times in whole ticks.

ghost use Rattle.std.specs.Prelude.{◌≡◌, ◌≤◌, ◌<◌, IfSome};
ghost use Rattle.cbsrun_times.specs.Ticks.{rounded, few, ticks_of, tick_of};

use crate::decimal::{decimal_of, parted};
use crate::unit::unit_of;

/// The longest tick: a second, in nanoseconds.
pub const LONGEST_TICK: u64 = 1_000_000_000;

/// The most ticks of a time.
pub const MOST_TICKS: u64 = 1_000_000_000_000;

/// What becomes of a time that is no whole number of ticks.
#[derive(Clone, Copy, Debug, PartialEq, Eq)]
pub enum Rounding {
    /// It is the next greater number: for work, budgets and the end of a simulation.
    Up,
    /// It is the next lesser number: for the first release, the time between jobs, and the time within which they are
    /// wanted.
    Down,
    /// It is refused: for periods.
    Whole,
}

/// Returns a fraction as a whole number, or `None` if it is to be whole and is not.
fn rounded(rounding: Rounding, part: u128, of: u128) -> Option<u128>
    requires { 0 < of }
    ensures { result ≡ rounded rounding part of }
{
    match rounding {
        Rounding::Up => Some(part.div_ceil(of)),
        Rounding::Down => Some(part / of),
        Rounding::Whole if part % of == 0 => Some(part / of),
        Rounding::Whole => None,
    }
}

/// Returns the number, unless it is more than [`MOST_TICKS`].
fn few(ticks: u128) -> Option<u64>
    ensures value { result ≡ few ticks }
    ensures few { IfSome result (λ ticks. ticks ≤ 1000000000000) }
{
    if ticks <= u128::from(MOST_TICKS) {
        Some(ticks as u64)
    } else {
        None
    }
}

/// Returns how many ticks a time is, 0 to [`MOST_TICKS`]. `tick` is the length of a tick in nanoseconds.
///
/// A time is a number, a space and a unit: `s`, `ms`, `us` or `ns`. The number has 1 to 9 digits before a decimal point,
/// and 1 to 9 after it, if there is one. A text may also tell a frequency, in `Hz` or `kHz`. It stands for the time from
/// one event to the next, and is refused if it is to be rounded up.
///
/// Returns `None` for any other text, and for more than [`MOST_TICKS`] ticks. Returns `None` if a time has to be a whole
/// number of ticks and is not. Returns `None` if `tick` or the frequency is 0.
#[tactic(auto, unfolding(crate::specs::Ticks::ticks_of))]
pub fn ticks_of(tick: u64, rounding: Rounding, text: &str) -> Option<u64>
    ensures value { result ≡ ticks_of tick rounding text.now }
    ensures few { IfSome result (λ ticks. ticks ≤ 1000000000000) }
{
    let (number, unit) = parted(text, ' ')?;
    let count = decimal_of(number)?;
    let unit = unit_of(unit)?;
    if unit.is_frequency() && rounding == Rounding::Up {
        return None;
    }
    let length = unit.length(count);
    let of = length.of * u128::from(tick);
    if of == 0 {
        return None;
    }
    few(rounded(rounding, length.nanoseconds, of)?)
}

/// Returns how many nanoseconds a tick is that a text tells, as [`ticks_of`] reads it: 1 to [`LONGEST_TICK`], and whole.
/// Returns `None` for any other text.
#[tactic(auto, unfolding(crate::specs::Ticks::tick_of))]
pub fn tick_of(text: &str) -> Option<u64>
    ensures value { result ≡ tick_of text.now }
    ensures bounds { IfSome result (λ tick. (0 < tick) × (tick ≤ 1000000000)) }
{
    let tick = ticks_of(1, Rounding::Whole, text)?;
    if tick == 0 || tick > LONGEST_TICK {
        return None;
    }
    Some(tick)
}
