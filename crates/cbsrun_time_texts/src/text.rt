//! Times as text, in milliseconds.

ghost use Rattle.std.specs.Prelude.{◌≡◌, ◌++◌, ◌<◌, OnOk, string_bytes};
ghost use Rattle.cbsrun_time_texts.specs.Texts.{amount_text, decimals_text, milliseconds_text, nanoseconds_text, part_digits, part_text, places, ticks_text, time_text, unit_text};

use itoa::Buffer;
use std::alloc::AllocError;

/// The nanoseconds of each place after the point of a number of milliseconds.
const PLACES: [u64; 6] = [100_000, 10_000, 1_000, 100, 10, 1];

/// Appends the digits of a part of a millisecond, fewer than 10^6 nanoseconds, place by place, up to the last that is not
/// 0.
fn append_digits(text: &mut String, part: u64) -> Result<(), AllocError>
    ensures { OnOk result (string_bytes text.new ≡ string_bytes text.old ++ part_digits places part) }
{
    let mut left = part;
    for place in PLACES {
        if left == 0 {
            return Ok(());
        }
        text.push_str(Buffer::new().format(left / place))?;
        left %= place;
    }
    Ok(())
}

/// Appends the decimals of so many nanoseconds as milliseconds, if there are any.
fn append_decimals(text: &mut String, part: u64) -> Result<(), AllocError>
    ensures { OnOk result (string_bytes text.new ≡ string_bytes text.old ++ decimals_text part) }
{
    if part == 0 {
        return Ok(());
    }
    text.push_str(".")?;
    append_digits(text, part)
}

/// Appends so many nanoseconds in milliseconds, without the unit. There are as many decimals as it needs to be exact.
#[tactic(auto, unfolding(crate::specs::Texts::nanoseconds_text))]
fn append_nanoseconds(text: &mut String, nanoseconds: u128) -> Result<(), AllocError>
    ensures { OnOk result (string_bytes text.new ≡ string_bytes text.old
        ++ nanoseconds_text nanoseconds) }
{
    text.push_str(Buffer::new().format(nanoseconds / 1_000_000))?;
    append_decimals(text, (nanoseconds % 1_000_000) as u64)
}

/// Appends the milliseconds of so many ticks, without the unit, by the nanoseconds of a tick. There are as many decimals
/// as it needs to be exact. The only error is out of memory.
pub fn append_milliseconds(text: &mut String, tick: u64, ticks: u64) -> Result<(), AllocError>
    ensures { OnOk result (string_bytes text.new ≡ string_bytes text.old
        ++ milliseconds_text tick ticks) }
{
    append_nanoseconds(text, u128::from(tick) * u128::from(ticks))
}

/// Appends a number of ticks: in milliseconds, if the nanoseconds of a tick are known. The unit is left out. The only error
/// is out of memory.
pub fn append_amount(text: &mut String, tick: Option<u64>, ticks: u64) -> Result<(), AllocError>
    ensures { OnOk result (string_bytes text.new ≡ string_bytes text.old ++ amount_text tick ticks) }
{
    match tick {
        Some(tick) => append_milliseconds(text, tick, ticks),
        None => text.push_str(Buffer::new().format(ticks)),
    }
}

/// Returns the unit of numbers that [`append_amount`] appends, for a table.
fn unit(tick: Option<u64>) -> &'static str
    ensures { result.now ≡ unit_text tick }
{
    match tick {
        Some(_) => " ms",
        None => "",
    }
}

/// Appends a number of ticks for a table: as milliseconds with the unit, if the nanoseconds of a tick are known, or else as
/// the number alone. The only error is out of memory.
pub fn append_time(text: &mut String, tick: Option<u64>, ticks: u64) -> Result<(), AllocError>
    ensures { OnOk result (string_bytes text.new ≡ string_bytes text.old ++ time_text tick ticks) }
{
    append_amount(text, tick, ticks)?;
    text.push_str(unit(tick))
}

/// Appends a number of ticks for a sentence: with `ms` or `ticks` at its end. The only error is out of memory.
pub fn append_ticks(text: &mut String, tick: Option<u64>, ticks: u64) -> Result<(), AllocError>
    ensures { OnOk result (string_bytes text.new ≡ string_bytes text.old ++ ticks_text tick ticks) }
{
    append_amount(text, tick, ticks)?;
    match tick {
        Some(_) => text.push_str(" ms"),
        None => text.push_str(" ticks"),
    }
}

/// Appends so many parts of a tick, of which `of` make up one, for a table: in milliseconds with the unit, by the
/// nanoseconds of a tick. A part of a nanosecond is left out. The only error is out of memory.
pub fn append_part(text: &mut String, tick: u64, parts: u64, of: u64) -> Result<(), AllocError>
    requires { 0 < of }
    ensures { OnOk result (string_bytes text.new ≡ string_bytes text.old ++ part_text tick parts of) }
{
    append_nanoseconds(text, u128::from(tick) * u128::from(parts) / u128::from(of))?;
    text.push_str(" ms")
}
