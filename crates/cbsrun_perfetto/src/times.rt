//! Times in microseconds.

ghost use Rattle.std.specs.Prelude.{◌≡◌, ◌++◌, [], if◌then◌else◌, OnOk, decimal, string_bytes};
ghost use Rattle.cbsrun_perfetto.specs.Times.{decimals_text, digits_text, microseconds_text, tick_text};

use cbsrun_time_texts::append_milliseconds;
use itoa::Buffer;
use std::alloc::AllocError;

/// Appends a digit, unless it and those after it are 0, which `is_end` says.
fn append_unless(text: &mut String, is_end: bool, digit: u64) -> Result<(), AllocError>
    ensures { OnOk result (string_bytes text.new ≡ string_bytes text.old
        ++ (if is_end then [] else decimal digit)) }
{
    if is_end {
        return Ok(());
    }
    text.push_str(Buffer::new().format(digit))
}

/// Appends the digits of a part of a microsecond, fewer than 1,000 nanoseconds, up to the last that is not 0.
fn append_digits(text: &mut String, part: u64) -> Result<(), AllocError>
    ensures { OnOk result (string_bytes text.new ≡ string_bytes text.old ++ digits_text part) }
{
    text.push_str(Buffer::new().format(part / 100))?;
    append_unless(text, part % 100 == 0, part / 10 % 10)?;
    append_unless(text, part % 10 == 0, part % 10)
}

/// Appends the decimals of so many nanoseconds as microseconds, if there are any.
fn append_decimals(text: &mut String, part: u64) -> Result<(), AllocError>
    ensures { OnOk result (string_bytes text.new ≡ string_bytes text.old ++ decimals_text part) }
{
    if part == 0 {
        return Ok(());
    }
    text.push_str(".")?;
    append_digits(text, part)
}

/// Appends so many ticks in microseconds, by the nanoseconds of a tick. If these are not known, a tick is a microsecond.
/// It has as many decimals as it needs to be exact.
pub(crate) fn append_microseconds(
    text: &mut String,
    nanoseconds: Option<u64>,
    ticks: u64,
) -> Result<(), AllocError>
    ensures { OnOk result (string_bytes text.new ≡ string_bytes text.old
        ++ microseconds_text nanoseconds ticks) }
{
    let Some(nanoseconds) = nanoseconds else {
        return text.push_str(Buffer::new().format(ticks));
    };
    let time = u128::from(nanoseconds) * u128::from(ticks);
    text.push_str(Buffer::new().format(time / 1000))?;
    append_decimals(text, (time % 1000) as u64)
}

/// Appends how long a tick is, by its nanoseconds.
pub(crate) fn append_tick(text: &mut String, nanoseconds: Option<u64>) -> Result<(), AllocError>
    ensures { OnOk result (string_bytes text.new ≡ string_bytes text.old ++ tick_text nanoseconds) }
{
    let Some(nanoseconds) = nanoseconds else {
        return text.push_str("a microsecond");
    };
    append_milliseconds(text, nanoseconds, 1)?;
    text.push_str(" ms")
}
