//! A bound on memory, as an environment variable gives it.

ghost use Rattle.std.specs.Prelude.{◌*◌, ◌^◌, ◌-◌, ◌<◌, min};
ghost use Rattle.std.specs.Result.{OkIff};
ghost use Rattle.std.specs.Str.Parse.{IsNumeral};
ghost use Rattle.cbsrun_commands.specs.Environment.{digits, number_in};

use std::num::ParseIntError;

/// The environment variable that says how much memory a file may need, in MiB.
pub const MEMORY_VARIABLE: &str = "CBSRUN_MEMORY";

const MEBIBYTE: u64 = 1_048_576;

/// Returns how many bytes this many MiB are, or `u64::MAX` if there are more. The MiB are a whole number in decimal.
///
/// Refuses a text that is no such number, and a number of 2^64 or more.
pub fn memory_bound(mebibytes: &str) -> Result<u64, ParseIntError>
    ensures { OkIff result
        (IsNumeral 10 (digits mebibytes.now) × (number_in mebibytes.now < 2 ^ 64))
        (min (number_in mebibytes.now * 1048576) (2 ^ 64 - 1)) }
{
    let mebibytes = mebibytes.parse::<u64>()?;
    Ok(mebibytes.saturating_mul(MEBIBYTE))
}
