//! Numbers as text.

ghost use Rattle.std.specs.Prelude.{◌≡◌, ◌≤◌, ◌++◌, IfOk, OnOk, string_bytes};
ghost use Rattle.cbsrun_text.specs.Numbers.{digits_of};

use itoa::{Buffer, Integer};
use std::alloc::{AllocError, Global};

/// Appends a word and a number in decimal. The only error is out of memory.
pub fn append_pair<N: Integer>(text: &mut String, word: &str, number: N) -> Result<(), AllocError>
    ensures { OnOk result (string_bytes text.new ≡ string_bytes text.old ++ word.now
        ++ N.text number) }
{
    text.push_str(word)?;
    text.push_str(Buffer::new().format(number))
}

/// Returns how many digits a number has. The only error is out of memory.
pub fn digits_of(alloc: Global, number: u64) -> Result<u64, AllocError>
    ensures value { IfOk result (λ digits. digits ≡ digits_of number) }
    ensures few { IfOk result (λ digits. digits ≤ 20) }
{
    let digits = number.to_string(alloc)?;
    Ok((digits.len() as u64).min(20))
}
