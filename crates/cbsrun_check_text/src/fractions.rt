//! Shares of the time as text.

ghost use Rattle.std.specs.Prelude.{◌≡◌, ◌++◌, ◌+◌, ◌^◌, ◌<◌, IfOk, OnOk, string_bytes};
ghost use Rattle.cbsrun_check_text.specs.Fractions.{greatest_divisor, fraction_text, percent_text};

use cbsrun_sizing::greatest_common_divisor;
use cbsrun_text::append_pair;
use std::alloc::{AllocError, Global};

/// A part of a whole.
#[derive(Clone, Copy)]
pub(crate) struct Share {
    part: u64,
    whole: u64,
    ghost some: { 0 < whole },
}

impl Share {
    /// Returns a part of a whole.
    pub(crate) fn new(part: u64, whole: u64) -> Share
        requires { 0 < whole }
        ensures part { result.part ≡ part }
        ensures whole { result.whole ≡ whole }
    {
        Share { part, whole }
    }

    /// Returns the share as a shortened fraction. The only error is out of memory.
    pub(crate) fn fraction(self, alloc: Global) -> Result<String, AllocError>
        ensures { IfOk result (λ text. string_bytes text ≡ fraction_text self.part self.whole) }
    {
        let mut text = String::new(alloc);
        append_fraction(&mut text, "", u128::from(self.part), u128::from(self.whole))?;
        Ok(text)
    }

    /// Returns the share in per cent. The only error is out of memory.
    pub(crate) fn percent(self, alloc: Global) -> Result<String, AllocError>
        ensures { IfOk result (λ text. string_bytes text ≡ percent_text self.part self.whole) }
    {
        let mut text = String::new(alloc);
        append_percent(&mut text, u128::from(self.part), u128::from(self.whole))?;
        Ok(text)
    }
}

/// Returns the greatest number that divides both.
fn divisor(part: u128, whole: u128) -> u128
    requires { 0 < whole }
    ensures value { result ≡ greatest_divisor part whole }
    ensures some { 0 < result }
{
    greatest_common_divisor(part, whole)
}

/// Appends a word, and a part of a whole as a shortened fraction. The whole must not be 0. The only error is out of
/// memory.
#[tactic(auto, unfolding(crate::specs::Fractions::fraction_text))]
pub fn append_fraction(
    text: &mut String,
    word: &str,
    part: u128,
    whole: u128,
) -> Result<(), AllocError>
    requires { 0 < whole }
    ensures { OnOk result (string_bytes text.new ≡ string_bytes text.old ++ word.now
        ++ fraction_text part whole) }
{
    let divisor = divisor(part, whole);
    append_pair(text, word, part / divisor)?;
    append_pair(text, "/", whole / divisor)
}

/// Appends a part of a whole in per cent, with one decimal, rounded, a half upward. The whole must not be 0, and both
/// numbers together must be below 2^112. The only error is out of memory.
#[tactic(auto, unfolding(crate::specs::Fractions::percent_text))]
pub fn append_percent(text: &mut String, part: u128, whole: u128) -> Result<(), AllocError>
    requires some { 0 < whole }
    requires small { part + whole < 2 ^ 112 }
    ensures { OnOk result (string_bytes text.new ≡ string_bytes text.old
        ++ percent_text part whole) }
{
    let tenths = (2000 * part + whole) / (2 * whole);
    append_pair(text, "", tenths / 10)?;
    append_pair(text, ".", tenths % 10)?;
    text.push_str(" %")
}
