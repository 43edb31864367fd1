//! Numbers of plain digits.

ghost use Rattle.std.specs.Prelude.{◌≡◌, ℕ, pos, ◌+◌, ◌^◌, ◌<◌, ◌≤◌, true, length, ◌++◌, Some, IfSome};
ghost use Rattle.std.specs.Fmt.{decimal};
ghost use Rattle.toml_parser.specs.Lexical.{first};
ghost use Rattle.toml.specs.Data.{integer};
ghost use Rattle.toml.specs.Parse as spec;
ghost use Rattle.cbsrun_toml_plain.specs.Pairs.{EndsNumber};

use toml_parser::text::{byte_at, first, skip};

/// Returns the digit at the start of a text, or `None` if none stands there.
fn digit_of(s: &str) -> Option<u64>
    ensures { IfSome result (λ d. (d ≤ 9) × (first s.now ≡ 48 + d)) }
{
    let byte = first(s);
    if !byte.is_ascii_digit() {
        return None;
    }
    Some(u64::from(byte - b'0'))
}

/// Returns the number whose digits stand at the start of a text, and the text after them. Returns `None` if no digit
/// stands there, if a 0 stands before other digits, or if there are more than 18 digits.
fn digits_of(s: &str) -> Option<(u64, &str)>
    ensures spelled { IfSome result (λ p. s.now ≡ decimal p.0 ++ p.1.now) }
    ensures small { IfSome result (λ p. p.0 < 10 ^ 18) }
{
    let mut number = digit_of(s)?;
    let mut rest = skip(s, 1);
    'digits: loop {
        let Some(digit) = digit_of(rest) else {
            return Some((number, rest));
        };
        if number == 0 || number >= 100_000_000_000_000_000 {
            return None;
        }
        number = number * 10 + digit;
        rest = skip(rest, 1);
    }
}

/// Returns whether a number may end before a text. Some texts before which one may end are told with `false`.
fn ends_number(s: &str) -> bool
    ensures { result ≡ true → EndsNumber s.now }
{
    match first(s) {
        b',' | b']' | b'}' | b'\t' | b'\n' | b'\r' | b'#' => true,
        b' ' => !byte_at(s, 1).is_ascii_digit(),
        _ => false,
    }
}

/// Returns the number that digits spell at the start of a text, and the text after it. Returns `None` if none stands
/// there.
pub fn number_of(s: &str) -> Option<(u64, &str)>
    ensures value { IfSome result (λ p. (depth : ℕ) → spec.val depth s.now
        ≡ Some (integer (pos p.0), p.1.now)) }
    ensures shorter { IfSome result (λ p. length p.1.now < length s.now) }
{
    let (number, rest) = digits_of(s)?;
    if !ends_number(rest) {
        return None;
    }
    Some((number, rest))
}
