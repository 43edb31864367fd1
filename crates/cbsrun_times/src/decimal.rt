//! Numbers with a decimal point.

ghost use Rattle.std.specs.Prelude.{◌≡◌, ◌≤◌, ◌<◌, length, option_map, IfSome};
ghost use Rattle.std.specs.Char.{is_ascii_digit};
ghost use Rattle.std.specs.List.{list_all};
ghost use Rattle.cbsrun_times.specs.Decimals.{decimal_of, number_of, parted};

/// The most digits before the point, and after it.
const MAX_DIGITS: usize = 9;

/// A number with a decimal point: whole numbers of a part.
#[derive(Clone, Copy)]
pub(crate) struct Decimal {
    /// How many parts.
    pub parts: u64,
    /// How many parts make up one: a power of ten.
    pub of: u64,
}

/// Returns what stands before the first such mark in a text, and what stands after it, or `None` if it has none.
pub(crate) fn parted(text: &str, mark: char) -> Option<(&str, &str)>
    requires { mark < 128 }
    ensures { option_map (λ two. (two.0.now, two.1.now)) result ≡ parted mark text.now }
{
    text.split_once(mark)
}

/// Returns whether each character is a decimal digit.
fn are_digits(text: &[u8]) -> bool
    ensures { result ≡ list_all is_ascii_digit text.now }
{
    text.iter().all(|byte| byte.is_ascii_digit())
}

/// Returns the number that 1 to [`MAX_DIGITS`] digits write, or `None` for any other text.
fn number_of(digits: &str) -> Option<u64>
    ensures value { result ≡ number_of digits.now }
    ensures short { IfSome result (λ number. (number < 1000000000) × (length digits.now ≤ 9)) }
{
    if digits.len() > MAX_DIGITS || !are_digits(digits.as_bytes()) {
        return None;
    }
    digits.parse::<u64>().ok()
}

/// Returns the number that a text writes: digits, or digits, a point and digits. Returns `None` for any other text, and
/// for more than 9 digits before or after the point.
pub(crate) fn decimal_of(text: &str) -> Option<Decimal>
    ensures value { result ≡ decimal_of text.now }
    ensures short { IfSome result (λ d. (d.parts < 1000000000000000000) × (d.of ≤ 1000000000)) }
{
    let Some((whole, decimals)) = parted(text, '.') else {
        let parts = number_of(text)?;
        return Some(Decimal { parts, of: 1 });
    };
    let whole = number_of(whole)?;
    let more = number_of(decimals)?;
    let of = 10_u64.pow(decimals.len() as u32);
    let parts = whole * of + more;
    Some(Decimal { parts, of })
}
