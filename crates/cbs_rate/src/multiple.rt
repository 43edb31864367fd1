//! Common multiples of periods.

ghost use Rattle.std.specs.Prelude.{◌≡◌, ℕ, ◌*◌, ◌/◌, ◌<◌};
ghost use Rattle.std.specs.Int.{IsGcd};

/// Returns the greatest number that divides both, by Euclid's algorithm.
fn greatest_common_divisor(a: u64, b: u64) -> u64
    ensures { IsGcd a b result }
{
    let mut divisor = a;
    let mut rest = b;
    while rest != 0 {
        let next = divisor % rest;
        divisor = rest;
        rest = next;
    }
    divisor
}

/// Returns the least common multiple of both: one divided by their greatest common divisor, times the other.
pub(crate) fn least_common_multiple(a: u64, b: u64) -> u128
    requires { 0 < a }
    ensures { (g : ℕ) × IsGcd a b g × (result ≡ a / g * b) }
{
    u128::from(a / greatest_common_divisor(a, b)) * u128::from(b)
}
