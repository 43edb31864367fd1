//! Common divisors.

ghost use Rattle.std.specs.Prelude.{ℕ, ◌*◌};
ghost use Rattle.std.specs.Int.{IsGcd, ◌∣◌};

/// Returns the greatest number that divides both, by Euclid's algorithm.
pub fn greatest_common_divisor(a: u128, b: u128) -> u128
    ensures greatest { IsGcd a b result }

    // What divides k times each number also divides k times the result.
    ensures scaled { (d k : ℕ) → d ∣ k * a → d ∣ k * b → d ∣ k * result }
{
    let mut divisor = a;
    let mut rest = b;
    while rest != 0 {
        let next = divisor % rest;
        divisor = rest;
        rest = next;
    }
    divisor
}
