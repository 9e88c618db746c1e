// Magnitudes: greatest common divisors, and products within the limit.
ghost use Rattle.std.specs.Prelude.{◌≡◌, ◌*◌, ◌<◌, ◌≤◌, MatchOption};
ghost use Rattle.std.specs.Int.{IsGcd};
ghost use Rattle.mp_frac.specs.Limit.{limit};

/// The greatest magnitude of a part.
pub const LIMIT: u128 = 10000000000000000000000000000000000000;

/// The greatest common divisor, by Euclid's remainders.
pub fn gcd(a: u128, b: u128) -> u128
    ensures { IsGcd a b result }
{
    let mut x = a;
    let mut y = b;
    while y != 0 {
        let rest = x % y;
        x = y;
        y = rest;
    }
    x
}

/// The product, where it is within the limit.
pub fn product(a: u128, b: u128) -> Option<u128>
    ensures { MatchOption result (limit < a * b) (λ p. (p ≡ a * b) × (a * b ≤ limit)) }
{
    if a == 0 {
        return Some(0);
    }
    if b > LIMIT / a {
        return None;
    }
    Some(a * b)
}
