// Numbers of digits, up to the limit.
ghost use Rattle.std.specs.Prelude.{◌≡◌, ◌*◌, ◌<◌, ◌≤◌, ◌^◌, fold};
ghost use Rattle.mp_tokens.specs.Literals.{with_digit};
ghost use Rattle.mp_literal.specs.Accepted.{up_to_limit};

// The greatest m.
pub(crate) const LIMIT: u128 = 10_000_000_000_000_000_000_000_000_000_000_000_000;

// The number that these digits write after those of this number, if it is within the limit. A byte below '0' counts as 0.
pub(crate) fn number_from(start: u128, digits: &[u8]) -> Option<u128>
    requires { start ≤ 10 ^ 37 }
    ensures { result ≡ up_to_limit (fold with_digit start digits.now) }
{
    let mut number = start;
    for digit in digits {
        number = 10 * number + digit.saturating_sub(b'0') as u128;
        if number > LIMIT {
            return None;
        }
    }
    Some(number)
}

// The number times a power of ten, if it is within the limit. The number isn't 0, so few turns are made.
pub(crate) fn times_power(start: u128, power: u128) -> Option<u128>
    requires some { 0 < start }
    requires small { start ≤ 10 ^ 37 }
    ensures { result ≡ up_to_limit (start * 10 ^ power) }
{
    let mut number = start;
    for _ in 0..power {
        number *= 10;
        if number > LIMIT {
            return None;
        }
    }
    Some(number)
}
