// The number that a literal writes.
ghost use Rattle.std.specs.Prelude.{◌≡◌, ◌≤◌, ◌^◌, ◌↔◌, IfSome, IsSome, IsTrue, option_map};
ghost use Rattle.mp_tokens.specs.Literals.{decimal_of, is_in_range};
ghost use Rattle.mp_literal.specs.Accepted.{accepted, decimal_of_parts};
ghost use Rattle.mp_literal.specs.Shown.{shown};

use crate::number::number_from;
use crate::parts::{Parts, digits_kept, parts_of};
use crate::scale::scaled_by;
use crate::value::Decimal;

/// The number that a literal writes, where m is at most 10^37 and s at most 37. A literal may have any number of zeros and
/// an exponent of any length. The limits are modpath's own.
pub fn decimal(literal: &[u8]) -> Option<Decimal>
    ensures some { IsSome result ↔ IsTrue (is_in_range (decimal_of literal.now)) }
    ensures m { IfSome result (λ d. d.m ≡ (decimal_of literal.now).m) }
    ensures s { IfSome result (λ d. d.s ≡ (decimal_of literal.now).s) }
    ensures m_small { IfSome result (λ d. d.m ≤ 10 ^ 37) }
    ensures s_small { IfSome result (λ d. d.s ≤ 37) }
{
    let parts = parts_of(literal);
    decimal_of_parts(&parts)
}

// The number that these parts write, if it is in range.
fn decimal_of_parts(parts: &Parts) -> Option<Decimal>
    ensures { option_map shown result ≡ accepted (decimal_of_parts parts.now.whole.now parts.now.fraction.now parts.now.exponent.now) }
{
    let kept = digits_kept(parts.whole, parts.fraction);
    let number = number_from(0, kept.whole)?;
    let number = number_from(number, kept.fraction)?;
    if number == 0 {
        return Some(Decimal { m: 0, s: 0 });
    }
    let zeros = parts.whole.len() - kept.whole.len();
    let places = parts.fraction.len() - kept.fraction.len();
    scaled_by(
        number,
        zeros as u128 + places as u128,
        parts.fraction.len() as u128,
        parts.exponent,
    )
}
