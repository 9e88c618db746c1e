// A number times a power of ten.
ghost use Rattle.std.specs.Prelude.{◌≡◌, ◌<◌, ◌≤◌, ◌^◌, ◌+ℤ◌, ◌-ℤ◌, pos, option_map};
ghost use Rattle.mp_tokens.specs.Literals.{decimal_by, signed_number};
ghost use Rattle.mp_literal.specs.Accepted.{accepted};
ghost use Rattle.mp_literal.specs.Shown.{shown};

use crate::number::{number_from, times_power};
use crate::parts::signed;
use crate::value::Decimal;

// The number with so many zeros after it, the last so many digits after the point, times ten to this power.
pub(crate) fn scaled_by(number: u128, zeros: u128, places: u128, power: &[u8]) -> Option<Decimal>
    requires some { 0 < number }
    requires small { number ≤ 10 ^ 37 }
    requires zeros { zeros < 2 ^ 66 }
    requires places { places < 2 ^ 66 }
    ensures { option_map shown result ≡ accepted (decimal_by number (signed_number power.now +ℤ (pos zeros -ℤ pos places))) }
{
    let (is_negative, digits) = signed(power);
    let power = number_from(0, digits)?;
    if is_negative {
        scaled(number, zeros, places + power)
    } else {
        scaled(number, zeros + power, places)
    }
}

// The number times ten to the power of the difference.
fn scaled(number: u128, up: u128, down: u128) -> Option<Decimal>
    requires some { 0 < number }
    requires small { number ≤ 10 ^ 37 }
    ensures { option_map shown result ≡ accepted (decimal_by number (pos up -ℤ pos down)) }
{
    if down <= up {
        let m = times_power(number, up - down)?;
        return Some(Decimal { m, s: 0 });
    }
    if down - up > 37 {
        return None;
    }
    Some(Decimal {
        m: number,
        s: (down - up) as u8,
    })
}
