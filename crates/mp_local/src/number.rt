// The periods of shifts.
ghost use Rattle.std.specs.Prelude.{◌≡◌, ◌-◌, ◌^◌, min, option_map};
ghost use Rattle.mp_tokens.specs.Literals.{number_of};
ghost use Rattle.mp_file.specs.Shown.{shift_of};
ghost use Rattle.mp_values.specs.Names as v;
ghost use Rattle.mp_local.specs.Ends.{stopped};

use crate::ends::FAR;
use mp_file::Shift;
use mp_syntax::Sign;

// The number of periods ahead, or back below 0, but at most 2^124 either way; 0 where no shift is written.
pub(crate) fn periods(shift: &Option<Shift>) -> i128
    ensures { result ≡ stopped (v.shift_of (option_map shift_of shift.now)) }
{
    let Some(written) = shift else {
        return 0;
    };
    let number = number(written.digits).min(FAR) as i128;
    match written.sign {
        Sign::Plus => number,
        Sign::Minus => -number,
    }
}

// The number that these digits write, but at most 2^128 - 1.
fn number(digits: &[u8]) -> u128
    ensures { result ≡ min (number_of digits.now) (2 ^ 128 - 1) }
{
    let mut value: u128 = 0;
    for digit in digits {
        let units = digit.saturating_sub(b'0') as u128;
        value = value.saturating_mul(10).saturating_add(units);
    }
    value
}
