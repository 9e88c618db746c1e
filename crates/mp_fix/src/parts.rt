// Quotients by the number of units of 1, by parts of 64 bits: no division of 128 bits is left to software.
ghost use Rattle.std.specs.Prelude.{◌≡◌, ◌/◌, ◌^◌, ◌<◌};
ghost use Rattle.std.specs.Int.RustNames.{unsigned_abs};
ghost use Rattle.mp_fix.specs.Units.{floor, ceiling, unit};

use crate::exact::negated;
use mp_integer::Whole;

// 10^12 = 2^12 * 5^12.
const FIVES: u64 = 244_140_625;

const WORD: u128 = 18_446_744_073_709_551_616;

const MIDDLE: u64 = 68_719_476_736;

const LOW: u64 = 268_435_456;

/// n / 10^12: of n / 2^12, the bits from 64 on, the 36 below them and the last 28 are divided in turn by 5^12, each
/// behind what the one before leaves.
#[inline]
fn by_unit(n: u128) -> u128
    requires { n < 2 ^ 127 }
    ensures { result ≡ n / unit }
{
    let halved = n / 4_096;
    let top = (halved / WORD) as u64;
    let word = (halved % WORD) as u64;
    let middle = top % FIVES * MIDDLE + word / LOW;
    let last = middle % FIVES * LOW + word % LOW;
    let high = (top / FIVES) as u128 * MIDDLE as u128 + (middle / FIVES) as u128;
    high * LOW as u128 + (last / FIVES) as u128
}

/// n / 10^12, rounded down.
#[inline]
pub(crate) fn by_unit_down(n: Whole) -> Whole
    requires { unsigned_abs n < 2 ^ 127 }
    ensures { result ≡ floor n unit }
{
    let negative = n.is_negative();
    let one = if negative { 1 } else { 0 };
    Whole::signed(negative, by_unit(n.magnitude() - one) + one)
}

/// n / 10^12, rounded up.
#[inline]
pub(crate) fn by_unit_up(n: Whole) -> Whole
    requires { unsigned_abs n < 2 ^ 127 }
    ensures { result ≡ ceiling n unit }
{
    negated(by_unit_down(negated(n)))
}
