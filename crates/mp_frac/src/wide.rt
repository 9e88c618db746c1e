// Products of 256 bits, as two halves of 128.
ghost use Rattle.std.specs.Prelude.{◌≡◌, ◌*◌, ◌^◌, ◌<◌, ◌≤◌, ◌↔◌};
ghost use Rattle.mp_frac.specs.Limit.{limit};
ghost use Rattle.mp_frac.specs.Wide.{wide_value};

use std::cmp::Ordering;

const HALF: u128 = 18446744073709551616;

/// A number of 256 bits: high * 2^128 + low.
#[derive(Clone, Copy)]
struct Wide {
    high: u128,
    low: u128,
}

// The whole product.
fn wide_product(a: u128, b: u128) -> Wide
    requires first { a < 2 ^ 124 }
    requires second { b < 2 ^ 124 }
    ensures value { wide_value result ≡ a * b }
    ensures low { result.low < 2 ^ 128 }
{
    let a1 = a / HALF;
    let a0 = a % HALF;
    let b1 = b / HALF;
    let b0 = b % HALF;
    let low = a0 * b0;
    let middle = a1 * b0 + a0 * b1 + low / HALF;
    Wide {
        high: a1 * b1 + middle / HALF,
        low: (middle % HALF) * HALF + low % HALF,
    }
}

/// The order of the products a * b and c * d.
pub fn cmp_products(a: u128, b: u128, c: u128, d: u128) -> Ordering
    requires first { a ≤ limit }
    requires second { b ≤ limit }
    requires third { c ≤ limit }
    requires fourth { d ≤ limit }
    ensures less { result ≡ Ordering.Less ↔ a * b < c * d }
    ensures equal { result ≡ Ordering.Equal ↔ a * b ≡ c * d }
{
    let left = wide_product(a, b);
    let right = wide_product(c, d);
    left.high.cmp(&right.high).then(left.low.cmp(&right.low))
}
