// Sums and differences.
ghost use Rattle.std.specs.Prelude.{◌≡◌, ◌<◌, ◌≤◌, ◌*ℤ◌, pos, MatchOption};
ghost use Rattle.std.specs.Int.RustNames.{unsigned_abs};
ghost use Rattle.mp_rational.specs.Fraction.{neg};
ghost use Rattle.mp_frac.specs.Limit.{limit};
ghost use Rattle.mp_frac.specs.Stated.{sum_outcome, difference_outcome};
ghost use Rattle.mp_frac.specs.Value.{value_of, outcome_of};

use crate::fault::FracFault;
use crate::frac::Frac;
use crate::natural::{LIMIT, gcd, product};
use mp_integer::Whole;

// The numerator of x times k, where its magnitude is within the limit.
fn scaled(x: Frac, k: u128) -> Option<Whole>
    ensures { MatchOption result
        (limit < unsigned_abs (x.num *ℤ pos k))
        (λ y. (y ≡ x.num *ℤ pos k) × (unsigned_abs (x.num *ℤ pos k) ≤ limit)) }
{
    let magnitude = product(x.magnitude(), k)?;
    Some(Whole::signed(x.is_negative(), magnitude))
}

impl Frac {
    /// The sum.
    pub fn add(self, other: Frac) -> Result<Frac, FracFault>
        ensures { outcome_of result ≡ sum_outcome (value_of self) (value_of other) }
    {
        let g = gcd(self.den, other.den);
        let left_factor = other.den / g;
        let right_factor = self.den / g;
        let Some(left) = scaled(self, left_factor) else {
            return Err(FracFault::Overflow);
        };
        let Some(right) = scaled(other, right_factor) else {
            return Err(FracFault::Overflow);
        };
        let Some(bottom) = product(self.den, left_factor) else {
            return Err(FracFault::Overflow);
        };
        let sum = left.plus(right);
        let total = sum.magnitude();
        let past = total > LIMIT;
        if past {
            return Err(FracFault::Overflow);
        }
        Frac::lowest(sum.is_negative(), total, bottom)
    }

    /// The difference, which adds the negation.
    pub fn sub(self, other: Frac) -> Result<Frac, FracFault>
        ensures { outcome_of result ≡ difference_outcome (value_of self) (value_of other) }
    {
        self.add(other.negated())
    }

    /// The fraction with the other sign.
    pub fn negated(self) -> Frac
        ensures { value_of result ≡ neg (value_of self) }
    {
        Frac::from_parts(self.numerator().negated(), self.den)
    }
}
