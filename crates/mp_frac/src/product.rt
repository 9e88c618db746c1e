// Products, quotients and powers.
ghost use Rattle.std.specs.Prelude.{◌≡◌, IsTrue, IsFalse, MatchResult};
ghost use Rattle.mp_rational.specs.Fraction.{inv, is_zero, one};
ghost use Rattle.mp_frac.specs.Stated.{product_outcome, quotient_outcome, power_outcome, product_times};
ghost use Rattle.mp_frac.specs.Value.{value_of, outcome_of};

use crate::fault::FracFault;
use crate::frac::Frac;
use crate::natural::{gcd, product};
use mp_integer::Whole;

impl Frac {
    /// The product. Common divisors are taken out before the parts are multiplied.
    pub fn mul(self, other: Frac) -> Result<Frac, FracFault>
        ensures { outcome_of result ≡ product_outcome (value_of self) (value_of other) }
    {
        let left = self.magnitude();
        let right = other.magnitude();
        let g = gcd(left, other.den);
        let h = gcd(right, self.den);
        let Some(top) = product(left / g, right / h) else {
            return Err(FracFault::Overflow);
        };
        let Some(bottom) = product(self.den / h, other.den / g) else {
            return Err(FracFault::Overflow);
        };
        Frac::coprime(self.is_negative() != other.is_negative(), top, bottom)
    }

    /// The quotient, which multiplies by the reciprocal.
    pub fn div(self, other: Frac) -> Result<Frac, FracFault>
        ensures { outcome_of result ≡ quotient_outcome (value_of self) (value_of other) }
    {
        match other.reciprocal() {
            Ok(inverse) => self.mul(inverse),
            Err(fault) => Err(fault),
        }
    }

    // One divided by the fraction.
    fn reciprocal(self) -> Result<Frac, FracFault>
        ensures { MatchResult
            result
            (λ r. IsFalse (is_zero (value_of self)) × (value_of r ≡ inv (value_of self)))
            (λ e. (e ≡ FracFault.ZeroDivisor) × IsTrue (is_zero (value_of self))) }
    {
        let magnitude = self.magnitude();
        if magnitude == 0 {
            return Err(FracFault::ZeroDivisor);
        }
        Ok(Frac::from_parts(Whole::signed(self.is_negative(), self.den), magnitude))
    }

    /// The power with a whole exponent: with exponent 0 it is 1, and with a negative exponent the
    /// reciprocal of the power by its negation.
    pub fn pow(self, k: i8) -> Result<Frac, FracFault>
        ensures { outcome_of result ≡ power_outcome (value_of self) k }
    {
        let power = match self.times(k.unsigned_abs()) {
            Ok(power) => power,
            Err(fault) => return Err(fault),
        };
        let below = k < 0;
        if below { power.reciprocal() } else { Ok(power) }
    }

    // The product of n factors, from the left, beginning with 1.
    fn times(self, n: u8) -> Result<Frac, FracFault>
        ensures { outcome_of result ≡ product_times (value_of self) n }
    {
        let mut power = Frac::one();
        for _i in 0..n {
            match power.mul(self) {
                Ok(next) => power = next,
                Err(fault) => return Err(fault),
            }
        }
        Ok(power)
    }

    // 1.
    fn one() -> Frac
        ensures { value_of result ≡ one }
    {
        Frac { num: 1, den: 1 }
    }
}
