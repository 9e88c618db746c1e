// Fractions from their parts, and the parts of a fraction.
ghost use Rattle.std.specs.Prelude.{◌≡◌, ◌<◌, ◌≤◌, ◌↔◌, ◌<ℤ◌, IsTrue, pos};
ghost use Rattle.std.specs.Int.{IsGcd};
ghost use Rattle.std.specs.Int.RustNames.{unsigned_abs};
ghost use Rattle.mp_integer.specs.Sign.{signed};
ghost use Rattle.mp_rational.specs.Fraction.{ratio_of};
ghost use Rattle.mp_rational.specs.Lowest.{numerator, denominator};
ghost use Rattle.mp_frac.specs.Limit.{limit};
ghost use Rattle.mp_frac.specs.Stated.{reduced, ratio_outcome};
ghost use Rattle.mp_frac.specs.Value.{value_of, outcome_of};

use crate::fault::FracFault;
use crate::frac::Frac;
use crate::natural::{LIMIT, gcd};
use mp_base::Ratio;
use mp_integer::Whole;

impl Frac {
    /// The fraction n/d.
    pub fn new(n: i128, d: i128) -> Result<Frac, FracFault>
        ensures { outcome_of result ≡ ratio_outcome n d }
    {
        if d == 0 {
            return Err(FracFault::ZeroDivisor);
        }
        let top = Whole::of(n);
        let bottom = Whole::of(d);
        let up = top.is_negative();
        let down = bottom.is_negative();
        Frac::lowest(up != down, top.magnitude(), bottom.magnitude())
    }

    /// The fraction of these parts, which may have a common divisor.
    pub fn ratio(top: u128, bottom: u128) -> Frac
        requires top_small { top ≤ limit }
        requires positive { 0 < bottom }
        requires bottom_small { bottom ≤ limit }
        ensures { value_of result ≡ ratio_of (pos top) bottom }
    {
        let g = gcd(top, bottom);
        Frac::from_parts(Whole::signed(false, top / g), bottom / g)
    }

    // The fraction with this sign and these parts, which may have a common divisor.
    pub(crate) fn lowest(negative: bool, top: u128, bottom: u128) -> Result<Frac, FracFault>
        requires { 0 < bottom }
        ensures { outcome_of result ≡ reduced (ratio_of (signed negative top) bottom) }
    {
        let g = gcd(top, bottom);
        Frac::coprime(negative, top / g, bottom / g)
    }

    // The fraction with this sign and these parts, which have no common divisor.
    pub(crate) fn coprime(negative: bool, top: u128, bottom: u128) -> Result<Frac, FracFault>
        requires positive { 0 < bottom }
        requires coprime { IsGcd top bottom 1 }
        ensures { outcome_of result ≡ reduced (ratio_of (signed negative top) bottom) }
    {
        if top > LIMIT || bottom > LIMIT {
            return Err(FracFault::Overflow);
        }
        Ok(Frac::from_parts(Whole::signed(negative, top), bottom))
    }

    // The fraction with these parts.
    pub(crate) fn from_parts(num: Whole, den: u128) -> Frac
        requires positive { 0 < den }
        requires num_small { unsigned_abs num ≤ limit }
        requires den_small { den ≤ limit }
        requires coprime { IsGcd (unsigned_abs num) den 1 }
        ensures num { result.num ≡ num }
        ensures den { result.den ≡ den }
    {
        Frac {
            num: num.value(),
            den,
        }
    }

    // The numerator, as a whole number.
    pub(crate) fn numerator(self) -> Whole
        ensures { result ≡ self.num }
    {
        Whole::of(self.num)
    }

    // The magnitude of the numerator.
    pub(crate) fn magnitude(self) -> u128
        ensures { result ≡ unsigned_abs self.num }
    {
        self.numerator().magnitude()
    }

    // Whether it is below 0.
    pub(crate) fn is_negative(self) -> bool
        ensures { IsTrue result ↔ (self.num <ℤ pos 0) }
    {
        self.numerator().is_negative()
    }

    /// Numerator and denominator in lowest terms.
    pub fn parts(&self) -> Ratio
        ensures numerator { result.n ≡ numerator (value_of self.now) }
        ensures denominator { result.d ≡ pos (denominator (value_of self.now)) }
        ensures numerator_within { unsigned_abs result.n ≤ limit }
        ensures denominator_within { unsigned_abs result.d ≤ limit }
        ensures positive { pos 0 <ℤ result.d }
        ensures lowest_terms { IsGcd (unsigned_abs result.n) (unsigned_abs result.d) 1 }
    {
        Ratio {
            n: self.num,
            d: self.den as i128,
        }
    }
}
