// Laws, as the clauses of functions without code.
ghost use Rattle.std.specs.Prelude.{◌≡◌, ◌≢◌, ◌↔◌, ◌⊎◌, ◌<◌, ◌≤◌, ◌/◌, ◌<ℤ◌, ℤ, pos};
ghost use Rattle.std.specs.Int.{IsGcd};
ghost use Rattle.std.specs.Int.RustNames.{unsigned_abs};
ghost use Rattle.mp_rational.specs.Fraction.{Fraction, add, sub, mul, div, power, whole, nought};
ghost use Rattle.mp_rational.specs.Lowest.{numerator, denominator};
ghost use Rattle.mp_frac.specs.Limit.{limit};
ghost use Rattle.mp_frac.specs.Stated.{
  sum_outcome,
  difference_outcome,
  product_outcome,
  quotient_outcome,
  power_outcome,
  ratio_outcome,
};
ghost use Rattle.mp_frac.specs.Value.{value_of};
ghost use Rattle.mp_frac.specs.declared.frac.Frac.{Frac};

use crate::fault::FracFault;

/// A `Frac` is in lowest terms with a positive denominator, its parts are within the limit, and
/// equal values are equal `Frac`s.
pub fn frac_laws()
    ensures positive { (f : Frac) → 0 < denominator (value_of f) }
    ensures lowest_terms { (f : Frac)
        → IsGcd (unsigned_abs (numerator (value_of f))) (denominator (value_of f)) 1 }
    ensures numerator_within { (f : Frac) → unsigned_abs (numerator (value_of f)) ≤ limit }
    ensures denominator_within { (f : Frac) → denominator (value_of f) ≤ limit }
    ensures equal_values { (f g : Frac) → value_of f ≡ value_of g → f ≡ g }
{}

/// Where an operation answers a fraction, it is the one of arithmetic.
pub fn answer_laws()
    ensures ratio { (n d : ℤ) (z : Fraction)
        → ratio_outcome n d ≡ Ok z → div (whole n) (whole d) ≡ Some z }
    ensures sum { (x y z : Fraction) → sum_outcome x y ≡ Ok z → z ≡ add x y }
    ensures difference { (x y z : Fraction) → difference_outcome x y ≡ Ok z → z ≡ sub x y }
    ensures product { (x y z : Fraction) → product_outcome x y ≡ Ok z → z ≡ mul x y }
    ensures quotient { (x y z : Fraction) → quotient_outcome x y ≡ Ok z → div x y ≡ Some z }
    ensures power { (x z : Fraction) (k : ℤ) → power_outcome x k ≡ Ok z → power x k ≡ Some z }
{}

/// When an operation has a zero divisor, and when a product overflows.
pub fn refusal_laws()
    ensures ratio_by_zero { (n d : ℤ)
        → (ratio_outcome n d ≡ Err FracFault.ZeroDivisor) ↔ (d ≡ pos 0) }
    ensures quotient_by_zero { (x y : Fraction)
        → (quotient_outcome x y ≡ Err FracFault.ZeroDivisor) ↔ (y ≡ nought) }
    ensures negative_power_of_zero { (x : Fraction) (k : ℤ)
        → (power_outcome x k ≡ Err FracFault.ZeroDivisor) ↔ ((x ≡ nought) × (k <ℤ pos 0)) }
    ensures sum_never_by_zero { (x y : Fraction)
        → sum_outcome x y ≢ Err FracFault.ZeroDivisor }
    ensures product_never_by_zero { (x y : Fraction)
        → product_outcome x y ≢ Err FracFault.ZeroDivisor }
    ensures product_overflow { (x y : Fraction)
        → (product_outcome x y ≡ Err FracFault.Overflow)
        ↔ ((limit < unsigned_abs (numerator (mul x y))) ⊎ (limit < denominator (mul x y))) }
{}
