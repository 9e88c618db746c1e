// The order of fractions.
ghost use Rattle.std.specs.Prelude.{◌≡◌, ◌↔◌, IsTrue};
ghost use Rattle.mp_rational.specs.Fraction.{less};
ghost use Rattle.mp_frac.specs.Value.{value_of};

use crate::frac::Frac;
use crate::wide::cmp_products;
use std::cmp::Ordering;

impl Frac {
    /// The order of the values, exact at any size of the cross products.
    pub fn cmp(&self, other: &Frac) -> Ordering
        ensures less { (result ≡ Ordering.Less)
            ↔ IsTrue (less (value_of self.now) (value_of other.now)) }
        ensures equal { (result ≡ Ordering.Equal) ↔ (value_of self.now ≡ value_of other.now) }
        ensures greater { (result ≡ Ordering.Greater)
            ↔ IsTrue (less (value_of other.now) (value_of self.now)) }
    {
        let left = self.magnitude();
        let right = other.magnitude();
        match (self.is_negative(), other.is_negative()) {
            (false, false) => cmp_products(left, other.den, right, self.den),
            (false, true) => Ordering::Greater,
            (true, false) => Ordering::Less,
            (true, true) => cmp_products(right, self.den, left, other.den),
        }
    }
}
