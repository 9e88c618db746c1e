// Exponents that are taken one after the other.
ghost use Rattle.std.specs.Prelude.{◌≡◌, ◌≤◌, unsigned_abs};
ghost use Rattle.mp_values.specs.From.{first_of, rest_of};

use mp_fold::Exponent;
use std::marker::Model;

/// The exponents that are left, in text order.
#[derive(Drop)]
pub struct Exponents<'e> {
    left: &'e [Exponent],
}

impl<'e> Model for Exponents<'e> {
    ghost use Rattle.std.specs.Prelude.{List, ℤ};

    ghost Value = { List ℤ };

    ghost view = { λ e. e.left.now };
}

impl<'e> Exponents<'e> {
    /// All of these.
    pub fn of(all: &'e [Exponent]) -> Exponents<'e>
        ensures { result ≡ all.now }
    {
        Exponents { left: all }
    }

    /// The first of them, which is taken; 0 where none is left.
    pub fn next(&mut self) -> i8
        ensures first { result ≡ first_of self.old }
        ensures rest { self.new ≡ rest_of self.old }
        ensures near { unsigned_abs result ≤ 16 }
    {
        match self.left.split_first() {
            Some((first, rest)) => {
                self.left = rest;
                first.value()
            }
            None => 0,
        }
    }
}
