// Refusals of numbers.
ghost use Rattle.std.specs.Prelude.{◌≡◌, pos};
ghost use Rattle.mp_base.specs.Fractions.{IsReduced};

use crate::fraction::Ratio;
use crate::kinds::DataKind;
use std::marker::Model;

/// The fraction n/d in lowest terms with a positive denominator, as refusals report it.
#[derive(Clone, Copy, Debug)]
pub struct Reduced {
    ratio: Ratio,
}

impl Model for Reduced {
    ghost use Rattle.mp_base.specs.declared.fraction.Ratio.{Ratio};
    ghost use Rattle.mp_base.specs.Fractions.{IsReduced};

    ghost Value = { Ratio };

    ghost view = { λ r. r.ratio };

    ghost invariant = { λ r. IsReduced r.ratio };

    ghost inverse = { λ v. record { ratio = v } };
}

impl Reduced {
    /// A fraction in lowest terms with a positive denominator.
    pub fn of(ratio: Ratio) -> Reduced
        requires { IsReduced ratio }
        ensures { result ≡ ratio }
    {
        Reduced { ratio }
    }

    /// A whole number.
    pub fn whole(n: i128) -> Reduced
        ensures { result ≡ record { n = n; d = pos 1 } }
    {
        Reduced {
            ratio: Ratio { n, d: 1 },
        }
    }

    pub fn ratio(&self) -> Ratio
        ensures value { result ≡ self.now }
        ensures reduced { IsReduced result }
    {
        self.ratio
    }
}

/// Which number is refused, its place, and the two numbers that say why.
#[derive(Clone, Copy, Debug)]
pub struct DataRefusal {
    pub kind: DataKind,
    pub at: u32,
    pub first: Reduced,
    pub second: Reduced,
}
