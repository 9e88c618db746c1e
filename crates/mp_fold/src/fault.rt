// Why an expression has no value.
ghost use Rattle.std.specs.Prelude.{◌≡◌};
ghost use Rattle.mp_frac.specs.Value.{value_of};
ghost use Rattle.mp_fold.specs.Reported.{ratio_told, fraction_of};

use mp_base::{DataRefusal, Reduced};
use mp_frac::Frac;
use std::marker::Model;
use thiserror::Error;

/// A name of a text, lent.
#[derive(Debug, Drop)]
pub struct Name<'t> {
    bytes: &'t [u8],
}

impl<'t> Model for Name<'t> {
    ghost use Rattle.std.specs.Prelude.{List, ℕ};

    ghost Value = { List ℕ };

    ghost view = { λ n. n.bytes.now };
}

impl<'t> Name<'t> {
    pub fn of(bytes: &'t [u8]) -> Name<'t>
        ensures { result ≡ bytes.now }
    {
        Name { bytes }
    }

    pub fn bytes(&self) -> &'t [u8]
        ensures { result.now ≡ self.now }
    {
        self.bytes
    }
}

/// Why an expression has no value: a parameter has none, or a number is refused at a place, with the two numbers that
/// say why.
#[derive(Debug, Drop, Error)]
pub enum FoldFault<'t> {
    #[error("a name has no value")]
    Unvalued { name: Name<'t> },
    #[error("a number is refused")]
    Refused(DataRefusal),
}

/// The two numbers of a refusal are the reports of the fractions that they stand for, since they are in lowest terms.
pub fn lowest_terms(refused: &DataRefusal)
    ensures first { ratio_told (fraction_of refused.now.first) ≡ refused.now.first }
    ensures second { ratio_told (fraction_of refused.now.second) ≡ refused.now.second }
{
    let _ = refused.first.ratio();
    let _ = refused.second.ratio();
}

// A fraction as refusals report it.
pub(crate) fn reduced(x: Frac) -> Reduced
    ensures { fraction_of result ≡ value_of x }
{
    Reduced::of(x.parts())
}
