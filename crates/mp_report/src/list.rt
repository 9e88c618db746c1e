// A list of derivatives.
ghost use Rattle.std.specs.Prelude.{◌≡◌, [], ◌∷◌, ◌++◌, map, OnOk, OnErr};
ghost use Rattle.mp_report.specs.Shown.{derivation_of};

use mp_base::{Bytes, NoMemory};
use std::alloc::Global;
use std::marker::Model;

/// The derivative of an equation's difference of both sides by a variable some periods later: the number of the equation,
/// from 1, the variable and its shift, and the text of the derivative.
#[derive(Drop)]
pub struct Derivative<'n> {
    pub equation: usize,
    pub variable: &'n [u8],
    pub shift: i16,
    pub text: Bytes,
}

/// Derivatives, in order.
#[derive(Drop)]
pub struct Derivatives<'n> {
    items: Vec<Derivative<'n>>,
}

impl<'n> Model for Derivatives<'n> {
    ghost use Rattle.std.specs.Prelude.{List, map};
    ghost use Rattle.std.specs.Coded.{coded_list};
    ghost use Rattle.mp_derivatives.specs.Records.{Derivation};
    ghost use Rattle.mp_report.specs.Shown.{derivation_of, derivation_code};

    ghost Value = { List Derivation };

    ghost coded = { coded_list derivation_code };

    ghost view = { λ d. map derivation_of d.items.items };
}

impl<'n> Derivatives<'n> {
    /// None. They grow in this allocator.
    pub fn new(alloc: Global) -> Derivatives<'n>
        ensures { result ≡ [] }
    {
        Derivatives {
            items: Vec::new(alloc),
        }
    }

    /// Adds this one as the last one, or changes nothing.
    pub fn add(&mut self, derivative: Derivative<'n>) -> Result<(), NoMemory>
        ensures ok { OnOk result (self.new ≡ self.old ++ derivation_of derivative.entry ∷ []) }
        ensures err { OnErr result (self.new ≡ self.old) }
    {
        let Ok(()) = self.items.push(derivative) else {
            return Err(NoMemory);
        };
        Ok(())
    }

    /// The derivatives, lent.
    pub fn as_slice(&self) -> &[Derivative<'n>]
        ensures { map derivation_of result.now ≡ self.now }
    {
        self.items.as_slice()
    }
}
