// Why a file has no model.
ghost use Rattle.std.specs.Prelude.{◌≡◌, ◌≤◌, pos};
ghost use Rattle.mp_rational.specs.Fraction.{whole};
ghost use Rattle.mp_frac.specs.Limit.{limit};
ghost use Rattle.mp_fold.specs.Reported.{fraction_of};

use mp_base::{DataRefusal, NoMemory, Reduced};
use mp_fold::Name;
use thiserror::Error;

/// Why a file has no model: a name has no value; or a number is refused, with its place and two numbers that say why; or
/// there was no memory.
#[derive(Debug, Drop, Error)]
pub enum ModelFault<'t> {
    #[error("a name has no value")]
    Unvalued { name: Name<'t> },
    #[error("a number is refused")]
    Refused(DataRefusal),
    #[error("there was no memory")]
    NoMemory,
}

impl<'t> From<NoMemory> for ModelFault<'t> {
    ghost use Rattle.std.specs.Prelude.{◌≡◌};
    ghost use Rattle.mp_trees.specs.declared.fault.ModelFault.TheVariants.{NoMemory};

    ghost from_gives = { λ _ e. e ≡ NoMemory };

    fn from(_: NoMemory) -> Self {
        ModelFault::NoMemory
    }
}

// A whole number as refusals report it.
pub(crate) fn whole(n: u128) -> Reduced
    requires { n ≤ limit }
    ensures { fraction_of result ≡ whole (pos n) }
{
    Reduced::whole(n as i128)
}
