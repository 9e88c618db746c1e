// Why a file has no model within the limits.
ghost use Rattle.std.specs.Prelude.{◌≡◌, ◌<◌, ◌^◌, pos, Err};
ghost use Rattle.mp_rational.specs.Fraction.{whole};
ghost use Rattle.mp_values.specs.Limits.{Refused};
ghost use Rattle.mp_local.specs.Gives.{Fails};

use mp_base::{DataKind, DataRefusal, NoMemory, Reduced};
use mp_fold::Name;
use thiserror::Error;

/// Why a file has no model within the limits: a name has no value; or a number or a limit refuses it, with the place and
/// two numbers that say why; or there was no memory.
#[derive(Debug, Drop, Error)]
pub enum LocalFault<'t> {
    #[error("a name has no value")]
    Unvalued { name: Name<'t> },
    #[error("a number is refused")]
    Refused(DataRefusal),
    #[error("there was no memory")]
    NoMemory,
}

impl<'t> From<NoMemory> for LocalFault<'t> {
    ghost use Rattle.std.specs.Prelude.{◌≡◌};
    ghost use Rattle.mp_local.specs.declared.fault.LocalFault.TheVariants.{NoMemory};

    ghost from_gives = { λ _ e. e ≡ NoMemory };

    fn from(_: NoMemory) -> Self {
        LocalFault::NoMemory
    }
}

// A refusal at a place, with two whole numbers.
pub(crate) fn refused<'t>(kind: DataKind, at: u32, first: u128, second: u128) -> LocalFault<'t>
    requires first { first < 2 ^ 127 }
    requires second { second < 2 ^ 127 }
    ensures { Fails {Y = Unit {0}} result (Err (Refused kind at (whole (pos first)) (whole (pos second)))) }
{
    LocalFault::Refused(DataRefusal {
        kind,
        at,
        first: Reduced::whole(first as i128),
        second: Reduced::whole(second as i128),
    })
}
