// Why a model has no derivatives.

use mp_base::NoMemory;
use thiserror::Error;

/// Why a model has no derivatives: they have this many operations, counted up to 10^37; or there was no memory.
#[derive(Debug, Drop, Error)]
pub enum DeriveFault {
    #[error("the derivatives have {count} operations")]
    Large { count: u128 },
    #[error("there was no memory")]
    NoMemory,
}

impl From<NoMemory> for DeriveFault {
    ghost use Rattle.std.specs.Prelude.{◌≡◌};
    ghost use Rattle.mp_derive.specs.declared.fault.DeriveFault.TheVariants.{NoMemory};

    ghost from_gives = { λ _ e. e ≡ NoMemory };

    fn from(_: NoMemory) -> Self {
        DeriveFault::NoMemory
    }
}
