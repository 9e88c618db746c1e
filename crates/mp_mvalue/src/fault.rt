// Why an expression has no value.

use mp_base::{MacroKind, NoMemory};
use std::alloc::{AllocError, AllocFailed};
use thiserror::Error;

/// Why an expression has no value, or that there was no memory.
#[derive(Debug, Drop, Error)]
pub enum MacroFault {
    #[error("the expression is refused as {kind:?}")]
    Refused { kind: MacroKind },
    #[error("there was no memory")]
    NoMemory,
}

impl From<NoMemory> for MacroFault {
    ghost use Rattle.std.specs.Prelude.{◌≡◌};
    ghost use Rattle.mp_mvalue.specs.declared.fault.MacroFault.TheVariants.{NoMemory};

    ghost from_gives = { λ _ e. e ≡ NoMemory };

    fn from(_: NoMemory) -> Self {
        MacroFault::NoMemory
    }
}

impl From<AllocError> for MacroFault {
    ghost use Rattle.std.specs.Prelude.{◌≡◌};
    ghost use Rattle.mp_mvalue.specs.declared.fault.MacroFault.TheVariants.{NoMemory};

    ghost from_gives = { λ _ e. e ≡ NoMemory };

    fn from(_: AllocError) -> Self {
        MacroFault::NoMemory
    }
}

impl<T: Drop> From<AllocFailed<T>> for MacroFault {
    ghost use Rattle.std.specs.Prelude.{◌≡◌};
    ghost use Rattle.mp_mvalue.specs.declared.fault.MacroFault.TheVariants.{NoMemory};

    ghost from_gives = { λ _ e. e ≡ NoMemory };

    fn from(_: AllocFailed<T>) -> Self {
        MacroFault::NoMemory
    }
}

impl From<MacroKind> for MacroFault {
    ghost use Rattle.std.specs.Prelude.{◌≡◌};
    ghost use Rattle.mp_mvalue.specs.declared.fault.MacroFault.TheVariants.{Refused};

    ghost from_gives = { λ kind e. e ≡ Refused kind };

    fn from(kind: MacroKind) -> Self {
        MacroFault::Refused { kind }
    }
}
