// Why a model has no auxiliaries.

use mp_base::{DeclKind, Label, NoMemory};
use std::fmt;
use thiserror::Error;

/// Why a model has no auxiliaries: the name of one is declared or too long, with its first 128 bytes and the place of
/// a declaration; or there was no memory.
#[derive(Drop, Error)]
pub enum ShiftFault {
    #[error("{kind:?} at byte {at}")]
    Declared {
        kind: DeclKind,
        name: Label,
        at: u32,
    },
    #[error("there was no memory")]
    NoMemory,
}

impl fmt::Debug for ShiftFault {
    fn fmt<W: fmt::Write>(&self, f: &mut fmt::Formatter<W>) -> fmt::Result {
        fmt::Display::fmt(self, f)
    }
}

impl From<NoMemory> for ShiftFault {
    ghost use Rattle.std.specs.Prelude.{◌≡◌};
    ghost use Rattle.mp_shift.specs.declared.fault.ShiftFault.TheVariants.{NoMemory};

    ghost from_gives = { λ _ e. e ≡ NoMemory };

    fn from(_: NoMemory) -> Self {
        ShiftFault::NoMemory
    }
}
