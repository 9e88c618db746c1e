// Why a text does not declare its model.

use mp_base::{DataRefusal, DeclKind, Label, NoMemory};
use std::fmt;
use thiserror::Error;

/// Why a text does not declare its model: the kind of its first fault in declaring it, the first 128 bytes of the name
/// that fails and its place; the first number that is refused, with its place and the two numbers that say why; or
/// there was no memory.
#[derive(Drop, Error)]
pub enum DeclFault {
    #[error("{kind:?} at byte {at}")]
    Declared {
        kind: DeclKind,
        name: Label,
        at: u32,
    },
    #[error("a number is refused")]
    Data(DataRefusal),
    #[error("there was no memory")]
    NoMemory,
}

impl fmt::Debug for DeclFault {
    fn fmt<W: fmt::Write>(&self, f: &mut fmt::Formatter<W>) -> fmt::Result {
        fmt::Display::fmt(self, f)
    }
}

impl From<NoMemory> for DeclFault {
    ghost use Rattle.std.specs.Prelude.{◌≡◌};
    ghost use Rattle.mp_decl.specs.declared.fault.DeclFault.TheVariants.{NoMemory};

    ghost from_gives = { λ _ e. e ≡ NoMemory };

    fn from(_: NoMemory) -> Self {
        DeclFault::NoMemory
    }
}
