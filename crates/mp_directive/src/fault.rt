// Why a file has no tree.

use mp_base::{MacroKind, NoMemory};
use std::alloc::AllocError;
use thiserror::Error;

/// Why a file has no tree: the first line that is at fault, from 1; or there was no memory.
#[derive(Debug, Drop, Error)]
pub enum TreeFault {
    #[error("line {line} is refused as {kind:?}")]
    Refused { kind: MacroKind, line: u32 },
    #[error("there was no memory")]
    NoMemory,
}

/// Why a line can't be read, or that there was no memory.
#[derive(Debug, Drop, Error)]
pub enum LineFault {
    #[error("the line is refused as {kind:?}")]
    Refused { kind: MacroKind },
    #[error("there was no memory")]
    NoMemory,
}

impl From<AllocError> for LineFault {
    ghost use Rattle.std.specs.Prelude.{◌≡◌};
    ghost use Rattle.mp_directive.specs.declared.fault.LineFault.TheVariants.{NoMemory};

    ghost from_gives = { λ _ e. e ≡ NoMemory };

    fn from(_: AllocError) -> Self {
        LineFault::NoMemory
    }
}

impl From<NoMemory> for LineFault {
    ghost use Rattle.std.specs.Prelude.{◌≡◌};
    ghost use Rattle.mp_directive.specs.declared.fault.LineFault.TheVariants.{NoMemory};

    ghost from_gives = { λ _ e. e ≡ NoMemory };

    fn from(_: NoMemory) -> Self {
        LineFault::NoMemory
    }
}

impl From<NoMemory> for TreeFault {
    ghost use Rattle.std.specs.Prelude.{◌≡◌};
    ghost use Rattle.mp_directive.specs.declared.fault.TreeFault.TheVariants.{NoMemory};

    ghost from_gives = { λ _ e. e ≡ NoMemory };

    fn from(_: NoMemory) -> Self {
        TreeFault::NoMemory
    }
}
