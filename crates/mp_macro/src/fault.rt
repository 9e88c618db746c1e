// Why there is no expanded text.

use mp_base::{Label, MacroKind, NoMemory};
use sqlite_items::Boxed;
use std::alloc::AllocError;
use std::fmt;
use thiserror::Error;

/// Why there is no expanded text: a line of a file is refused, with its number from 1, or 0 where the main file is too
/// long; a file is absent; reading has failed, with the count of faults; or there was no memory.
#[derive(Drop, Error)]
pub enum ExpandFault {
    #[error("line {line} is refused as {kind:?}")]
    Macro {
        kind: MacroKind,
        file: Label,
        line: u32,
    },
    #[error("a file is absent")]
    Absent {
        name: Label,
    },
    #[error("reading has failed {count} times")]
    ReadFault {
        count: u64,
    },
    #[error("there was no memory")]
    NoMemory,
}

impl fmt::Debug for ExpandFault {
    fn fmt<W: fmt::Write>(&self, f: &mut fmt::Formatter<W>) -> fmt::Result {
        fmt::Display::fmt(self, f)
    }
}

impl From<NoMemory> for ExpandFault {
    ghost use Rattle.std.specs.Prelude.{◌≡◌};
    ghost use Rattle.mp_macro.specs.declared.fault.ExpandFault.TheVariants.{NoMemory};

    ghost from_gives = { λ _ e. e ≡ NoMemory };

    fn from(_: NoMemory) -> Self {
        ExpandFault::NoMemory
    }
}

/// Why an expansion stops, in few bytes, since many parts of files are expanded inside one another.
#[derive(Drop, Error)]
pub enum Stop {
    #[error("line {line} is refused as {kind:?}")]
    Macro {
        kind: MacroKind,
        file: Boxed<Label>,
        line: u32,
    },
    #[error("a file is absent")]
    Absent {
        name: Boxed<Label>,
    },
    #[error("reading has failed {count} times")]
    ReadFault {
        count: u64,
    },
    #[error("there was no memory")]
    NoMemory,
}

impl fmt::Debug for Stop {
    fn fmt<W: fmt::Write>(&self, f: &mut fmt::Formatter<W>) -> fmt::Result {
        fmt::Display::fmt(self, f)
    }
}

impl From<NoMemory> for Stop {
    ghost use Rattle.std.specs.Prelude.{◌≡◌};
    ghost use Rattle.mp_macro.specs.declared.fault.Stop.TheVariants.{NoMemory};

    ghost from_gives = { λ _ e. e ≡ NoMemory };

    fn from(_: NoMemory) -> Self {
        Stop::NoMemory
    }
}

impl From<AllocError> for Stop {
    ghost use Rattle.std.specs.Prelude.{◌≡◌};
    ghost use Rattle.mp_macro.specs.declared.fault.Stop.TheVariants.{NoMemory};

    ghost from_gives = { λ _ e. e ≡ NoMemory };

    fn from(_: AllocError) -> Self {
        Stop::NoMemory
    }
}

impl From<Stop> for ExpandFault {
    ghost use Rattle.std.specs.Prelude.{◌≡◌};
    ghost use Rattle.mp_macro.specs.Faults.{fault_of};

    ghost from_gives = { λ stop e. e ≡ fault_of stop };

    fn from(stop: Stop) -> Self {
        match stop {
            Stop::Macro { kind, file, line } => ExpandFault::Macro {
                kind,
                file: file.into_inner(),
                line,
            },
            Stop::Absent { name } => ExpandFault::Absent {
                name: name.into_inner(),
            },
            Stop::ReadFault { count } => ExpandFault::ReadFault { count },
            Stop::NoMemory => ExpandFault::NoMemory,
        }
    }
}
