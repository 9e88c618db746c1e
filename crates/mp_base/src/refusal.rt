// Why a run is refused.
ghost use Rattle.std.specs.Prelude.{◌≡◌};
ghost use Rattle.mp_base.specs.Codes.{refusal_status};

use crate::data::DataRefusal;
use crate::faults::{GuessFault, NotSolved, NumberFault};
use crate::kinds::{DeclKind, LooseKind, MacroKind, TextKind};
use crate::label::Label;
use std::fmt;
use thiserror::Error;

/// The first refusal of a run. Places count bytes from 0.
#[derive(Drop, Error)]
pub enum Refusal {
    #[error("the solve has no answer")]
    NotSolved(NotSolved),
    #[error("word {word} is wrong")]
    Words {
        word: u32,
    },
    #[error("a file is absent")]
    Absent {
        name: Label,
    },
    #[error("line {line} is refused as {kind:?}")]
    Macro {
        kind: MacroKind,
        file: Label,
        line: u32,
    },
    #[error("the text is refused as {kind:?} at byte {at}")]
    Text {
        kind: TextKind,
        at: u32,
        token: Label,
    },
    #[error("a declaration is refused as {kind:?} at byte {at}")]
    Declared {
        kind: DeclKind,
        name: Label,
        at: u32,
    },
    #[error("a number of the text is refused")]
    Data(DataRefusal),
    #[error("an operation has no result")]
    Number(NumberFault),
    #[error("guess and verify has no answer")]
    Guess(GuessFault),
    #[error("the path misses a {kind:?} at equation {equation} in period {period}")]
    Loose {
        kind: LooseKind,
        equation: u32,
        period: u32,
        value: i128,
    },
    #[error("reading has failed {count} times")]
    ReadFault {
        count: u64,
    },
    #[error("writing has failed {count} times")]
    WriteFault {
        count: u64,
    },
    #[error("there was no memory")]
    NoMemory,
}

impl fmt::Debug for Refusal {
    fn fmt<W: fmt::Write>(&self, f: &mut fmt::Formatter<W>) -> fmt::Result {
        fmt::Display::fmt(self, f)
    }
}

impl Refusal {
    /// The exit status of the program with this refusal.
    pub fn code(&self) -> u8
        ensures { result ≡ refusal_status self.now }
    {
        match self {
            Refusal::NotSolved(_) => 1,
            Refusal::Words { .. } => 2,
            Refusal::Absent { .. } => 3,
            Refusal::Macro { .. } => 4,
            Refusal::Text { .. } => 5,
            Refusal::Declared { .. } => 6,
            Refusal::Data(_) => 7,
            Refusal::Number(_) => 8,
            Refusal::Guess(_) => 9,
            Refusal::Loose { .. } => 10,
            Refusal::ReadFault { .. } => 11,
            Refusal::WriteFault { .. } => 12,
            Refusal::NoMemory => 13,
        }
    }
}
