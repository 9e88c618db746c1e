//! Statements as definitions. The code here is the enums that the definitions and every layer above share.
#![tactic(auto)]

pub mod kind;

pub use kind::{Command, NameKind};
