//! The expansion of macro files: directives are carried out, and the text that is left is written.
#![tactic(auto)]

pub mod expansion;
pub mod fault;
pub mod plain;
pub mod reading;
pub mod state;
pub mod statement;

pub use expansion::expand;
pub use fault::ExpandFault;
