//! A whole run: from the words of the command line to the bytes written and the fault line.
#![tactic(auto)]

pub mod expanding;
pub mod top;

pub use mp_tell::tell;
pub use top::run;
