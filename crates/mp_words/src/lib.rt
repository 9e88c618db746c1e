//! The words of the command line.
#![tactic(auto)]

mod command;
pub mod define;
pub mod laws;
pub mod words;

pub use laws::refusal_law;
pub use words::{WordFault, Words, read_words};
