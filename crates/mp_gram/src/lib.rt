//! From tokens to a file: each reader reads one format of the grammar.
#![tactic(auto)]

mod choice;
pub mod fault;
mod item;
mod listed;
mod name;
mod parser;
mod repeated;
mod statement;
mod tag;

pub use fault::ParseFault;
pub use parser::parse;
