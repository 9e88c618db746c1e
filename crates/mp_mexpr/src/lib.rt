//! Macro expressions: their tokens, how they are read, and their values.
#![tactic(auto)]

pub mod evaluate;
pub mod expression;
pub mod laws;
pub mod lexer;
pub mod meaning;
pub mod operator;
pub mod reader;
pub mod token;

pub use evaluate::eval;
pub use laws::grammar_law;
pub use meaning::truth_of;
pub use operator::Operator;
