//! The canonical text of a model and of an expression: by levels, with the fewest parentheses that the levels allow.
#![tactic(auto)]

pub mod model;
pub mod node;
pub mod number;

pub use model::print_model;
pub use node::print_tree;
