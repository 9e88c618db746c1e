//! The model of a file, its expressions as nodes of one graph.
#![tactic(auto)]

pub mod atom;
pub mod earlier;
pub mod equation;
pub mod exponents;
pub mod expression;
pub mod fault;
pub mod file;
pub mod locals;
mod made;

pub use equation::equation_nodes;
pub use exponents::Exponents;
pub use expression::node_of;
pub use fault::ModelFault;
pub use file::model;
pub use locals::Locals;
