//! Derivatives of expressions in a graph.
#![tactic(auto)]

pub mod count;
pub mod measure;
pub mod pass;
pub mod places;
pub mod simple;
pub mod table;

pub use count::{derivative_count, derivative_counts};
pub use measure::{Sizes, blank_sizes};
pub use pass::{ByVariable, derivative, derivative_over};
pub use places::{Place, occurring, occurring_over};
