//! Reports: the derivatives of a model as a list of records, and their text.
#![tactic(auto)]

pub mod list;
pub mod write;

pub use list::{Derivative, Derivatives};
pub use write::write_derivatives;
