//! From a text to the canonical text of its transformed model, and to the records of that model's derivatives.
#![tactic(auto)]

pub mod output;
pub mod reading;
pub mod transform;

pub use transform::{derived, transformed};
