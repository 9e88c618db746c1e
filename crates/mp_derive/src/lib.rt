//! The derivatives of a model: of the difference of both sides of each equation, by each variable and shift that occurs
//! in it.
#![tactic(auto)]

pub mod bound;
pub mod count;
pub mod derive;
pub mod extent;
pub mod fault;
pub mod few;
pub mod residual;
pub mod slope;

pub use derive::{derivatives, tested};
pub use fault::DeriveFault;
