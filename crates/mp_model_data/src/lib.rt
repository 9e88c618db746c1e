//! A model as code holds it: one graph with its names, parameters with their values, and equations as nodes.
#![tactic(auto)]

pub mod model;
pub mod parts;

pub use model::Model;
pub use parts::{Equation, Parameter, Parts};
