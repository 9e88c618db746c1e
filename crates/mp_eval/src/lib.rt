//! Evaluation of the nodes of a graph over a grid, with points or intervals.
#![tactic(auto)]

mod fault;
mod kind;
mod law;
mod leaf;
mod marked;
mod marks;
mod node;
mod over;
mod roots;
mod scratch;

pub use fault::Fault;
pub use kind::Kind;
pub use law::interval_law;
pub use over::period_over;
pub use roots::EvalFault;
pub use scratch::{Scratch, period};
