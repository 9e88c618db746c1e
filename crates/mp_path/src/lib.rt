//! Paths of a model: the values inside a horizon, and what stands beside them.
#![tactic(auto)]

mod boundary;
mod grid;
mod law;
mod lists;

pub use boundary::Boundary;
pub use grid::{Cell, Grid};
pub use law::environment_law;
pub use lists::{Active, ByPeriod, Mult, Mults, Options, Regimes, Side, Tagged};
