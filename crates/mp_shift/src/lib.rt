//! The transformed model in code: its auxiliary variables with their names, and long leads and lags replaced by them.
#![tactic(auto)]

pub mod equations;
pub mod fault;
pub mod first;
pub mod list;
pub mod model;
pub mod names;
pub mod naming;
pub mod parts;
pub mod reach;
pub mod shorten;

pub use fault::ShiftFault;
pub use list::{Auxiliaries, Called};
pub use model::transform;
pub use naming::auxiliaries;
pub use parts::{Auxiliary, Direction};
