//! The limits of a model: how many names it may declare, how far its variables may be shifted, and how high and how large
//! its equations may be.
#![tactic(auto)]

pub mod ends;
pub mod expand;
pub mod far;
pub mod fault;
pub mod known;
pub mod laws;
pub mod locals;
pub mod many;
pub mod number;
pub mod parts;
pub mod reach;
pub mod size;
pub mod span;

pub use expand::expand_locals;
pub use far::{FarName, far_name};
pub use fault::LocalFault;
pub use known::Scope;
pub use laws::{local_law, written_law};
pub use many::{Beyond, most_names, name_beyond};
pub use size::{greatest_height, operations};
