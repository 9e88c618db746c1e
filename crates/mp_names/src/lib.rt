//! The names of a file by their kind, and the values of its parameters, each found by hash.
#![tactic(auto)]

pub mod fault;
pub mod list;
pub mod names;
pub mod table;

pub use fault::NameFault;
pub use list::NameList;
pub use names::{NameId, Names};
pub use table::{Entry, Table};
