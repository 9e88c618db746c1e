//! What a text declares, from its tokens and its file: the names by kind and the values of its parameters, or its first
//! fault.
#![tactic(auto)]

pub mod fault;
pub mod file;
pub mod find;
pub mod known;
pub mod options;
pub mod parts;
pub mod search;
pub mod shared;
pub mod tags;
pub mod text;
pub mod values;
pub mod walk;

pub use fault::DeclFault;
pub use file::declared_names;
pub use known::{Known, Standing};
pub use search::{Point, Reader, Search};
pub use text::{Declared, declare};
