//! Which variables occur in which equations, and searches over numbered things that are linked.
#![tactic(auto)]

pub mod finding;
pub mod links;
pub mod numbers;
pub mod tables;

pub use finding::{Found, search};
pub use links::{exchanges, has, lists, marks_of, occurrences, turned};
pub use numbers::{Numbers, copied, marked};
pub use tables::Table;
