//! Which equations of a model's static form are paired with which variables, and in which order its blocks stand.
#![tactic(auto)]

pub mod blocks;
pub mod rows;
pub mod square;

pub use blocks::{match_all, order};
pub use mp_match::Matched;
pub use mp_order::BlockList;
pub use square::is_square;
