//! Sorts of bytes, runs of one sort, and the numbers that digits write.
#![tactic(auto)]

pub mod class;
pub mod digits;
pub mod run;

pub use class::{is_blank, is_first, is_word};
pub use digits::number_up_to;
pub use run::{Run, run_length};
