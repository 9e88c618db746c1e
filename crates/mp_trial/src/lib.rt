//! What tests and measures call: evaluation behind tests of all that it asks, and a small pass that rebuilds.
#![tactic(auto)]

pub mod added;
pub mod evaluated;
pub mod frame;
pub mod opposite;
pub mod ready;
