//! Exact fractions with parts of at most 10^37. Each operation gives the fraction of arithmetic, or refuses by the
//! rule of stated parts. No memory is taken, and there is no floating point.
#![tactic(auto)]

mod fault;
mod frac;
pub mod laws;
mod make;
mod natural;
mod order;
mod product;
mod sum;
mod wide;

pub use fault::FracFault;
pub use frac::Frac;
