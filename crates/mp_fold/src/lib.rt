//! The values of expressions of numbers and parameters, with the limits of numbers: each operation on fractions answers
//! or refuses.
#![tactic(auto)]

pub mod assign;
pub mod exponents;
pub mod fault;
pub mod number;
pub mod operations;
pub mod values;

pub use assign::assign_values;
pub use exponents::{Exponent, ExponentFault, add_exponents};
pub use fault::{FoldFault, Name, lowest_terms};
pub use values::value_of;
