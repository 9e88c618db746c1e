//! The numbers that literals write.
#![tactic(auto)]

pub mod literal;
mod number;
mod parts;
mod scale;
pub mod value;

pub use literal::decimal;
pub use value::Decimal;
