//! Values of macro expressions: shared, measured, compared and printed; and the values of names.
#![tactic(auto)]

pub mod array;
pub mod copies;
pub mod defines;
pub mod env;
pub mod equality;
pub mod fault;
pub mod gathered;
pub mod laws;
pub mod length;
pub mod print;
pub mod sharing;
pub mod value;

pub use array::{join, join_texts};
pub use copies::{copy, shared, text};
pub use defines::{Define, Defines};
pub use env::Env;
pub use equality::{is_among, same};
pub use fault::MacroFault;
pub use gathered::Gathered;
pub use laws::same_law;
pub use print::print_value;
pub use sharing::{Array, SharedValue};
pub use value::{Value, Values};
