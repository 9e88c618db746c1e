//! The lines of a macro file: directives, and the tree of the groups in which they stand.
#![tactic(auto)]

pub mod content;
pub mod fault;
pub mod groups;
pub mod keyword;
pub mod laws;
pub mod scan;
pub mod tree;

pub use content::{Condition, Content, Statement, content_of};
pub use fault::TreeFault;
pub use groups::tree_of;
pub use keyword::Keyword;
pub use laws::{fault_law, tree_law};
pub use scan::{begins_comment, first_line, quoted_after};
pub use tree::{Branch, Head, Node, parts_of};
