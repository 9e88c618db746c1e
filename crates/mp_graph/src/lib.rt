//! Expressions as nodes of one graph, each once, and the passes over them.
#![tactic(auto)]

mod count;
pub mod fold;
pub mod graph;
mod height;
pub mod images;
pub mod kids;
pub mod names;
pub mod node_id;
pub mod op;
pub mod own;
pub mod rewrite;
pub mod sizes;
pub mod tree;

pub use fold::{Fold, folded, row_at};
pub use graph::{Graph, Ref};
pub use images::{Images, images_law};
pub use node_id::NodeId;
pub use op::{BinaryOp, LeafOp, NodeOp};
pub use own::own_laws;
pub use rewrite::{Rewrite, over_images, rewritten};
pub use sizes::{all_counts, all_heights};
