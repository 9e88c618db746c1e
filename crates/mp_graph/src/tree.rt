// A node as a tree of its own.
ghost use Rattle.std.specs.Prelude.{◌≡◌, ◌<◌, length, IfOk};
ghost use Rattle.mp_semantics.specs.Term.{leaf, binary};
ghost use Rattle.mp_expr.specs.Shown.{term_of};
ghost use Rattle.mp_graph.specs.Op.{leaf_of, binary_of};
ghost use Rattle.mp_graph.specs.Shared.{term_at};

use crate::graph::Graph;
use crate::node_id::NodeId;
use crate::op::{BinaryOp, LeafOp, NodeOp};
use mp_base::NoMemory;
use mp_expr::{Tree, boxed};
use std::alloc::Global;

impl<'t> Graph<'t> {
    /// The expression of this node as a tree, with a copy of each part for each place where it stands. It recurs as
    /// deep as the tree is high.
    #[cycle(trees)]
    pub fn tree_of(&self, alloc: Global, id: NodeId) -> Result<Tree, NoMemory>
        requires { id < length self.now.terms }
        ensures { IfOk result (λ t. term_of t ≡ term_at self.now.terms id) }
    {
        let node = self.node(id);
        match node.op {
            NodeOp::Leaf(op) => Ok(leaf_tree(op)),
            NodeOp::Neg => Ok(Tree::Neg(self.boxed_tree(alloc, node.kids[0])?)),
            NodeOp::Binary(op) => {
                let a = self.boxed_tree(alloc, node.kids[0])?;
                let b = self.boxed_tree(alloc, node.kids[1])?;
                Ok(binary_tree(op, a, b))
            }
            NodeOp::Pow(k) => Ok(Tree::Pow(self.boxed_tree(alloc, node.kids[0])?, k)),
            NodeOp::Pick => Ok(Tree::Pick(
                self.boxed_tree(alloc, node.kids[0])?,
                self.boxed_tree(alloc, node.kids[1])?,
                self.boxed_tree(alloc, node.kids[2])?,
                self.boxed_tree(alloc, node.kids[3])?,
            )),
        }
    }

    // The same in a box.
    #[cycle(trees)]
    fn boxed_tree(&self, alloc: Global, id: NodeId) -> Result<Box<Tree>, NoMemory>
        requires { id < length self.now.terms }
        ensures { IfOk result (λ t. term_of t.value ≡ term_at self.now.terms id) }
    {
        boxed(alloc, self.tree_of(alloc, id)?)
    }
}

// The tree of a leaf.
fn leaf_tree(op: LeafOp) -> Tree
    ensures { term_of result ≡ leaf (leaf_of op) }
{
    match op {
        LeafOp::Num { m, s } => Tree::Num { m, s },
        LeafOp::Param(n) => Tree::Param(n),
        LeafOp::Var { v, shift } => Tree::Var { v, shift },
        LeafOp::Anchor(n) => Tree::Anchor(n),
    }
}

// The tree of an operator over two others.
fn binary_tree(op: BinaryOp, a: Box<Tree>, b: Box<Tree>) -> Tree
    ensures { term_of result ≡ binary (binary_of op) (term_of a.value) (term_of b.value) }
{
    match op {
        BinaryOp::Add => Tree::Add(a, b),
        BinaryOp::Sub => Tree::Sub(a, b),
        BinaryOp::Mul => Tree::Mul(a, b),
        BinaryOp::Div => Tree::Div(a, b),
        BinaryOp::Min => Tree::Min(a, b),
        BinaryOp::Max => Tree::Max(a, b),
    }
}
