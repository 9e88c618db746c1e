// The expression of the period before.
ghost use Rattle.std.specs.Prelude.{◌≡◌, ◌<◌, ◌≤◌, ◌≤ℤ◌, ◌-ℤ◌, pos, negsuc, length, IfOk};
ghost use Rattle.mp_semantics.specs.Term.{leaf};
ghost use Rattle.mp_semantics.specs.Shifted.{earlier, earlier_leaf, difference};
ghost use Rattle.mp_graph.specs.Images.{HasImages, AreImages};
ghost use Rattle.mp_graph.specs.Op.{leaf_of};
ghost use Rattle.mp_graph.specs.Shared.{term_at, Says, Keeps};
ghost use Rattle.mp_trees.specs.Earlier.{HasEarlier, IsNearLeaf};

use mp_base::NoMemory;
use mp_graph::{BinaryOp, Graph, Images, LeafOp, NodeId, NodeOp, Rewrite};
use std::alloc::Global;

/// Each variable one more period back.
#[derive(Drop)]
pub struct Earlier;

impl Rewrite for Earlier {
    ghost use Rattle.mp_semantics.specs.Shifted.{earlier};
    ghost use Rattle.mp_trees.specs.Earlier.{HasEarlier};
    ghost use Rattle.mp_trees.specs.Parted.{part_has_earlier};

    ghost image = { λ w. earlier };

    ghost takes = { λ w. HasEarlier };

    ghost takes_parts = { λ w. part_has_earlier };

    fn image_of(
        &self,
        graph: &mut Graph<'_>,
        id: NodeId,
        images: &[NodeId],
    ) -> Result<NodeId, NoMemory> {
        earlier_node(graph, id, images)
    }
}

// The node with its operands replaced by their images, or a leaf one period back.
fn earlier_node(graph: &mut Graph<'_>, id: NodeId, images: &[NodeId]) -> Result<NodeId, NoMemory>
    requires within { id < length graph.old.terms }
    requires table { id ≤ length images.now }
    requires images { HasImages graph.old images.now id earlier }
    requires takes { HasEarlier (term_at graph.old.terms id) }
    ensures says { IfOk result (λ r. Says graph.new r (earlier (term_at graph.old.terms id))) }
    ensures kept { Keeps graph.old graph.new }
{
    let node = graph.node(id);
    let op = node.op;
    match op {
        NodeOp::Leaf(leaf) => graph.intern(NodeOp::Leaf(back(leaf)), &[]),
        NodeOp::Neg | NodeOp::Pow(_) => {
            let a = images[node.kids[0].index()];
            graph.intern(op, &[a])
        }
        NodeOp::Binary(_) => {
            let a = images[node.kids[0].index()];
            let b = images[node.kids[1].index()];
            graph.intern(op, &[a, b])
        }
        NodeOp::Pick => {
            let a = images[node.kids[0].index()];
            let b = images[node.kids[1].index()];
            let c = images[node.kids[2].index()];
            let d = images[node.kids[3].index()];
            graph.intern(op, &[a, b, c, d])
        }
    }
}

// A variable one more period back; any other leaf itself.
fn back(leaf: LeafOp) -> LeafOp
    requires { IsNearLeaf (leaf_of leaf) }
    ensures { leaf_of result ≡ earlier_leaf (leaf_of leaf) }
{
    match leaf {
        LeafOp::Var { v, shift } => LeafOp::Var {
            v,
            shift: one_less(shift),
        },
        other => other,
    }
}

fn one_less(shift: i16) -> i16
    requires { negsuc 22 ≤ℤ shift }
    ensures { result ≡ shift -ℤ pos 1 }
{
    shift - 1
}

/// The node of what an expression gained since the period before (Dynare manual, "The model block", on `diff`). The images
/// are those of earlier expressions.
pub fn difference_node(
    alloc: Global,
    graph: &mut Graph<'_>,
    images: &mut Images,
    operand: NodeId,
) -> Result<NodeId, NoMemory>
    requires within { operand < length graph.old.terms }
    requires images { AreImages graph.old images.old earlier }
    requires shifts { HasEarlier (term_at graph.old.terms operand) }
    ensures says { IfOk result (λ id. Says graph.new id (difference (term_at graph.old.terms operand))) }
    ensures kept { Keeps graph.old graph.new }
    ensures images { AreImages graph.new images.new earlier }
{
    let before = images.image(alloc, graph, operand, &Earlier)?;
    graph.intern(NodeOp::Binary(BinaryOp::Sub), &[operand, before])
}
