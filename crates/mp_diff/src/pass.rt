// The derivative of a node.
ghost use Rattle.std.specs.Prelude.{◌≡◌, ◌<◌, ◌≤◌, length, slice_index, IfOk};
ghost use Rattle.mp_expr.specs.Shown.{variable_of};
ghost use Rattle.mp_graph.specs.Images.{HasImages};
ghost use Rattle.mp_graph.specs.Own.{AreOwn};
ghost use Rattle.mp_graph.specs.Shared.{term_at, Says, Keeps};
ghost use Rattle.mp_slopes.specs.Derivative.{derivative_of, HasDerivative};

use crate::simple::{negative, whole};
use crate::table::{Operand, binary_derivative, leaf_derivative, power_derivative};
use mp_base::NoMemory;
use mp_expr::VarId;
use mp_graph::{Graph, NodeId, NodeOp, Rewrite, rewritten};
use std::alloc::Global;

// The derivative of a node, by those of its kids.
fn node_derivative(
    graph: &mut Graph<'_>,
    id: NodeId,
    derivatives: &[NodeId],
    v: VarId,
    shift: i16,
) -> Result<NodeId, NoMemory>
    requires within { id < length graph.old.terms }
    requires table { id ≤ length derivatives.now }
    requires derivatives { HasImages graph.old derivatives.now id (λ t. derivative_of t (variable_of v) shift) }
    requires has { HasDerivative (term_at graph.old.terms id) }
    ensures says { IfOk result (λ r. Says graph.new r (derivative_of (term_at graph.old.terms id) (variable_of v) shift)) }
    ensures kept { Keeps graph.old graph.new }
{
    let node = graph.node(id);
    match node.op {
        NodeOp::Leaf(leaf) => leaf_derivative(graph, leaf, v, shift),
        NodeOp::Neg => {
            let a = node.kids[0];
            negative(graph, derivatives[a.index()])
        }
        NodeOp::Binary(op) => {
            let a = operand(derivatives, node.kids[0]);
            let b = operand(derivatives, node.kids[1]);
            binary_derivative(graph, op, a, b)
        }
        NodeOp::Pow(k) => {
            let a = operand(derivatives, node.kids[0]);
            power_derivative(graph, a, k)
        }
        NodeOp::Pick => whole(graph, 0),
    }
}

// This node, with the derivative that stands in the table.
fn operand(derivatives: &[NodeId], id: NodeId) -> Operand
    requires { id < length derivatives.now }
    ensures node { result.node ≡ id }
    ensures derivative { result.derivative ≡ slice_index derivatives.now id }
{
    Operand {
        node: id,
        derivative: derivatives[id.index()],
    }
}

/// A variable of `shift` periods later, by which there are derivatives.
#[derive(Clone, Copy, Drop)]
pub struct ByVariable {
    pub v: VarId,
    pub shift: i16,
}

impl Rewrite for ByVariable {
    ghost use Rattle.mp_expr.specs.Shown.{variable_of};
    ghost use Rattle.mp_slopes.specs.Derivative.{derivative_of, HasDerivative};
    ghost use Rattle.mp_diff.specs.Part.{part_has};

    ghost image = { λ w t. derivative_of t (variable_of w.v) w.shift };

    ghost takes = { λ w t. HasDerivative t };

    ghost takes_parts = { λ w t u p h. part_has t u p h };

    fn image_of(
        &self,
        graph: &mut Graph<'_>,
        id: NodeId,
        images: &[NodeId],
    ) -> Result<NodeId, NoMemory> {
        node_derivative(graph, id, images, self.v, self.shift)
    }
}

/// The derivative of this node, whose own nodes are given, by the variable `shift` periods later. It costs those
/// nodes. The table is by the numbers of nodes; it may hold anything, and is written over.
pub fn derivative_over(
    graph: &mut Graph<'_>,
    root: NodeId,
    own: &[NodeId],
    images: &mut [NodeId],
    v: VarId,
    shift: i16,
) -> Result<NodeId, NoMemory>
    requires within { root < length graph.old.terms }
    requires own { AreOwn graph.old.terms root own.now }
    requires table { root < length images.old }
    requires has { HasDerivative (term_at graph.old.terms root) }
    ensures says { IfOk result (λ r. Says graph.new r (derivative_of (term_at graph.old.terms root) (variable_of v) shift)) }
    ensures kept { Keeps graph.old graph.new }
{
    rewritten(graph, root, own, images, &ByVariable { v, shift })
}

/// The derivative of this node by the variable `shift` periods later. It costs as many nodes as the graph has.
pub fn derivative(
    alloc: Global,
    graph: &mut Graph<'_>,
    root: NodeId,
    v: VarId,
    shift: i16,
) -> Result<NodeId, NoMemory>
    requires within { root < length graph.old.terms }
    requires has { HasDerivative (term_at graph.old.terms root) }
    ensures says { IfOk result (λ r. Says graph.new r (derivative_of (term_at graph.old.terms root) (variable_of v) shift)) }
    ensures kept { Keeps graph.old graph.new }
{
    let own = graph.own_nodes(alloc, root)?;
    let Ok(mut images) = vec![in alloc; root; graph.nodes()] else {
        return Err(NoMemory);
    };
    derivative_over(graph, root, &own, &mut images, v, shift)
}
