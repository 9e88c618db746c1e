// A pass that rebuilds.
ghost use Rattle.std.specs.Prelude.{◌<◌, ◌≤◌, length, IfOk};
ghost use Rattle.mp_graph.specs.Images.{HasImages};
ghost use Rattle.mp_graph.specs.Shared.{term_at, Says, Keeps};
ghost use Rattle.mp_trial.specs.Opposite.{opposite};

use mp_base::NoMemory;
use mp_graph::{Graph, NodeId, NodeOp, Rewrite};

/// Each leaf negated.
#[derive(Drop)]
pub struct Opposite;

impl Rewrite for Opposite {
    ghost use Rattle.mp_trial.specs.Opposite.{opposite};

    ghost image = { λ w. opposite };

    ghost takes = { λ w t. Unit {0} };

    ghost takes_parts = { λ w t u p h. tt };

    fn image_of(
        &self,
        graph: &mut Graph<'_>,
        id: NodeId,
        images: &[NodeId],
    ) -> Result<NodeId, NoMemory> {
        opposite_node(graph, id, images)
    }
}

// The node with its operands replaced by their images, or a leaf negated.
fn opposite_node(graph: &mut Graph<'_>, id: NodeId, images: &[NodeId]) -> Result<NodeId, NoMemory>
    requires within { id < length graph.old.terms }
    requires table { id ≤ length images.now }
    requires images { HasImages graph.old images.now id opposite }
    ensures says { IfOk result (λ r. Says graph.new r (opposite (term_at graph.old.terms id))) }
    ensures kept { Keeps graph.old graph.new }
{
    let node = graph.node(id);
    let op = node.op;
    match op {
        NodeOp::Leaf(_) => graph.intern(NodeOp::Neg, &[id]),
        NodeOp::Neg | NodeOp::Pow(_) => {
            let a = images[node.kids[0].index()];
            graph.intern(op, &[a])
        }
        NodeOp::Binary(_) => {
            let a = images[node.kids[0].index()];
            let b = images[node.kids[1].index()];
            graph.intern(op, &[a, b])
        }
        NodeOp::Pick => {
            let a = images[node.kids[0].index()];
            let b = images[node.kids[1].index()];
            let c = images[node.kids[2].index()];
            let d = images[node.kids[3].index()];
            graph.intern(op, &[a, b, c, d])
        }
    }
}
