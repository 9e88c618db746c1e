// A pass that gives each node an image.
ghost use Rattle.std.specs.Prelude.{◌<◌, ◌≤◌, ℕ, length, slice_index, IfOk};
ghost use Rattle.mp_semantics.specs.Term.{Term};
ghost use Rattle.mp_graph.specs.Shared.{term_at, Says, Keeps};
ghost use Rattle.mp_graph.specs.Images.{HasImages, over_images};
ghost use Rattle.mp_graph.specs.Own.{AreOwn};
ghost use Rattle.mp_graph.specs.Part.{IsPart};

use crate::graph::Graph;
use crate::node_id::NodeId;
use crate::op::NodeOp;
use mp_base::NoMemory;

/// A rewriting of expressions, node by node: the image of a term follows from those of its operands.
pub trait Rewrite {
    ghost image: { Self → Term → Term };

    // the terms that it takes
    ghost takes: { Self → Term → Type 0 };

    /// The image of a node, by those of its kids, which stand at the kids' places in the table.
    fn image_of(
        &self,
        graph: &mut Graph<'_>,
        id: NodeId,
        images: &[NodeId],
    ) -> Result<NodeId, NoMemory>
        requires within { id < length graph.old.terms }
        requires table { id ≤ length images.now }
        requires images { HasImages graph.old images.now id (image self.now) }
        requires takes { takes self.now (term_at graph.old.terms id) }
        ensures says { IfOk result (λ r. Says graph.new r (image self.now (term_at graph.old.terms id))) }
        ensures kept { Keeps graph.old graph.new };

    // it takes the operands too
    ghost takes_parts: { (w : Self) (t u : Term) → IsPart t u → takes w u → takes w t };
}

/// The image of this node, whose own nodes are given. Each of them is asked for once. The table is by the numbers of
/// nodes; it may hold anything, and is written over.
pub fn rewritten<W: Rewrite>(
    graph: &mut Graph<'_>,
    root: NodeId,
    own: &[NodeId],
    images: &mut [NodeId],
    rewrite: &W,
) -> Result<NodeId, NoMemory>
    requires within { root < length graph.old.terms }
    requires own { AreOwn graph.old.terms root own.now }
    requires table { root < length images.old }
    requires takes { W.takes rewrite.now (term_at graph.old.terms root) }
    ensures says { IfOk result (λ r. Says graph.new r (W.image rewrite.now (term_at graph.old.terms root))) }
    ensures kept { Keeps graph.old graph.new }
{
    graph.unique();
    'nodes: for id in own {
        let image = rewrite.image_of(graph, *id, images)?;
        images[id.index()] = image;
    }
    Ok(images[root.index()])
}

/// The node with the images of its kids, which stand at their places in the table, in place of them; a leaf stays. With it
/// a rewriting says only what it makes of leaves.
pub fn over_images(graph: &mut Graph<'_>, id: NodeId, images: &[NodeId]) -> Result<NodeId, NoMemory>
    requires within { id < length graph.old.terms }
    requires table { id ≤ length images.now }
    requires images { (i : ℕ) → i < id → IsPart (term_at graph.old.terms i) (term_at graph.old.terms id) → slice_index images.now i < length graph.old.terms }
    ensures says { (image : Term → Term) → HasImages graph.old images.now id image → IfOk result (λ r. Says graph.new r (over_images image (term_at graph.old.terms id))) }
    ensures kept { Keeps graph.old graph.new }
{
    let node = graph.node(id);
    let op = node.op;
    match op {
        NodeOp::Leaf(_) => Ok(id),
        NodeOp::Neg | NodeOp::Pow(_) => {
            let a = images[node.kids[0].index()];
            graph.intern(op, &[a])
        }
        NodeOp::Binary(_) => {
            let a = images[node.kids[0].index()];
            let b = images[node.kids[1].index()];
            graph.intern(op, &[a, b])
        }
        NodeOp::Pick => {
            let a = images[node.kids[0].index()];
            let b = images[node.kids[1].index()];
            let c = images[node.kids[2].index()];
            let d = images[node.kids[3].index()];
            graph.intern(op, &[a, b, c, d])
        }
    }
}
