// The height of an expression of a graph.
ghost use Rattle.std.specs.Prelude.{◌≡◌, ◌<◌, ◌≤◌, ◌+◌, ◌-◌, ◌^◌, min, max, length};
ghost use Rattle.mp_expr.specs.Size.{height_of};
ghost use Rattle.mp_graph.specs.Images.{HasRows};
ghost use Rattle.mp_graph.specs.Part.{IsPart};
ghost use Rattle.mp_graph.specs.Shared.{term_at};

use crate::fold::{Fold, row_at};
use crate::graph::Graph;
use crate::node_id::NodeId;
use crate::op::NodeOp;
use std::convert::Infallible;

// Heights, up to 2^64 - 1.
#[derive(Drop)]
pub(crate) struct Heights;

impl Fold for Heights {
    type Row = u64;

    type Fault = Infallible;

    ghost use Rattle.std.specs.Prelude.{◌≡◌, ◌-◌, ◌^◌, min};
    ghost use Rattle.mp_expr.specs.Size.{height_of};

    ghost is_row = { λ w t r. r ≡ min (height_of t) (2 ^ 64 - 1) };

    ghost is_fault = { λ w t f. ⊥ };

    fn row(&self, graph: &Graph<'_>, id: NodeId, rows: &[u64]) -> Result<u64, Infallible> {
        let node = graph.node(id);
        let height = match node.op {
            NodeOp::Leaf(_) => 1,
            NodeOp::Neg | NodeOp::Pow(_) => {
                let a = height_at(graph, rows, node.kids[0], id);
                a.saturating_add(1)
            }
            NodeOp::Binary(_) => {
                let a = height_at(graph, rows, node.kids[0], id);
                let b = height_at(graph, rows, node.kids[1], id);
                above(a, b)
            }
            NodeOp::Pick => {
                let a = height_at(graph, rows, node.kids[0], id);
                let b = height_at(graph, rows, node.kids[1], id);
                let c = height_at(graph, rows, node.kids[2], id);
                let d = height_at(graph, rows, node.kids[3], id);
                above(a.max(b), c.max(d))
            }
        };
        Ok(height)
    }
}

// The height of this operand of a node.
fn height_at(graph: &Graph<'_>, rows: &[u64], kid: NodeId, of: NodeId) -> u64
    requires below { kid < of }
    requires table { of ≤ length rows.now }
    requires part { IsPart (term_at graph.now.terms kid) (term_at graph.now.terms of) }
    requires rows { HasRows graph.now.terms rows.now of (λ t r. r ≡ min (height_of t) (2 ^ 64 - 1)) }
    ensures { result ≡ min (height_of (term_at graph.now.terms kid)) (2 ^ 64 - 1) }
{
    row_at(rows, kid)
}

// A node above ways down of these heights.
fn above(a: u64, b: u64) -> u64
    ensures { result ≡ min (max a b + 1) (2 ^ 64 - 1) }
{
    a.max(b).saturating_add(1)
}
