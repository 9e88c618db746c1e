// The count of the operations of an expression of a graph.
ghost use Rattle.std.specs.Prelude.{◌≡◌, ◌<◌, ◌≤◌, ◌+◌, ◌^◌, min, length};
ghost use Rattle.mp_expr.specs.Size.{count_of};
ghost use Rattle.mp_graph.specs.Images.{HasRows};
ghost use Rattle.mp_graph.specs.Part.{IsPart};
ghost use Rattle.mp_graph.specs.Shared.{term_at};

use crate::fold::{Fold, row_at};
use crate::graph::Graph;
use crate::node_id::NodeId;
use crate::op::NodeOp;
use std::convert::Infallible;

// Where a count stops.
const COUNT_LIMIT: u128 = 10000000000000000000000000000000000000;

// Counts of operations, up to 10^37.
#[derive(Drop)]
pub(crate) struct Counts;

impl Fold for Counts {
    type Row = u128;

    type Fault = Infallible;

    ghost use Rattle.std.specs.Prelude.{◌≡◌, ◌^◌, min};
    ghost use Rattle.mp_expr.specs.Size.{count_of};

    ghost is_row = { λ w t r. r ≡ min (count_of t) (10 ^ 37) };

    ghost is_fault = { λ w t f. ⊥ };

    fn row(&self, graph: &Graph<'_>, id: NodeId, rows: &[u128]) -> Result<u128, Infallible> {
        let node = graph.node(id);
        let count = match node.op {
            NodeOp::Leaf(_) => 0,
            NodeOp::Neg | NodeOp::Pow(_) => {
                let a = count_at(graph, rows, node.kids[0], id);
                joined(a, 0)
            }
            NodeOp::Binary(_) => {
                let a = count_at(graph, rows, node.kids[0], id);
                let b = count_at(graph, rows, node.kids[1], id);
                joined(a, b)
            }
            NodeOp::Pick => {
                let a = count_at(graph, rows, node.kids[0], id);
                let b = count_at(graph, rows, node.kids[1], id);
                let c = count_at(graph, rows, node.kids[2], id);
                let d = count_at(graph, rows, node.kids[3], id);
                joined((a + b).min(COUNT_LIMIT), (c + d).min(COUNT_LIMIT))
            }
        };
        Ok(count)
    }
}

// The count of this operand of a node.
fn count_at(graph: &Graph<'_>, rows: &[u128], kid: NodeId, of: NodeId) -> u128
    requires below { kid < of }
    requires table { of ≤ length rows.now }
    requires part { IsPart (term_at graph.now.terms kid) (term_at graph.now.terms of) }
    requires rows { HasRows graph.now.terms rows.now of (λ t r. r ≡ min (count_of t) (10 ^ 37)) }
    ensures { result ≡ min (count_of (term_at graph.now.terms kid)) (10 ^ 37) }
{
    row_at(rows, kid)
}

// A node above operands of these counts.
fn joined(a: u128, b: u128) -> u128
    requires left { a ≤ 10 ^ 37 }
    requires right { b ≤ 10 ^ 37 }
    ensures { result ≡ min (a + b + 1) (10 ^ 37) }
{
    (a + b + 1).min(COUNT_LIMIT)
}
