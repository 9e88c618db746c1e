// A pass that reads, and may fail.
ghost use Rattle.std.specs.Prelude.{◌≡◌, ◌<◌, ◌≤◌, ◌+◌, max, length, IfOk, IfErr};
ghost use Rattle.mp_expr.specs.Size.{height_of};
ghost use Rattle.mp_graph.specs.Images.{HasRows};
ghost use Rattle.mp_graph.specs.Part.{IsPart};
ghost use Rattle.mp_graph.specs.Shared.{term_at};

use mp_graph::{Fold, Graph, NodeId, NodeOp, row_at};

/// A node is higher than the limit.
#[derive(Clone, Copy, Debug, PartialEq, Eq)]
pub struct TooDeep;

/// Heights up to this limit.
#[derive(Drop)]
pub struct Depth {
    pub limit: u64,
}

impl Fold for Depth {
    type Row = u64;

    type Fault = TooDeep;

    ghost use Rattle.std.specs.Prelude.{◌≡◌, ◌<◌, ◌≤◌};
    ghost use Rattle.mp_expr.specs.Size.{height_of};

    ghost is_row = { λ w t r. (r ≡ height_of t) × (r ≤ w.limit) };

    ghost is_fault = { λ w t f. w.limit < height_of t };

    fn row(&self, graph: &Graph<'_>, id: NodeId, rows: &[u64]) -> Result<u64, TooDeep> {
        let node = graph.node(id);
        match node.op {
            NodeOp::Leaf(_) => self.above(0),
            NodeOp::Neg | NodeOp::Pow(_) => {
                let a = self.kid(graph, rows, node.kids[0], id);
                self.above(a)
            }
            NodeOp::Binary(_) => {
                let a = self.kid(graph, rows, node.kids[0], id);
                let b = self.kid(graph, rows, node.kids[1], id);
                self.above(a.max(b))
            }
            NodeOp::Pick => {
                let a = self.kid(graph, rows, node.kids[0], id);
                let b = self.kid(graph, rows, node.kids[1], id);
                let c = self.kid(graph, rows, node.kids[2], id);
                let d = self.kid(graph, rows, node.kids[3], id);
                self.above(a.max(b).max(c.max(d)))
            }
        }
    }
}

impl Depth {
    // The height of this operand of a node.
    fn kid(&self, graph: &Graph<'_>, rows: &[u64], kid: NodeId, of: NodeId) -> u64
        requires below { kid < of }
        requires table { of ≤ length rows.now }
        requires part { IsPart (term_at graph.now.terms kid) (term_at graph.now.terms of) }
        requires rows { HasRows graph.now.terms rows.now of (λ t r. (r ≡ height_of t) × (r ≤ self.now.limit)) }
        ensures height { result ≡ height_of (term_at graph.now.terms kid) }
        ensures within { result ≤ self.now.limit }
    {
        row_at(rows, kid)
    }

    // One more, within the limit.
    fn above(&self, height: u64) -> Result<u64, TooDeep>
        ensures row { IfOk result (λ r. (r ≡ height + 1) × (r ≤ self.now.limit)) }
        ensures fault { IfErr result (λ f. self.now.limit < height + 1) }
    {
        if height < self.limit {
            Ok(height + 1)
        } else {
            Err(TooDeep)
        }
    }
}
