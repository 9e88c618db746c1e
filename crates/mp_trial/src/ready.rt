// Whether terms can be evaluated.
ghost use Rattle.std.specs.Prelude.{◌≡◌, ◌+◌, ◌<◌, ◌^◌, pos, IfOk, IsTrue, IsSome};
ghost use Rattle.mp_graph.specs.Op.{leaf_of};
ghost use Rattle.mp_walk.specs.Cells.{cell_at};
ghost use Rattle.mp_walk.specs.Walk.{size};
ghost use Rattle.mp_path.specs.Points.{cells_of};
ghost use Rattle.mp_eval.specs.Given.{IsGiven};

use crate::frame::Frame;
use mp_graph::{Fold, Graph, LeafOp, NodeId, NodeOp, row_at};

// Periods are fewer.
const MOST: u32 = 1_073_741_824;

/// Something is missing, or a term has 2^32 nodes or more.
#[derive(Clone, Copy, Debug, PartialEq, Eq)]
pub struct NotReady;

/// The sizes of terms of which something stands for each leaf in a period.
#[derive(Clone, Copy)]
pub struct Ready<'f> {
    pub frame: &'f Frame,
    pub period: u32,
}

impl Fold for Ready<'_> {
    type Row = u64;

    type Fault = NotReady;

    ghost use Rattle.std.specs.Prelude.{◌≡◌, ◌<◌, ◌^◌, pos};
    ghost use Rattle.mp_walk.specs.Cells.{cell_at};
    ghost use Rattle.mp_walk.specs.Walk.{size};
    ghost use Rattle.mp_path.specs.Points.{cells_of};
    ghost use Rattle.mp_eval.specs.Given.{IsGiven};

    ghost is_row = { λ w t r. (r ≡ size t) × (r < 2 ^ 32) × IsGiven (cell_at (cells_of w.frame.now) (pos w.period)) t };

    ghost is_fault = { λ w t f. Unit {0} };

    fn row(&self, graph: &Graph<'_>, id: NodeId, rows: &[u64]) -> Result<u64, NotReady> {
        let node = graph.node(id);
        match node.op {
            NodeOp::Leaf(leaf) => self.of_leaf(leaf),
            NodeOp::Neg | NodeOp::Pow(_) => above(row_at(rows, node.kids[0])),
            NodeOp::Binary(_) => {
                let a = row_at(rows, node.kids[0]);
                let b = row_at(rows, node.kids[1]);
                above(a + b)
            }
            NodeOp::Pick => {
                let a = row_at(rows, node.kids[0]);
                let b = row_at(rows, node.kids[1]);
                let c = row_at(rows, node.kids[2]);
                let d = row_at(rows, node.kids[3]);
                above(a + b + c + d)
            }
        }
    }
}

impl Ready<'_> {
    fn of_leaf(&self, leaf: LeafOp) -> Result<u64, NotReady>
        ensures { IfOk result (λ r. (r ≡ 1) × IsSome (cell_at (cells_of self.now.frame.now) (pos self.now.period) (leaf_of leaf))) }
    {
        if self.is_early() && self.frame.has(leaf, self.period) {
            Ok(1)
        } else {
            Err(NotReady)
        }
    }

    // Whether the horizon and the period are before the limit of periods.
    pub(crate) fn is_early(&self) -> bool
        ensures { IsTrue result → (self.now.period < 2 ^ 30) × (self.now.frame.now.edges.periods < 2 ^ 30) }
    {
        self.period < MOST && self.frame.grid().periods() < MOST
    }
}

// One more than this, within the limit.
fn above(size: u64) -> Result<u64, NotReady>
    requires { size < 2 ^ 34 }
    ensures { IfOk result (λ r. (r ≡ size + 1) × (r < 2 ^ 32)) }
{
    if size < 4_294_967_295 {
        Ok(size + 1)
    } else {
        Err(NotReady)
    }
}
