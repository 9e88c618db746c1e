// A pass that gives each node a row of a table.
ghost use Rattle.std.specs.Prelude.{◌≡◌, ◌<◌, ◌≤◌, length, slice_get, Some, IfOk, IfErr};
ghost use Rattle.mp_semantics.specs.Term.{Term};
ghost use Rattle.mp_graph.specs.Shared.{term_at};
ghost use Rattle.mp_graph.specs.Images.{HasRows};
ghost use Rattle.mp_graph.specs.Own.{AreOwn};
ghost use Rattle.mp_graph.specs.Part.{IsIn};

use crate::graph::Graph;
use crate::node_id::NodeId;

/// What an expression has that follows from what its operands have, if it has it.
pub trait Fold {
    type Row: Copy;

    type Fault;

    // the row of a term
    ghost is_row: { Self → Term → Self.Row → Type 0 };

    // why this very term has none
    ghost is_fault: { Self → Term → Self.Fault → Type 0 };

    /// The row of a node, by those of its kids, which stand at the kids' places in the table.
    fn row(
        &self,
        graph: &Graph<'_>,
        id: NodeId,
        rows: &[Self::Row],
    ) -> Result<Self::Row, Self::Fault>
        requires within { id < length graph.now.terms }
        requires table { id ≤ length rows.now }
        requires rows { HasRows graph.now.terms rows.now id (is_row self.now) }
        ensures row { IfOk result (λ r. is_row self.now (term_at graph.now.terms id) r) }
        ensures fault { IfErr result (λ f. is_fault self.now (term_at graph.now.terms id) f) };
}

/// The row that the table has for this node.
pub fn row_at<R: Copy>(rows: &[R], id: NodeId) -> R
    requires { id < length rows.now }
    ensures { slice_get rows.now id ≡ Some result }
{
    rows[id.index()]
}

/// The row of this node, whose own nodes are given, or the fault of one of them. Each of them is asked for once. The
/// table is by the numbers of nodes; it may hold anything, and is written over.
pub fn folded<F: Fold>(
    graph: &Graph<'_>,
    root: NodeId,
    own: &[NodeId],
    rows: &mut [F::Row],
    fold: &F,
) -> Result<F::Row, F::Fault>
    requires within { root < length graph.now.terms }
    requires own { AreOwn graph.now.terms root own.now }
    requires table { root < length rows.old }
    ensures row { IfOk result (λ r. F.is_row fold.now (term_at graph.now.terms root) r) }
    ensures fault { IfErr result (λ f. (t : Term) × IsIn t (term_at graph.now.terms root) × F.is_fault fold.now t f) }
{
    graph.unique();
    'nodes: for id in own {
        let row = match fold.row(graph, *id, rows) {
            Ok(row) => row,
            Err(fault) => return Err(fault),
        };
        rows[id.index()] = row;
    }
    Ok(rows[root.index()])
}
