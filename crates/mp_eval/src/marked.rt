// The values of marked nodes, each once.
ghost use Rattle.std.specs.Prelude.{◌≡◌, ◌+◌, ◌≤◌, ◌<◌, ◌^◌, ℕ, pos, length, IsTrue};
ghost use Rattle.mp_walk.specs.Cells.{cell_at};
ghost use Rattle.mp_walk.specs.Walk.{walk};
ghost use Rattle.mp_path.specs.Points.{cells_of};
ghost use Rattle.mp_graph.specs.Shared.{term_at};
ghost use Rattle.mp_eval.specs.Rows.{value_at};
ghost use Rattle.mp_eval.specs.Given.{is_marked, marked_of, AreMarked};

use crate::fault::Fault;
use crate::kind::Kind;
use crate::node::{size_of, value_of};
use mp_base::Steps;
use mp_graph::{Graph, NodeId};
use mp_path::Grid;
use std::sync::ledger::Ledger;

/// The value and the size of each marked node, in the order of their numbers.
pub(crate) fn evaluate<K: Kind, L: Ledger>(
    graph: &Graph<'_>,
    marks: &[bool],
    grid: &Grid,
    t: u32,
    sizes: &mut [u32],
    values: &mut [Result<K, Fault>],
    steps: &mut Steps<L>,
)
    requires period { t < 2 ^ 30 }
    requires horizon { grid.now.edges.periods < 2 ^ 30 }
    requires marks_room { length graph.now.terms ≤ length marks.now }
    requires sizes_room { length graph.now.terms ≤ length sizes.old }
    requires values_room { length graph.now.terms ≤ length values.old }
    requires marks { AreMarked (cell_at (cells_of grid.now) (pos t)) graph.now.terms marks.now }
    ensures values { (k : ℕ) → k < length graph.now.terms → IsTrue (is_marked marks.now k) → value_at values.new k ≡ walk K.arithmetic (cell_at (cells_of grid.now) (pos t)) (term_at graph.now.terms k) 0 }
    ensures sizes_room { length sizes.new ≡ length sizes.old }
    ensures values_room { length values.new ≡ length values.old }
    ensures steps { steps.new ≤ steps.old + marked_of marks.now (length graph.now.terms) }
{
    for id in 0..graph.nodes() {
        if marks[id] {
            let node = graph.node(NodeId::of(id));
            let size = size_of(node, sizes);
            let value = value_of(node, sizes, values, grid, t, steps);
            sizes[id] = size;
            values[id] = value;
        }
    }
}
