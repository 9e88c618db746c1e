// The evaluation of a period.
ghost use Rattle.std.specs.Prelude.{◌≡◌, ◌+◌, ◌≤◌, ◌<◌, ◌^◌, ℕ, List, Bool, IsOk, IfErr, pos, length, map, slice_index, EachIndex};
ghost use Rattle.mp_semantics.specs.Term.{Term};
ghost use Rattle.mp_walk.specs.Cells.{cell_at};
ghost use Rattle.mp_walk.specs.Walk.{walk, size};
ghost use Rattle.mp_path.specs.Points.{cells_of};
ghost use Rattle.mp_graph.specs.Shared.{term_at};
ghost use Rattle.mp_eval.specs.Rows.{value_at};
ghost use Rattle.mp_eval.specs.Given.{marked_of, IsGiven, HoldAll, HasAll};
ghost use Rattle.mp_eval.specs.Roots.{first_fault, fault_of};

use crate::fault::Fault;
use crate::kind::Kind;
use crate::marked::evaluate;
use crate::marks::mark;
use crate::roots::{EvalFault, first_of};
use mp_base::Steps;
use mp_graph::{Graph, NodeId};
use mp_path::Grid;
use std::sync::ledger::Ledger;

/// The values of these roots in a period, up to the first that has none. Each node that stands in them is computed
/// once. It takes no memory.
pub fn period_over<K: Kind, L: Ledger>(
    graph: &Graph<'_>,
    roots: &[NodeId],
    grid: &Grid,
    t: u32,
    marks: &mut [bool],
    sizes: &mut [u32],
    values: &mut [Result<K, Fault>],
    steps: &mut Steps<L>,
) -> Result<(), EvalFault>
    requires period { t < 2 ^ 30 }
    requires horizon { grid.now.edges.periods < 2 ^ 30 }
    requires marks_room { length graph.now.terms ≤ length marks.old }
    requires sizes_room { length graph.now.terms ≤ length sizes.old }
    requires values_room { length graph.now.terms ≤ length values.old }
    requires few { length roots.now < 2 ^ 32 }
    requires roots { EachIndex roots.now (λ r. slice_index roots.now r < length graph.now.terms) }
    requires given { EachIndex roots.now (λ r. IsGiven (cell_at (cells_of grid.now) (pos t)) (term_at graph.now.terms (slice_index roots.now r))) }
    requires small { EachIndex roots.now (λ r. size (term_at graph.now.terms (slice_index roots.now r)) < 2 ^ 32) }
    ensures fault { fault_of result ≡ first_fault 1 (map (λ r. walk K.arithmetic (cell_at (cells_of grid.now) (pos t)) (term_at graph.now.terms r) 0) roots.now) }
    ensures values { EachIndex roots.now (λ r. value_at values.new (slice_index roots.now r) ≡ walk K.arithmetic (cell_at (cells_of grid.now) (pos t)) (term_at graph.now.terms (slice_index roots.now r)) 0) }
    ensures valued { IsOk result → EachIndex roots.now (λ r. IsOk (value_at values.new (slice_index roots.now r))) }
    ensures valued_before { IfErr result (λ f. (r : ℕ) → r + 1 < f.root → IsOk (value_at values.new (slice_index roots.now r))) }
    ensures marks_room { length marks.new ≡ length marks.old }
    ensures sizes_room { length sizes.new ≡ length sizes.old }
    ensures values_room { length values.new ≡ length values.old }
    ensures steps { (others : List Bool) → HoldAll graph.now.terms roots.now others → steps.new ≤ steps.old + marked_of others (length graph.now.terms) }
    ensures distinct { (list : List Term) → HasAll graph.now.terms roots.now list → steps.new ≤ steps.old + length list }
{
    graph.unique();
    mark(graph, roots, marks);
    evaluate(graph, marks, grid, t, sizes, values, steps);
    first_of(roots, values)
}
