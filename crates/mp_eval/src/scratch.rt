// The memory of an evaluation.
ghost use Rattle.std.specs.Prelude.{◌≡◌, ◌+◌, ◌≤◌, ◌<◌, ◌^◌, ℕ, List, Bool, Ok, IsOk, IfOk, IfErr, pos, length, map, slice_index, EachIndex};
ghost use Rattle.mp_semantics.specs.Term.{Term};
ghost use Rattle.mp_walk.specs.Cells.{cell_at};
ghost use Rattle.mp_walk.specs.Walk.{walk, size};
ghost use Rattle.mp_path.specs.Points.{cells_of};
ghost use Rattle.mp_graph.specs.Shared.{term_at};
ghost use Rattle.mp_eval.specs.Rows.{value_at};
ghost use Rattle.mp_eval.specs.Given.{marked_of, IsGiven, HoldAll, HasAll};
ghost use Rattle.mp_eval.specs.Roots.{first_fault, fault_of};

use crate::fault::Fault;
use crate::kind::Kind;
use crate::over::period_over;
use crate::roots::EvalFault;
use mp_base::{FixFault, NoMemory, Op, Steps};
use mp_graph::{Graph, NodeId};
use mp_path::Grid;
use std::alloc::Global;
use std::sync::ledger::Ledger;

const NONE: Fault = Fault {
    kind: FixFault::Overflow,
    node: 0,
    op: Op::Leaf,
};

/// Room for the evaluations of a graph: a mark, a size and a value for each of its nodes.
#[derive(Drop)]
pub struct Scratch<K: Kind> {
    pub marks: Vec<bool>,
    pub sizes: Vec<u32>,
    pub values: Vec<Result<K, Fault>>,
}

impl<K: Kind> Scratch<K> {
    /// Room for so many nodes.
    pub fn reserve(alloc: Global, nodes: usize) -> Result<Scratch<K>, NoMemory>
        ensures marks_room { IfOk result (λ s. length s.marks.items ≡ nodes) }
        ensures sizes_room { IfOk result (λ s. length s.sizes.items ≡ nodes) }
        ensures values_room { IfOk result (λ s. length s.values.items ≡ nodes) }
    {
        let marks = vec![in alloc; false; nodes]?;
        let sizes = vec![in alloc; 0; nodes]?;
        let values = vec![in alloc; Err(NONE); nodes]?;
        Ok(Scratch {
            marks,
            sizes,
            values,
        })
    }

    /// The value of a root that has one.
    pub fn value(&self, root: NodeId) -> K
        requires { IsOk (value_at self.now.values.items root) }
        ensures { value_at self.now.values.items root ≡ Ok result }
    {
        match self.values[root.index()] {
            Ok(value) => value,
            Err(_) => unreachable!(),
        }
    }
}

/// The values of these roots in a period, up to the first that has none, as `period_over` finds them. It takes no
/// memory.
pub fn period<K: Kind, L: Ledger>(
    graph: &Graph<'_>,
    roots: &[NodeId],
    grid: &Grid,
    t: u32,
    scratch: &mut Scratch<K>,
    steps: &mut Steps<L>,
) -> Result<(), EvalFault>
    requires period { t < 2 ^ 30 }
    requires horizon { grid.now.edges.periods < 2 ^ 30 }
    requires marks_room { length graph.now.terms ≤ length scratch.old.marks.items }
    requires sizes_room { length graph.now.terms ≤ length scratch.old.sizes.items }
    requires values_room { length graph.now.terms ≤ length scratch.old.values.items }
    requires few { length roots.now < 2 ^ 32 }
    requires roots { EachIndex roots.now (λ r. slice_index roots.now r < length graph.now.terms) }
    requires given { EachIndex roots.now (λ r. IsGiven (cell_at (cells_of grid.now) (pos t)) (term_at graph.now.terms (slice_index roots.now r))) }
    requires small { EachIndex roots.now (λ r. size (term_at graph.now.terms (slice_index roots.now r)) < 2 ^ 32) }
    ensures fault { fault_of result ≡ first_fault 1 (map (λ r. walk K.arithmetic (cell_at (cells_of grid.now) (pos t)) (term_at graph.now.terms r) 0) roots.now) }
    ensures values { EachIndex roots.now (λ r. value_at scratch.new.values.items (slice_index roots.now r) ≡ walk K.arithmetic (cell_at (cells_of grid.now) (pos t)) (term_at graph.now.terms (slice_index roots.now r)) 0) }
    ensures valued { IsOk result → EachIndex roots.now (λ r. IsOk (value_at scratch.new.values.items (slice_index roots.now r))) }
    ensures valued_before { IfErr result (λ f. (r : ℕ) → r + 1 < f.root → IsOk (value_at scratch.new.values.items (slice_index roots.now r))) }
    ensures marks_room { length scratch.new.marks.items ≡ length scratch.old.marks.items }
    ensures sizes_room { length scratch.new.sizes.items ≡ length scratch.old.sizes.items }
    ensures values_room { length scratch.new.values.items ≡ length scratch.old.values.items }
    ensures steps { (others : List Bool) → HoldAll graph.now.terms roots.now others → steps.new ≤ steps.old + marked_of others (length graph.now.terms) }
    ensures distinct { (list : List Term) → HasAll graph.now.terms roots.now list → steps.new ≤ steps.old + length list }
{
    period_over(
        graph,
        roots,
        grid,
        t,
        &mut scratch.marks,
        &mut scratch.sizes,
        &mut scratch.values,
        steps,
    )
}
