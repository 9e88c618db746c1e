// Evaluations that are tested before they are done.
ghost use Rattle.std.specs.Prelude.{◌≡◌, ◌≤◌, ◌<◌, ◌^◌, ◌+◌, ℕ, pos, length, slice_index, EachIndex, IsOk, IfOk, IfErr, IsTrue};
ghost use Rattle.mp_walk.specs.Cells.{cell_at};
ghost use Rattle.mp_walk.specs.Walk.{size};
ghost use Rattle.mp_path.specs.Points.{cells_of};
ghost use Rattle.mp_graph.specs.Shared.{term_at};
ghost use Rattle.mp_eval.specs.Given.{IsGiven};
ghost use Rattle.mp_eval.specs.Rows.{value_at};

use crate::added::{Refused, is_within};
use crate::ready::Ready;
use mp_base::{NoMemory, Steps};
use mp_eval::{EvalFault, Kind, Scratch, period};
use mp_graph::{Graph, NodeId, folded};
use mp_path::Grid;
use std::alloc::Global;
use std::sync::ledger::Ledger;

// Roots are fewer.
const ROOTS: usize = 4_294_967_296;

/// The values of roots up to the first that has none, and its fault.
#[derive(Drop)]
pub struct Answer<K: Kind> {
    pub values: Vec<K>,
    pub fault: Option<EvalFault>,
}

/// Whether a root can be evaluated in a period. The rows are as many as the nodes of the graph, and are written over.
fn is_ready(
    alloc: Global,
    graph: &Graph<'_>,
    root: NodeId,
    ready: &Ready<'_>,
    rows: &mut [u64],
) -> Result<bool, NoMemory>
    ensures within { IfOk result (λ r. IsTrue r → root < length graph.now.terms) }
    ensures given { IfOk result (λ r. IsTrue r → IsGiven (cell_at (cells_of ready.now.frame.now) (pos ready.now.period)) (term_at graph.now.terms root)) }
    ensures small { IfOk result (λ r. IsTrue r → size (term_at graph.now.terms root) < 2 ^ 32) }
    ensures room { length rows.new ≡ length rows.old }
{
    if !is_within(graph, root) || root.index() >= rows.len() {
        return Ok(false);
    }
    let own = graph.own_nodes(alloc, root)?;
    Ok(folded(graph, root, &own, rows, ready).is_ok())
}

/// Whether each of these roots can be evaluated in a period.
fn are_ready(
    alloc: Global,
    graph: &Graph<'_>,
    roots: &[NodeId],
    ready: &Ready<'_>,
) -> Result<bool, NoMemory>
    ensures within { IfOk result (λ r. IsTrue r → EachIndex roots.now (λ j. slice_index roots.now j < length graph.now.terms)) }
    ensures given { IfOk result (λ r. IsTrue r → EachIndex roots.now (λ j. IsGiven (cell_at (cells_of ready.now.frame.now) (pos ready.now.period)) (term_at graph.now.terms (slice_index roots.now j)))) }
    ensures small { IfOk result (λ r. IsTrue r → EachIndex roots.now (λ j. size (term_at graph.now.terms (slice_index roots.now j)) < 2 ^ 32)) }
{
    let mut rows = vec![in alloc; 0; graph.nodes()]?;
    'roots: for root in roots {
        if !is_ready(alloc, graph, *root, ready, &mut rows)? {
            return Ok(false);
        }
    }
    Ok(true)
}

/// The values of the first so many roots.
fn values_of<K: Kind>(
    alloc: Global,
    scratch: &Scratch<K>,
    roots: &[NodeId],
    count: usize,
) -> Result<Vec<K>, NoMemory>
    requires valued { (j : ℕ) → j < count → IsOk (value_at scratch.now.values.items (slice_index roots.now j)) }
{
    let mut values = Vec::new(alloc);
    for root in roots.iter().take(count) {
        let Ok(()) = values.push(scratch.value(*root)) else {
            return Err(NoMemory);
        };
    }
    Ok(values)
}

/// What `period` gives for these roots after so many turns.
fn evaluated<K: Kind, L: Ledger>(
    graph: &Graph<'_>,
    roots: &[NodeId],
    grid: &Grid,
    t: u32,
    turns: u32,
    scratch: &mut Scratch<K>,
    steps: &mut Steps<L>,
) -> Result<(), EvalFault>
    requires period { t < 2 ^ 30 }
    requires horizon { grid.now.edges.periods < 2 ^ 30 }
    requires marks_room { length graph.now.terms ≤ length scratch.old.marks.items }
    requires sizes_room { length graph.now.terms ≤ length scratch.old.sizes.items }
    requires values_room { length graph.now.terms ≤ length scratch.old.values.items }
    requires few { length roots.now < 2 ^ 32 }
    requires within { EachIndex roots.now (λ j. slice_index roots.now j < length graph.now.terms) }
    requires given { EachIndex roots.now (λ j. IsGiven (cell_at (cells_of grid.now) (pos t)) (term_at graph.now.terms (slice_index roots.now j))) }
    requires small { EachIndex roots.now (λ j. size (term_at graph.now.terms (slice_index roots.now j)) < 2 ^ 32) }
    ensures valued { IsOk result → EachIndex roots.now (λ j. IsOk (value_at scratch.new.values.items (slice_index roots.now j))) }
    ensures valued_before { IfErr result (λ f. (j : ℕ) → j + 1 < f.root → IsOk (value_at scratch.new.values.items (slice_index roots.now j))) }
{
    'turns: for _ in 0..turns {
        let _ = period(graph, roots, grid, t, scratch, steps);
    }
    period(graph, roots, grid, t, scratch, steps)
}

/// The values of these roots in a period and the first fault, after so many turns, if they can be asked.
pub fn answered<K: Kind, L: Ledger>(
    alloc: Global,
    graph: &Graph<'_>,
    roots: &[NodeId],
    ready: &Ready<'_>,
    turns: u32,
    steps: &mut Steps<L>,
) -> Result<Answer<K>, Refused> {
    let early = ready.is_early() && roots.len() < ROOTS;
    if !early || !are_ready(alloc, graph, roots, ready)? {
        return Err(Refused::NotLawful);
    }
    let mut scratch = Scratch::reserve(alloc, graph.nodes())?;
    let (grid, t) = (ready.frame.grid(), ready.period);
    let (count, fault) = match evaluated(graph, roots, grid, t, turns, &mut scratch, steps) {
        Ok(()) => (roots.len(), None),
        Err(fault) => ((fault.root as usize).saturating_sub(1), Some(fault)),
    };
    let values = values_of(alloc, &scratch, roots, count)?;
    Ok(Answer { values, fault })
}
