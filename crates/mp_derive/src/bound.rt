// How many operations derivatives have at most, in one pass over the own nodes of each residual.
ghost use Rattle.std.specs.Prelude.{◌≡◌, ◌<◌, ◌≤◌, length, map, IfOk};
ghost use Rattle.std.specs.List.{AllByRecursion, sum_by};
ghost use Rattle.mp_graph.specs.Images.{HasRows};
ghost use Rattle.mp_graph.specs.Part.{IsPart};
ghost use Rattle.mp_graph.specs.Shared.{term_at};
ghost use Rattle.mp_derivatives.specs.Bound.{bound_of};
ghost use Rattle.mp_derive.specs.Extent.{IsExtent, capped};

use crate::extent::{
    Extent, binary_extent, leaf_extent, negative_extent, pick_extent, power_extent,
};
use mp_base::NoMemory;
use mp_graph::{Fold, Graph, NodeId, NodeOp, folded, row_at};
use std::alloc::Global;
use std::convert::Infallible;

// Where a bound stops.
const CAP: u64 = 1000000000;

/// The extents of nodes.
#[derive(Drop)]
pub struct Extents;

// The extent of this operand of a node.
fn extent_at(graph: &Graph<'_>, rows: &[Extent], kid: NodeId, of: NodeId) -> Extent
    requires below { kid < of }
    requires table { of ≤ length rows.now }
    requires part { IsPart (term_at graph.now.terms kid) (term_at graph.now.terms of) }
    requires rows { HasRows graph.now.terms rows.now of IsExtent }
    ensures { IsExtent (term_at graph.now.terms kid) result }
{
    row_at(rows, kid)
}

// The extent of a node, by those of its kids in the table.
fn extent_of(graph: &Graph<'_>, id: NodeId, rows: &[Extent]) -> Extent
    requires within { id < length graph.now.terms }
    requires table { id ≤ length rows.now }
    requires rows { HasRows graph.now.terms rows.now id IsExtent }
    ensures { IsExtent (term_at graph.now.terms id) result }
{
    let node = graph.node(id);
    match node.op {
        NodeOp::Leaf(op) => leaf_extent(op),
        NodeOp::Neg => negative_extent(extent_at(graph, rows, node.kids[0], id)),
        NodeOp::Binary(op) => {
            let a = extent_at(graph, rows, node.kids[0], id);
            let b = extent_at(graph, rows, node.kids[1], id);
            binary_extent(op, a, b)
        }
        NodeOp::Pow(_) => power_extent(extent_at(graph, rows, node.kids[0], id)),
        NodeOp::Pick => {
            let a = extent_at(graph, rows, node.kids[0], id);
            let b = extent_at(graph, rows, node.kids[1], id);
            let c = extent_at(graph, rows, node.kids[2], id);
            let d = extent_at(graph, rows, node.kids[3], id);
            pick_extent(a, b, c, d)
        }
    }
}

impl Fold for Extents {
    type Row = Extent;

    type Fault = Infallible;

    ghost use Rattle.mp_derive.specs.Extent.{IsExtent};

    ghost is_row = { λ w t r. IsExtent t r };

    ghost is_fault = { λ w t f. ⊥ };

    fn row(&self, graph: &Graph<'_>, id: NodeId, rows: &[Extent]) -> Result<Extent, Infallible> {
        Ok(extent_of(graph, id, rows))
    }
}

// How many operations the derivatives of these nodes have at most, up to 10^9.
pub(crate) fn most_operations(
    alloc: Global,
    graph: &Graph<'_>,
    roots: &[NodeId],
) -> Result<u64, NoMemory>
    requires { AllByRecursion (λ r. r < length graph.now.terms) roots.now }
    ensures { IfOk result (λ n. n ≡ capped (sum_by bound_of (map (term_at graph.now.terms) roots.now))) }
{
    let blank = Extent {
        variables: 0,
        operations: 0,
        bound: 0,
    };
    let Ok(mut rows) = vec![in alloc; blank; graph.nodes()] else {
        return Err(NoMemory);
    };
    most_of_each(alloc, graph, roots, &mut rows)
}

// The same with a table by the numbers of nodes, which may hold anything.
fn most_of_each(
    alloc: Global,
    graph: &Graph<'_>,
    roots: &[NodeId],
    rows: &mut [Extent],
) -> Result<u64, NoMemory>
    requires within { AllByRecursion (λ r. r < length graph.now.terms) roots.now }
    requires table { length graph.now.terms ≤ length rows.old }
    ensures { IfOk result (λ n. n ≡ capped (sum_by bound_of (map (term_at graph.now.terms) roots.now))) }
{
    let mut most: u64 = 0;
    'turns: for root in roots {
        let more = most_of(alloc, graph, *root, rows)?;
        most = (most + more).min(CAP);
    }
    Ok(most)
}

// Those of the derivatives of one node.
fn most_of(
    alloc: Global,
    graph: &Graph<'_>,
    root: NodeId,
    rows: &mut [Extent],
) -> Result<u64, NoMemory>
    requires within { root < length graph.now.terms }
    requires table { root < length rows.old }
    ensures { IfOk result (λ n. n ≡ capped (bound_of (term_at graph.now.terms root))) }
{
    let own = graph.own_nodes(alloc, root)?;
    match folded(graph, root, &own, rows, &Extents) {
        Ok(extent) => Ok(extent.bound),
        Err(never) => match never {},
    }
}
