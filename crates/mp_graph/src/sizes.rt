// The sizes of all nodes of a graph.
ghost use Rattle.std.specs.Prelude.{◌≡◌, ◌^◌, min, map, IfOk};
ghost use Rattle.std.specs.List.{AllZip};
ghost use Rattle.mp_expr.specs.Size.{count_of, height_of};

use crate::count::Counts;
use crate::fold::Fold;
use crate::graph::Graph;
use crate::height::Heights;
use crate::node_id::NodeId;
use mp_base::NoMemory;
use std::alloc::Global;
use std::convert::Infallible;

/// How many nodes the longest way down from each node has, by the numbers of the nodes; a leaf has 1. Each node is asked
/// once.
pub fn all_heights(alloc: Global, graph: &Graph<'_>) -> Result<Vec<u64>, NoMemory>
    ensures { IfOk result (λ rows. rows.items ≡ map height_of graph.now.terms) }
{
    graph.whole();
    let rows = each_row(alloc, graph, &Heights)?;
    Ok(rows)
}

/// How many places in the expression of each node hold an operation, by the numbers of the nodes: a shared operand counts
/// wherever it stands. Stops at 10^37. Each node is asked once.
pub fn all_counts(alloc: Global, graph: &Graph<'_>) -> Result<Vec<u128>, NoMemory>
    ensures { IfOk result (λ rows. rows.items ≡ map (λ t. min (count_of t) (10 ^ 37)) graph.now.terms) }
{
    let rows = each_row(alloc, graph, &Counts)?;
    Ok(rows)
}

// The row of each node, by the numbers of the nodes.
fn each_row<F: Fold<Fault = Infallible>>(
    alloc: Global,
    graph: &Graph<'_>,
    fold: &F,
) -> Result<Vec<F::Row>, NoMemory>
    ensures { IfOk result (λ rows. AllZip (F.is_row fold.now) graph.now.terms rows.items) }
{
    let mut rows = Vec::new(alloc);
    'nodes: for index in 0..graph.nodes() {
        let row = match fold.row(graph, NodeId::of(index), &rows) {
            Ok(row) => row,
            Err(never) => match never {},
        };
        let Ok(()) = rows.push(row) else {
            return Err(NoMemory);
        };
    }
    Ok(rows)
}
