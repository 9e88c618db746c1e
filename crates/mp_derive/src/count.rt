// How many operations derivatives have, before any is built.
ghost use Rattle.std.specs.Prelude.{◌≡◌, ◌<◌, ◌≤◌, ◌^◌, length, map, min, IfOk};
ghost use Rattle.std.specs.List.{AllByRecursion, sum_by};
ghost use Rattle.mp_graph.specs.Own.{AreOwn};
ghost use Rattle.mp_graph.specs.Shared.{term_at};
ghost use Rattle.mp_diff.specs.Places.{place_shown};
ghost use Rattle.mp_derive.specs.Counted.{operations_by, all_operations};

use mp_base::NoMemory;
use mp_diff::{Place, Sizes, blank_sizes, derivative_counts, occurring_over};
use mp_graph::{Graph, NodeId};
use std::alloc::Global;

// Where a count stops.
const COUNT_LIMIT: u128 = 10000000000000000000000000000000000000;

// How many operations the derivatives of these nodes have, by all places that occur in each. Stops at 10^37.
pub(crate) fn operations(
    alloc: Global,
    graph: &Graph<'_>,
    roots: &[NodeId],
) -> Result<u128, NoMemory>
    requires { AllByRecursion (λ r. r < length graph.now.terms) roots.now }
    ensures { IfOk result (λ n. n ≡ min (sum_by all_operations (map (term_at graph.now.terms) roots.now)) (10 ^ 37)) }
{
    let Ok(mut rows) = vec![in alloc; blank_sizes(); graph.nodes()] else {
        return Err(NoMemory);
    };
    operations_of_each(alloc, graph, roots, &mut rows)
}

// The same with a table by the numbers of nodes, which may hold anything.
fn operations_of_each(
    alloc: Global,
    graph: &Graph<'_>,
    roots: &[NodeId],
    rows: &mut [Sizes],
) -> Result<u128, NoMemory>
    requires within { AllByRecursion (λ r. r < length graph.now.terms) roots.now }
    requires table { length graph.now.terms ≤ length rows.old }
    ensures { IfOk result (λ n. n ≡ min (sum_by all_operations (map (term_at graph.now.terms) roots.now)) (10 ^ 37)) }
{
    let mut count: u128 = 0;
    'turns: for root in roots {
        let more = operations_of(alloc, graph, *root, rows)?;
        count = (count + more).min(COUNT_LIMIT);
    }
    Ok(count)
}

// Those of the derivatives of one node.
fn operations_of(
    alloc: Global,
    graph: &Graph<'_>,
    root: NodeId,
    rows: &mut [Sizes],
) -> Result<u128, NoMemory>
    requires within { root < length graph.now.terms }
    requires table { root < length rows.old }
    ensures { IfOk result (λ n. n ≡ min (all_operations (term_at graph.now.terms root)) (10 ^ 37)) }
{
    let own = graph.own_nodes(alloc, root)?;
    let places = occurring_over(alloc, graph, root, &own)?;
    Ok(operations_by(graph, root, &own, rows, places.as_slice()))
}

// Those of its derivatives by these places, where its own nodes are given.
fn operations_by(
    graph: &Graph<'_>,
    root: NodeId,
    own: &[NodeId],
    rows: &mut [Sizes],
    places: &[Place],
) -> u128
    requires within { root < length graph.now.terms }
    requires own { AreOwn graph.now.terms root own.now }
    requires table { root < length rows.old }
    ensures { result ≡ min (operations_by (term_at graph.now.terms root) (map place_shown places.now)) (10 ^ 37) }
{
    let mut count: u128 = 0;
    'turns: for place in places {
        let more = derivative_counts(graph, root, own, rows, place.variable(), place.shift);
        count = (count + more).min(COUNT_LIMIT);
    }
    count
}
