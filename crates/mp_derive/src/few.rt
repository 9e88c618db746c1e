// The residuals of equations, where their derivatives are few enough to be built.
ghost use Rattle.std.specs.Prelude.{◌≡◌, ◌<◌, length, map, IfOk};
ghost use Rattle.std.specs.List.{AllByRecursion, sum_by};
ghost use Rattle.mp_graph.specs.Shared.{term_at, Keeps};
ghost use Rattle.mp_model_data.specs.Shown.{IsWithin, equation_in, sides_of};
ghost use Rattle.mp_derivatives.specs.Derivatives.{derivatives_from, operations, residual};
ghost use Rattle.mp_derive.specs.Counted.{all_operations};
ghost use Rattle.mp_derive.specs.Gives.{AreFew};

use crate::bound::most_operations;
use crate::count::operations;
use crate::fault::DeriveFault;
use crate::residual::residuals;
use mp_base::NoMemory;
use mp_graph::{Graph, NodeId};
use mp_model_data::Equation;
use std::alloc::Global;

// The most operations that the derivatives of a model may have together.
const OPERATIONS_LIMIT: u128 = 2000000;

// The nodes of the residuals of these equations, whose sides are nodes of the graph. If the derivatives have too many
// operations, the fault tells how many.
pub(crate) fn few_enough(
    alloc: Global,
    graph: &mut Graph<'_>,
    equations: &[Equation<'_>],
) -> Result<Vec<NodeId>, DeriveFault>
    requires { AllByRecursion (IsWithin graph.old) (map sides_of equations.now) }
    ensures few { AreFew result (operations (derivatives_from 1 (map (equation_in graph.old.terms) (map sides_of equations.now)))) }
    ensures terms { IfOk result (λ v. map (term_at graph.new.terms) v.items ≡ map residual (map (equation_in graph.old.terms) (map sides_of equations.now))) }
    ensures within { IfOk result (λ v. AllByRecursion (λ r. r < length graph.new.terms) v.items) }
    ensures kept { Keeps graph.old graph.new }
{
    let roots = residuals(alloc, graph, equations)?;
    match test_few(alloc, graph, &roots) {
        Ok(()) => Ok(roots),
        Err(fault) => Err(fault),
    }
}

// Tests that the derivatives of these nodes have few enough operations. These are counted only where a bound, which
// costs less, does not show it.
fn test_few(alloc: Global, graph: &Graph<'_>, roots: &[NodeId]) -> Result<(), DeriveFault>
    requires { AllByRecursion (λ r. r < length graph.now.terms) roots.now }
    ensures { AreFew result (sum_by all_operations (map (term_at graph.now.terms) roots.now)) }
{
    mp_derivatives::bound_law();
    let most = most_operations(alloc, graph, roots)?;
    if (most as u128) <= OPERATIONS_LIMIT {
        return Ok(());
    }
    let count = operations(alloc, graph, roots)?;
    if count > OPERATIONS_LIMIT {
        return Err(DeriveFault::Large { count });
    }
    Ok(())
}
