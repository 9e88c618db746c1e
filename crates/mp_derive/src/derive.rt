// The derivatives of a model.
ghost use Rattle.std.specs.Prelude.{◌≡◌, ◌<◌, ◌≤◌, ◌++◌, length, map, IfOk, OnOk};
ghost use Rattle.std.specs.List.{AllByRecursion};
ghost use Rattle.mp_graph.specs.Own.{AreOwn};
ghost use Rattle.mp_graph.specs.Shared.{term_at, Keeps};
ghost use Rattle.mp_slopes.specs.Derivative.{HasDerivative};
ghost use Rattle.mp_diff.specs.Places.{place_shown};
ghost use Rattle.mp_model_data.specs.Shown.{IsWithin, equation_in, model_data, sides_of};
ghost use Rattle.mp_derivatives.specs.Derivatives.{derivation, derivatives_from, derivatives_of, operations};
ghost use Rattle.mp_derivatives.specs.Derived.{HaveDerivatives, SidesHaveDerivatives, derived};
ghost use Rattle.mp_derive.specs.Gives.{AreFew, Gives, Tests};
ghost use Rattle.mp_derive.specs.Listed.{derivative_by, derivatives_by};

use crate::fault::DeriveFault;
use crate::few::few_enough;
use crate::slope::{Residual, derivative_at};
use mp_base::NoMemory;
use mp_diff::{Place, occurring_over};
use mp_graph::{Graph, NodeId};
use mp_model_data::{Equation, Model, Parts};
use mp_report::Derivatives;
use std::alloc::Global;

/// The derivatives of a model, of the difference of both sides of each equation by each variable and shift that occurs
/// in it: by equations, then in the order of places. If they have more than 2,000,000 operations together, as trees, none
/// is built, and the fault tells how many, where the count stops at 10^37 (modpath's own).
pub fn derivatives<'t>(alloc: Global, model: Model<'t>) -> Result<Derivatives<'t>, DeriveFault>
    requires has { HaveDerivatives (model_data model) }
    ensures given { Gives result (derived (model_data model.entry)) }
{
    let Parts {
        mut graph,
        parameters: _,
        equations,
    } = model.into_parts();
    let result = derivatives_in(alloc, &mut graph, &equations);
    // By a call, since what a graph holds is dear to prove let go at a block's end.
    drop(graph);
    result
}

/// Tests that the derivatives of a model have at most 2,000,000 operations together, and builds none (modpath's own).
pub fn tested(alloc: Global, model: Model<'_>) -> Result<(), DeriveFault>
    ensures given { Tests result (model_data model.entry) }
{
    let Parts {
        mut graph,
        parameters: _,
        equations,
    } = model.into_parts();
    let roots = few_enough(alloc, &mut graph, &equations);
    // By a call, as in `derivatives`.
    drop(graph);
    roots?;
    Ok(())
}

// The derivatives of these equations, whose sides are nodes of the graph.
fn derivatives_in<'t>(
    alloc: Global,
    graph: &mut Graph<'t>,
    equations: &[Equation<'t>],
) -> Result<Derivatives<'t>, DeriveFault>
    requires within { AllByRecursion (IsWithin graph.old) (map sides_of equations.now) }
    requires has { AllByRecursion SidesHaveDerivatives (map (equation_in graph.old.terms) (map sides_of equations.now)) }
    ensures few { AreFew result (operations (derivatives_from 1 (map (equation_in graph.old.terms) (map sides_of equations.now)))) }
    ensures all { IfOk result (λ ds. ds ≡ map (derivation graph.old.names) (derivatives_from 1 (map (equation_in graph.old.terms) (map sides_of equations.now)))) }
{
    let roots = few_enough(alloc, graph, equations)?;
    let list = all_derivatives(alloc, graph, &roots)?;
    Ok(list)
}

// The derivatives of these nodes, which are the residuals of all equations in order.
fn all_derivatives<'t>(
    alloc: Global,
    graph: &mut Graph<'t>,
    roots: &[NodeId],
) -> Result<Derivatives<'t>, NoMemory>
    requires within { AllByRecursion (λ r. r < length graph.old.terms) roots.now }
    requires has { AllByRecursion HasDerivative (map (term_at graph.old.terms) roots.now) }
    ensures { IfOk result (λ ds. ds ≡ map (derivation graph.old.names) (derivatives_by 1 (map (term_at graph.old.terms) roots.now))) }
{
    let mut list = Derivatives::new(alloc);
    let Ok(mut images) = vec![in alloc; NodeId::of(0); graph.nodes()] else {
        return Err(NoMemory);
    };
    add_each(alloc, graph, roots, &mut images, &mut list)?;
    Ok(list)
}

// Adds them, with a table by the numbers of nodes, which may hold anything.
fn add_each<'t>(
    alloc: Global,
    graph: &mut Graph<'t>,
    roots: &[NodeId],
    images: &mut [NodeId],
    list: &mut Derivatives<'t>,
) -> Result<(), NoMemory>
    requires within { AllByRecursion (λ r. r < length graph.old.terms) roots.now }
    requires has { AllByRecursion HasDerivative (map (term_at graph.old.terms) roots.now) }
    requires table { length graph.old.terms ≤ length images.old }
    ensures { OnOk result (list.new ≡ list.old ++ map (derivation graph.old.names) (derivatives_by 1 (map (term_at graph.old.terms) roots.now))) }
{
    'turns: for place in 0..roots.len() {
        add_all(alloc, graph, place + 1, roots[place], images, list)?;
    }
    Ok(())
}

// Adds the derivatives of this node, which is the residual of the equation of this number, by all places in it.
fn add_all<'t>(
    alloc: Global,
    graph: &mut Graph<'t>,
    equation: usize,
    root: NodeId,
    images: &mut [NodeId],
    list: &mut Derivatives<'t>,
) -> Result<(), NoMemory>
    requires within { root < length graph.old.terms }
    requires has { HasDerivative (term_at graph.old.terms root) }
    requires table { root < length images.old }
    ensures added { OnOk result (list.new ≡ list.old ++ map (derivation graph.old.names) (derivatives_of equation (term_at graph.old.terms root))) }
    ensures kept { Keeps graph.old graph.new }
{
    let own = graph.own_nodes(alloc, root)?;
    let places = occurring_over(alloc, graph, root, &own)?;
    let residual = Residual {
        equation,
        root,
        own: &own,
    };
    add_by(alloc, graph, &residual, places.as_slice(), images, list)
}

// Adds its derivatives by these places.
fn add_by<'t>(
    alloc: Global,
    graph: &mut Graph<'t>,
    residual: &Residual<'_>,
    places: &[Place],
    images: &mut [NodeId],
    list: &mut Derivatives<'t>,
) -> Result<(), NoMemory>
    requires within { residual.now.root < length graph.old.terms }
    requires own { AreOwn graph.old.terms residual.now.root residual.now.own.now }
    requires has { HasDerivative (term_at graph.old.terms residual.now.root) }
    requires table { residual.now.root < length images.old }
    ensures added { OnOk result (list.new ≡ list.old ++ map (derivation graph.old.names) (map (derivative_by residual.now.equation (term_at graph.old.terms residual.now.root)) (map place_shown places.now))) }
    ensures kept { Keeps graph.old graph.new }
{
    mp_graph::own_laws();
    'turns: for place in places {
        let derivative = match derivative_at(alloc, graph, residual, *place, images) {
            Ok(derivative) => derivative,
            Err(NoMemory) => return Err(NoMemory),
        };
        list.add(derivative)?;
    }
    Ok(())
}
