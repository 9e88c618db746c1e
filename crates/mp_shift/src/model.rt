// The transformed model.
ghost use Rattle.std.specs.Prelude.{◌≡◌, ◌<◌, length, map, IfOk, OnOk};
ghost use Rattle.std.specs.List.{AllByRecursion};
ghost use Rattle.mp_model_data.specs.Shown.{model_data, source_data, sides_of, IsWithin};
ghost use Rattle.mp_solutions.specs.ShortForm.{IsShortForm};
ghost use Rattle.mp_solutions.specs.Transformed.{transformed};
ghost use Rattle.mp_shift.specs.Called.{AreOf, AreNew, with_names};
ghost use Rattle.mp_shift.specs.Equations.{AreBuilt, HasStandIns};

use crate::equations::{add_own_equations, short_equations};
use crate::first::{First, firsts};
use crate::list::Auxiliaries;
use mp_base::NoMemory;
use mp_graph::{Graph, NodeId};
use mp_model_data::{Equation, Model, Parts};
use mp_statements::NameKind;
use std::alloc::Global;

/// The transformed model, which has these auxiliary variables: long leads and lags are replaced by them (Dynare manual,
/// "Auxiliary variables"). The model itself is its source.
pub fn transform<'n>(
    alloc: Global,
    model: Model<'n>,
    auxiliaries: &'n Auxiliaries,
) -> Result<Model<'n>, NoMemory>
    requires { AreOf (model_data model) auxiliaries.now }
    ensures transformed { IfOk result (λ m. model_data m ≡ transformed (model_data model.entry)) }
    ensures source { IfOk result (λ m. source_data m ≡ model_data model.entry) }
    // A path solves it exactly when it solves the source and has the shifted values.
    ensures short_form { IfOk result (λ m. IsShortForm (model_data model.entry) (model_data m)) }
{
    mp_solutions::short_form_law();
    model.closed();
    model.graph().names().distinct(NameKind::Endogenous);
    let Ok(firsts) = firsts(alloc, &model) else {
        // By a call, so that no way out of this function lets go of a model itself.
        drop(model);
        return Err(NoMemory);
    };
    let Parts {
        mut graph,
        parameters,
        equations: source,
    } = model.into_parts();
    let names = graph.names();
    let variables = names.count(NameKind::Endogenous);
    let sides = source.as_slice();
    let begins = firsts.as_slice();
    let Ok(equations) = all_equations(alloc, &mut graph, sides, auxiliaries, begins) else {
        // By a call, as above.
        drop(graph);
        return Err(NoMemory);
    };
    Ok(Model::with_source(graph, parameters, equations, source, variables))
}

// The equations of the transformed model, where those of its source stand in the graph.
fn all_equations<'n>(
    alloc: Global,
    graph: &mut Graph<'n>,
    source: &[Equation<'n>],
    auxiliaries: &'n Auxiliaries,
    firsts: &[First],
) -> Result<Vec<Equation<'n>>, NoMemory>
    requires within { AllByRecursion (IsWithin graph.old) (map sides_of source.now) }
    requires new { AreNew graph.old.names auxiliaries.now }
    requires places { AllByRecursion (λ x. x.auxiliary.place < length graph.old.names.endogenous) auxiliaries.now }
    requires stand_ins { AllByRecursion (HasStandIns (with_names auxiliaries.now graph.old.names).endogenous graph.old.terms firsts.now) (map sides_of source.now) }
    ensures { IfOk result (λ v. AreBuilt graph.old graph.new (map sides_of source.now) auxiliaries.now firsts.now (map sides_of v.items)) }
{
    let variables = graph.names().count(NameKind::Endogenous);
    let mut images = blank_images(alloc, graph.nodes())?;
    add_names(graph, auxiliaries)?;
    let mut found = short_equations(alloc, graph, source, &mut images, firsts)?;
    add_own_equations(graph, &mut found, auxiliaries, variables)?;
    Ok(found)
}

// A table for so many nodes.
fn blank_images(alloc: Global, nodes: usize) -> Result<Vec<NodeId>, NoMemory>
    ensures { IfOk result (λ v. length v.items ≡ nodes) }
{
    match vec![in alloc; NodeId::of(0); nodes] {
        Ok(images) => Ok(images),
        Err(_) => Err(NoMemory),
    }
}

// Names these variables in the graph, as the last ones.
fn add_names<'n>(graph: &mut Graph<'n>, auxiliaries: &'n Auxiliaries) -> Result<(), NoMemory>
    requires { AreNew graph.old.names auxiliaries.now }
    ensures { OnOk result (graph.new ≡ record { names = with_names auxiliaries.now graph.old.names; terms = graph.old.terms }) }
{
    'turns: for place in 0..auxiliaries.count() {
        graph.add_endogenous(auxiliaries.get(place).name)?;
    }
    Ok(())
}
