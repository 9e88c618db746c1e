// The equations of the transformed model.
ghost use Rattle.std.specs.Prelude.{◌≡◌, ◌<◌, ◌+◌, [], ◌∷◌, ◌++◌, length, map, IfOk, OnOk};
ghost use Rattle.std.specs.List.{AllByRecursion};
ghost use Rattle.mp_semantics.specs.Term.{leaf, variable, endogenous};
ghost use Rattle.mp_graph.specs.Shared.{term_at, Says, Keeps};
ghost use Rattle.mp_model_data.specs.Shown.{equation_in, sides_of, IsWithin};
ghost use Rattle.mp_solutions.specs.Auxiliaries.{shift_by};
ghost use Rattle.mp_solutions.specs.Transformed.{short, short_equation};
ghost use Rattle.mp_shift.specs.Called.{auxiliary_of, direction_of};
ghost use Rattle.mp_shift.specs.Equations.{own_equation, own_equations, HasRoom, HasStandIns};
ghost use Rattle.mp_shift.specs.Stand.{stand_by, ReadsNames};

use crate::first::First;
use crate::list::Auxiliaries;
use crate::parts::{Auxiliary, Direction};
use crate::shorten::short_form;
use mp_base::NoMemory;
use mp_expr::VarId;
use mp_graph::{Graph, LeafOp, NodeId, NodeOp};
use mp_model_data::Equation;
use mp_statements::NameKind;
use std::alloc::Global;

// These equations in short form, where the stand-ins of each variable begin at these places. The table is by the numbers
// of nodes.
pub(crate) fn short_equations<'t>(
    alloc: Global,
    graph: &mut Graph<'t>,
    equations: &[Equation<'t>],
    images: &mut [NodeId],
    firsts: &[First],
) -> Result<Vec<Equation<'t>>, NoMemory>
    requires within { AllByRecursion (IsWithin graph.old) (map sides_of equations.now) }
    requires room { AllByRecursion (HasRoom (length images.old)) (map sides_of equations.now) }
    requires named { AllByRecursion (HasStandIns graph.old.names.endogenous graph.old.terms firsts.now) (map sides_of equations.now) }
    ensures equations { IfOk result (λ v. map (equation_in graph.new.terms) (map sides_of v.items) ≡ map (short_equation (stand_by firsts.now)) (map (equation_in graph.old.terms) (map sides_of equations.now))) }
    ensures within { IfOk result (λ v. AllByRecursion (IsWithin graph.new) (map sides_of v.items)) }
    ensures kept { Keeps graph.old graph.new }
{
    let mut found = Vec::new(alloc);
    add_short_equations(alloc, graph, equations, images, firsts, &mut found)?;
    Ok(found)
}

// Adds them to a list that has none.
fn add_short_equations<'t>(
    alloc: Global,
    graph: &mut Graph<'t>,
    equations: &[Equation<'t>],
    images: &mut [NodeId],
    firsts: &[First],
    found: &mut Vec<Equation<'t>>,
) -> Result<(), NoMemory>
    requires none { found.old.items ≡ [] }
    requires within { AllByRecursion (IsWithin graph.old) (map sides_of equations.now) }
    requires room { AllByRecursion (HasRoom (length images.old)) (map sides_of equations.now) }
    requires named { AllByRecursion (HasStandIns graph.old.names.endogenous graph.old.terms firsts.now) (map sides_of equations.now) }
    ensures equations { OnOk result (map (equation_in graph.new.terms) (map sides_of found.new.items) ≡ map (short_equation (stand_by firsts.now)) (map (equation_in graph.old.terms) (map sides_of equations.now))) }
    ensures within { OnOk result (AllByRecursion (IsWithin graph.new) (map sides_of found.new.items)) }
    ensures kept { Keeps graph.old graph.new }
{
    'turns: for equation in equations {
        let short = match short_sides(alloc, graph, equation, images, firsts) {
            Ok(short) => short,
            Err(NoMemory) => return Err(NoMemory),
        };
        push(found, &short)?;
    }
    Ok(())
}

// One of them.
fn short_sides<'t>(
    alloc: Global,
    graph: &mut Graph<'t>,
    equation: &Equation<'t>,
    images: &mut [NodeId],
    firsts: &[First],
) -> Result<Equation<'t>, NoMemory>
    requires within { IsWithin graph.old (sides_of equation.now) }
    requires room { HasRoom (length images.old) (sides_of equation.now) }
    requires named { HasStandIns graph.old.names.endogenous graph.old.terms firsts.now (sides_of equation.now) }
    ensures equation { IfOk result (λ r. equation_in graph.new.terms (sides_of r) ≡ short_equation (stand_by firsts.now) (equation_in graph.old.terms (sides_of equation.now))) }
    ensures within { IfOk result (λ r. IsWithin graph.new (sides_of r)) }
    ensures kept { Keeps graph.old graph.new }
{
    let left = short_side(alloc, graph, equation.left, images, firsts)?;
    let right = short_side(alloc, graph, equation.right, images, firsts)?;
    Ok(Equation {
        name: equation.name,
        left,
        right,
    })
}

fn short_side(
    alloc: Global,
    graph: &mut Graph<'_>,
    root: NodeId,
    images: &mut [NodeId],
    firsts: &[First],
) -> Result<NodeId, NoMemory>
    requires within { root < length graph.old.terms }
    requires room { root < length images.old }
    requires named { ReadsNames graph.old.names.endogenous (short (stand_by firsts.now) (term_at graph.old.terms root)) }
    ensures says { IfOk result (λ r. Says graph.new r (short (stand_by firsts.now) (term_at graph.old.terms root))) }
    ensures kept { Keeps graph.old graph.new }
{
    let own = graph.own_nodes(alloc, root)?;
    short_form(graph, root, own.as_slice(), images, firsts)
}

// Adds the equations of these auxiliaries, where so many variables stand before them.
pub(crate) fn add_own_equations<'t>(
    graph: &mut Graph<'t>,
    found: &mut Vec<Equation<'t>>,
    auxiliaries: &Auxiliaries,
    variables: u32,
) -> Result<(), NoMemory>
    requires within { AllByRecursion (IsWithin graph.old) (map sides_of found.old.items) }
    requires named { length graph.old.names.endogenous ≡ variables + length auxiliaries.now }
    requires places { AllByRecursion (λ x. x.auxiliary.place < variables) auxiliaries.now }
    ensures equations { OnOk result (map (equation_in graph.new.terms) (map sides_of found.new.items) ≡ map (equation_in graph.old.terms) (map sides_of found.old.items) ++ own_equations variables (map (λ x. x.auxiliary) auxiliaries.now)) }
    ensures within { OnOk result (AllByRecursion (IsWithin graph.new) (map sides_of found.new.items)) }
    ensures kept { Keeps graph.old graph.new }
{
    let _few = graph.names().count(NameKind::Endogenous);
    'turns: for place in 0..auxiliaries.count() {
        let called = auxiliaries.get(place);
        let equation = match own_sides(graph, called.auxiliary, variables + place as u32) {
            Ok(equation) => equation,
            Err(NoMemory) => return Err(NoMemory),
        };
        push(found, &equation)?;
    }
    Ok(())
}

// The equation of this auxiliary, which has this place: it is what stands before it in its chain, one period on.
fn own_sides<'t>(
    graph: &mut Graph<'t>,
    auxiliary: Auxiliary,
    own: u32,
) -> Result<Equation<'t>, NoMemory>
    requires own { own < length graph.old.names.endogenous }
    requires place { auxiliary.place < own }
    ensures equation { IfOk result (λ r. equation_in graph.new.terms (sides_of r) ≡ own_equation own (auxiliary_of auxiliary)) }
    ensures within { IfOk result (λ r. IsWithin graph.new (sides_of r)) }
    ensures kept { Keeps graph.old graph.new }
{
    let before = if auxiliary.index == 0 {
        auxiliary.place
    } else {
        own - 1
    };
    let left = variable_node(graph, own, 0)?;
    let right = variable_node(graph, before, one_on(auxiliary.direction))?;
    Ok(Equation {
        name: None,
        left,
        right,
    })
}

// One period that way.
fn one_on(direction: Direction) -> i16
    ensures { result ≡ shift_by (direction_of direction) 1 }
{
    match direction {
        Direction::Lead => 1,
        Direction::Lag => -1,
    }
}

// The endogenous variable at this place, from 0, so many periods later.
fn variable_node(graph: &mut Graph<'_>, place: u32, shift: i16) -> Result<NodeId, NoMemory>
    requires { place < length graph.old.names.endogenous }
    ensures says { IfOk result (λ r. Says graph.new r (leaf (variable (endogenous place) shift))) }
    ensures kept { Keeps graph.old graph.new }
{
    let _few = graph.names().count(NameKind::Endogenous);
    let v = VarId::Endo(place + 1);
    graph.intern(NodeOp::Leaf(LeafOp::Var { v, shift }), &[])
}

// By a call, since an equation that came back from a full list would be let go where the graph is lent.
fn push<'t>(found: &mut Vec<Equation<'t>>, equation: &Equation<'t>) -> Result<(), NoMemory>
    ensures { OnOk result (map sides_of found.new.items ≡ map sides_of found.old.items ++ sides_of equation.now ∷ []) }
{
    let Ok(()) = found.push(Equation {
        name: equation.name,
        left: equation.left,
        right: equation.right,
    }) else {
        return Err(NoMemory);
    };
    Ok(())
}
