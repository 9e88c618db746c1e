// The variables of each equation.
ghost use Rattle.std.specs.Prelude.{◌≡◌, ◌<◌, ◌+◌, ◌^◌, ◌↔◌, ℕ, length, slice_index, IfNone, IfOk, IfSome, OnOk};
ghost use Rattle.mp_expr.specs.Shown.{place_of};
ghost use Rattle.mp_graph.specs.Shared.{term_at};
ghost use Rattle.mp_model_data.specs.Shown.{equation_in, sides_of, source_data};
ghost use Rattle.mp_blocks.specs.Marks.{AddsMarks, IsAmong, IsVariable};
ghost use Rattle.mp_blocks.specs.Rows.{AreRows, IsRow, IsSquare, OccursIn, StandsIn};
ghost use Rattle.mp_pairing.specs.Pairing.{IsWithin};

use mp_base::NoMemory;
use mp_expr::VarId;
use mp_graph::{Graph, LeafOp, NodeId, NodeOp};
use mp_incidence::{Numbers, marked};
use mp_model_data::{Equation, Model};
use mp_statements::NameKind;
use std::alloc::Global;

/// The variables of each equation of the source, by their numbers from 0, where there are as many of both.
pub(crate) fn square_rows(alloc: Global, model: &Model) -> Result<Vec<Numbers>, NoMemory>
    requires { IsSquare (source_data model.now) }
    ensures rows { IfOk result (λ rows. AreRows (source_data model.now) rows.items) }
    ensures small { IfOk result (λ rows. length rows.items + 1 < 2 ^ 32) }
    ensures within { IfOk result (λ rows. IsWithin rows.items) }
{
    let _names = model.graph().names().count(NameKind::Endogenous);
    let _variables = model.source_variables();
    rows(alloc, model)
}

// The variables of each equation of the source.
fn rows(alloc: Global, model: &Model) -> Result<Vec<Numbers>, NoMemory>
    ensures { IfOk result (λ rows. AreRows (source_data model.now) rows.items) }
{
    let mut rows = Vec::new(alloc);
    let variables = model.source_variables() as usize;
    let equations = model.source_equations();
    'equations: for i in 0..equations.len() {
        rows.push(row(alloc, model.graph(), &equations[i], variables)?)?;
    }
    Ok(rows)
}

// The variables that occur in the equation; there are so many in all.
fn row(
    alloc: Global,
    graph: &Graph<'_>,
    equation: &Equation<'_>,
    variables: usize,
) -> Result<Numbers, NoMemory>
    requires left { equation.now.left < length graph.now.terms }
    requires right { equation.now.right < length graph.now.terms }
    requires few { variables < 2 ^ 32 }
    ensures { IfOk result (λ vs. IsRow variables (equation_in graph.now.terms (sides_of equation.now)) vs) }
{
    let mut marks = vec![in alloc; false; variables]?;
    mark_both(alloc, graph, equation, &mut marks)?;
    marked(alloc, &marks)
}

// Marks the variables that stand in one of the sides.
fn mark_both(
    alloc: Global,
    graph: &Graph<'_>,
    equation: &Equation<'_>,
    marks: &mut [bool],
) -> Result<(), NoMemory>
    requires left { equation.now.left < length graph.now.terms }
    requires right { equation.now.right < length graph.now.terms }
    ensures { OnOk result (AddsMarks (λ v. OccursIn v (equation_in graph.now.terms (sides_of equation.now))) marks.old marks.new) }
{
    mark_all(alloc, graph, equation.left, marks)?;
    mark_all(alloc, graph, equation.right, marks)?;
    Ok(())
}

// Marks the variables that stand in this node.
fn mark_all(
    alloc: Global,
    graph: &Graph<'_>,
    root: NodeId,
    marks: &mut [bool],
) -> Result<(), NoMemory>
    requires { root < length graph.now.terms }
    ensures { OnOk result (AddsMarks (λ v. StandsIn v (term_at graph.now.terms root)) marks.old marks.new) }
{
    let own = graph.own_nodes(alloc, root)?;
    mark_each(graph, &own, marks);
    mp_graph::own_laws();
    Ok(())
}

// Marks those of these nodes that are variables.
fn mark_each(graph: &Graph<'_>, ids: &[NodeId], marks: &mut [bool])
    requires { (j : ℕ) → j < length ids.now → slice_index ids.now j < length graph.now.terms }
    ensures { AddsMarks (IsAmong graph.now.terms ids.now (length ids.now)) marks.old marks.new }
{
    'nodes: for i in 0..ids.len() {
        mark(graph, ids[i], marks);
    }
}

// Marks the node, if it is a variable.
fn mark(graph: &Graph<'_>, id: NodeId, marks: &mut [bool])
    requires { id < length graph.now.terms }
    ensures { AddsMarks (λ v. IsVariable v (term_at graph.now.terms id)) marks.old marks.new }
{
    if let Some(v) = variable_at(graph, id) {
        let v = v as usize;
        if v < marks.len() {
            marks[v] = true;
        }
    }
}

// The variable that the node is, by its number from 0, if it is one.
fn variable_at(graph: &Graph<'_>, id: NodeId) -> Option<u32>
    requires { id < length graph.now.terms }
    ensures none { IfNone result ((v : ℕ) → IsVariable v (term_at graph.now.terms id) → ⊥) }
    ensures some { IfSome result (λ u. (v : ℕ) → IsVariable v (term_at graph.now.terms id) ↔ (u ≡ v)) }
{
    match graph.node(id).op {
        NodeOp::Leaf(
            LeafOp::Var {
                v: VarId::Endo(n),
                ..
            },
        ) => Some(place_of(n)),
        NodeOp::Leaf(LeafOp::Anchor(n)) => Some(place_of(n)),
        _ => None,
    }
}

// The number from 0 of a name's number from 1.
fn place_of(n: u32) -> u32
    ensures { result ≡ place_of n }
{
    if n == 0 { u32::MAX } else { n - 1 }
}
