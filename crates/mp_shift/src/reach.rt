// The greatest leads and lags of a model's endogenous variables.
ghost use Rattle.std.specs.Prelude.{◌≡◌, ◌<◌, max, length, map, replicate, slice_index, EachIndex, IfOk, OnOk};
ghost use Rattle.std.specs.List.{AllByRecursion};
ghost use Rattle.mp_graph.specs.Shared.{term_at};
ghost use Rattle.mp_model_data.specs.Shown.{equation_in, model_data, sides_of, IsWithin};
ghost use Rattle.mp_solutions.specs.Auxiliaries.{lead, lag, distance, leaf_shift, term_shift, equations_shift};
ghost use Rattle.mp_graph.specs.Op.{IsLawfulLeaf, leaf_of};
ghost use Rattle.mp_shift.specs.Reach.{RaisedBy, AreReaches, no_reach, node_shift, nodes_shift};

use mp_base::NoMemory;
use mp_expr::VarId;
use mp_graph::{Graph, LeafOp, NodeId, NodeOp};
use mp_model_data::{Equation, Model};
use mp_statements::NameKind;
use std::alloc::Global;

/// How far a variable is shifted at most, ahead and back, in periods.
#[derive(Clone, Copy)]
pub struct Reach {
    pub lead: u16,
    pub lag: u16,
}

// How far each endogenous variable is shifted at most in the equations of a model, in declared order.
pub(crate) fn reaches(alloc: Global, model: &Model) -> Result<Vec<Reach>, NoMemory>
    ensures { IfOk result (λ v. AreReaches (model_data model.now) v.items) }
{
    let graph = model.graph();
    let width = graph.names().count(NameKind::Endogenous);
    let mut found = nowhere(alloc, width)?;
    let equations = model.equations();
    raise_by_equations(alloc, graph, equations, &mut found)?;
    Ok(found)
}

// Raises them to the shifts in these equations.
fn raise_by_equations(
    alloc: Global,
    graph: &Graph,
    equations: &[Equation],
    found: &mut Vec<Reach>,
) -> Result<(), NoMemory>
    requires within { AllByRecursion (IsWithin graph.now) (map sides_of equations.now) }
    requires room { length found.old.items ≡ length graph.now.names.endogenous }
    ensures { OnOk result (RaisedBy found.old.items found.new.items (λ d v. equations_shift d v (map (equation_in graph.now.terms) (map sides_of equations.now)))) }
{
    'turns: for equation in equations {
        raise_by_side(alloc, graph, equation.left, found)?;
        raise_by_side(alloc, graph, equation.right, found)?;
    }
    Ok(())
}

// So many variables without a shift.
fn nowhere(alloc: Global, count: u32) -> Result<Vec<Reach>, NoMemory>
    ensures { IfOk result (λ v. v.items ≡ replicate count no_reach) }
{
    match vec![in alloc; Reach { lead: 0, lag: 0 }; count as usize] {
        Ok(found) => Ok(found),
        Err(_) => Err(NoMemory),
    }
}

// Raises them to the shifts in the expression of this node.
fn raise_by_side(
    alloc: Global,
    graph: &Graph,
    root: NodeId,
    found: &mut Vec<Reach>,
) -> Result<(), NoMemory>
    requires within { root < length graph.now.terms }
    requires room { length found.old.items ≡ length graph.now.names.endogenous }
    ensures { OnOk result (RaisedBy found.old.items found.new.items (λ d v. term_shift d v (term_at graph.now.terms root))) }
{
    let own = graph.own_nodes(alloc, root)?;
    raise_by_nodes(graph, own.as_slice(), found);
    Ok(())
}

// Raises them to the shifts in these nodes.
fn raise_by_nodes(graph: &Graph, ids: &[NodeId], found: &mut Vec<Reach>)
    requires within { EachIndex ids.now (λ k. slice_index ids.now k < length graph.now.terms) }
    requires room { length found.old.items ≡ length graph.now.names.endogenous }
    ensures { RaisedBy found.old.items found.new.items (λ d v. nodes_shift graph.now.terms d v ids.now) }
{
    'turns: for id in ids {
        raise_by_node(graph, *id, found);
    }
}

// Raises them to the shift of this node, if it is a shifted variable.
fn raise_by_node(graph: &Graph, id: NodeId, found: &mut Vec<Reach>)
    requires within { id < length graph.now.terms }
    requires room { length found.old.items ≡ length graph.now.names.endogenous }
    ensures { RaisedBy found.old.items found.new.items (λ d v. node_shift d v (term_at graph.now.terms id)) }
{
    if let NodeOp::Leaf(leaf) = graph.node(id).op {
        raise_by_leaf(graph, leaf, found);
    }
}

fn raise_by_leaf(graph: &Graph, leaf: LeafOp, found: &mut Vec<Reach>)
    requires lawful { IsLawfulLeaf graph.now.names leaf }
    requires room { length found.old.items ≡ length graph.now.names.endogenous }
    ensures { RaisedBy found.old.items found.new.items (λ d v. leaf_shift d v (leaf_of leaf)) }
{
    if let LeafOp::Var {
        v: VarId::Endo(number),
        shift,
    } = leaf
    {
        let place = number as usize - 1;
        found[place] = raised(found[place], shift);
    }
}

fn raised(reach: Reach, shift: i16) -> Reach
    ensures lead { result.lead ≡ max reach.lead (distance lead shift) }
    ensures lag { result.lag ≡ max reach.lag (distance lag shift) }
{
    let periods = shift.unsigned_abs();
    if shift < 0 {
        Reach {
            lead: reach.lead,
            lag: reach.lag.max(periods),
        }
    } else {
        Reach {
            lead: reach.lead.max(periods),
            lag: reach.lag,
        }
    }
}
