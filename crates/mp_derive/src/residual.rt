// The differences of both sides of equations.
ghost use Rattle.std.specs.Prelude.{◌≡◌, ◌<◌, ◌∷◌, [], ◌++◌, length, map, IfOk, OnOk};
ghost use Rattle.std.specs.List.{AllByRecursion};
ghost use Rattle.mp_graph.specs.Shared.{term_at, Says, Keeps};
ghost use Rattle.mp_model_data.specs.Shown.{IsWithin, equation_in, sides_of};
ghost use Rattle.mp_derivatives.specs.Derivatives.{residual};

use mp_base::NoMemory;
use mp_graph::{BinaryOp, Graph, NodeId, NodeOp};
use mp_model_data::Equation;
use std::alloc::Global;

// The nodes of the differences of these equations.
pub(crate) fn residuals(
    alloc: Global,
    graph: &mut Graph<'_>,
    equations: &[Equation],
) -> Result<Vec<NodeId>, NoMemory>
    requires { AllByRecursion (IsWithin graph.old) (map sides_of equations.now) }
    ensures terms { IfOk result (λ v. map (term_at graph.new.terms) v.items ≡ map residual (map (equation_in graph.old.terms) (map sides_of equations.now))) }
    ensures within { IfOk result (λ v. AllByRecursion (λ r. r < length graph.new.terms) v.items) }
    ensures kept { Keeps graph.old graph.new }
{
    let mut roots = Vec::new(alloc);
    'turns: for equation in equations {
        let root = match difference(graph, equation) {
            Ok(root) => root,
            Err(NoMemory) => return Err(NoMemory),
        };
        push(&mut roots, root)?;
    }
    Ok(roots)
}

// The left side less the right one.
fn difference(graph: &mut Graph<'_>, equation: &Equation) -> Result<NodeId, NoMemory>
    requires { IsWithin graph.old (sides_of equation.now) }
    ensures says { IfOk result (λ r. Says graph.new r (residual (equation_in graph.old.terms (sides_of equation.now)))) }
    ensures kept { Keeps graph.old graph.new }
{
    let sides = [equation.left, equation.right];
    graph.intern(NodeOp::Binary(BinaryOp::Sub), &sides)
}

fn push(roots: &mut Vec<NodeId>, root: NodeId) -> Result<(), NoMemory>
    ensures { OnOk result (roots.new.items ≡ roots.old.items ++ root ∷ []) }
{
    let Ok(()) = roots.push(root) else {
        return Err(NoMemory);
    };
    Ok(())
}
