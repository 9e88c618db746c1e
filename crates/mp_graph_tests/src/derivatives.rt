// Each call on x^3, whose derivative is 3*x^2.
ghost use Rattle.std.specs.Prelude.{◌≡◌, ◌<◌, pos, length, IfOk};
ghost use Rattle.mp_graph.specs.Shared.{term_at, Says};
ghost use Rattle.mp_semantics.specs.Term.{endogenous, variable, leaf, power_of};
ghost use Rattle.mp_slopes.specs.Derivative.{HasDerivative};

use mp_base::NoMemory;
use mp_diff::{derivative, derivative_count, occurring};
use mp_expr::{VarId, count};
use mp_graph::{Graph, LeafOp, NodeId, NodeOp};
use mp_names::Names;
use mp_statements::NameKind;
use std::alloc::Global;
use std::test::Fail;

const X: VarId = VarId::Endo(1);

fn names(alloc: Global) -> Result<Names<'static>, NoMemory>
    ensures { IfOk result (λ n. length n.endogenous ≡ 1) }
{
    let mut names = Names::new(alloc);
    match names.add(NameKind::Endogenous, b"x") {
        Ok(_) => Ok(names),
        Err(_) => {
            drop(names);
            Err(NoMemory)
        }
    }
}

fn x(graph: &mut Graph<'_>) -> Result<NodeId, NoMemory>
    requires { length graph.old.names.endogenous ≡ 1 }
    ensures { IfOk result (λ id. Says graph.new id (leaf (variable (endogenous 0) (pos 0)))) }
{
    graph.intern(NodeOp::Leaf(LeafOp::Var { v: X, shift: 0 }), &[])
}

fn cube(graph: &mut Graph<'_>) -> Result<NodeId, NoMemory>
    requires { length graph.old.names.endogenous ≡ 1 }
    ensures { IfOk result (λ id. Says graph.new id (power_of (leaf (variable (endogenous 0) (pos 0))) (pos 3))) }
{
    let base = x(graph)?;
    graph.intern(NodeOp::Pow(3), &[base])
}

// How many places there are, how many operations the derivative is said to have, and how many it has.
fn counts(
    alloc: Global,
    graph: &mut Graph<'_>,
    root: NodeId,
) -> Result<(usize, u128, u128), NoMemory>
    requires within { root < length graph.old.terms }
    requires has { HasDerivative (term_at graph.old.terms root) }
{
    let places = occurring(alloc, graph, root)?;
    let said = derivative_count(graph, root, X, 0);
    let slope = derivative(alloc, graph, root, X, 0)?;
    let tree = graph.tree_of(alloc, slope)?;
    Ok((places.as_slice().len(), said, count(&tree)))
}

fn counts_in(alloc: Global, graph: &mut Graph<'_>) -> Result<(usize, u128, u128), NoMemory>
    requires { length graph.old.names.endogenous ≡ 1 }
{
    let root = cube(graph)?;
    counts(alloc, graph, root)
}

fn counts_of_cube(alloc: Global) -> Result<(usize, u128, u128), NoMemory> {
    let mut graph = Graph::new(alloc, names(alloc)?);
    let counts = counts_in(alloc, &mut graph);
    // By a call, since what a graph holds is dear to prove let go at a block's end.
    drop(graph);
    counts
}

#[test]
fn a_cube_has_one_place_and_a_derivative_of_two_operations(rt: HostRuntime) -> Result<(), Fail> {
    let (places, said, built) = counts_of_cube(rt.alloc())?;
    assert!(rt; places == 1);
    assert!(rt; said == 2);
    assert!(rt; built == 2);
    Ok(())
}
