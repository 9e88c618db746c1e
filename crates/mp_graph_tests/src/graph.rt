// Each call that allocates, once, on (x + 2 * p)^3 / x, in which x is one node. What has a graph of its own is
// short, and drops it by one function, since a proof grows with each place where a graph is dropped.
ghost use Rattle.std.specs.Prelude.{◌≡◌, ◌<◌, ◌≤◌, ◌≤ℤ◌, pos, negsuc, length, IfOk, OnOk};
ghost use Rattle.mp_graph.specs.Op.{IsLawfulLeaf};
ghost use Rattle.mp_names.specs.Named.{no_names};

use crate::depth::{Depth, TooDeep};
use mp_base::NoMemory;
use mp_expr::{VarId, count, height};
use mp_graph::{BinaryOp, Graph, LeafOp, NodeId, NodeOp, folded, rewritten};
use mp_names::{NameId, Names};
use mp_statements::NameKind;
use mp_trial::opposite::Opposite;
use std::alloc::Global;
use std::test::Fail;

const X: &[u8] = b"x";

const P: &[u8] = b"p";

// The variable x and the parameter p.
fn names(alloc: Global) -> Result<Names<'static>, NoMemory>
    ensures endogenous { IfOk result (λ n. length n.endogenous ≡ 1) }
    ensures parameters { IfOk result (λ n. length n.parameters ≡ 1) }
{
    let mut names = Names::new(alloc);
    match add_both(&mut names) {
        Ok(()) => Ok(names),
        Err(e) => {
            drop(names);
            Err(e)
        }
    }
}

fn add_both(names: &mut Names<'_>) -> Result<(), NoMemory>
    requires { names.old ≡ no_names }
    ensures endogenous { OnOk result (length names.new.endogenous ≡ 1) }
    ensures parameters { OnOk result (length names.new.parameters ≡ 1) }
{
    let Ok(_) = names.add(NameKind::Endogenous, X) else {
        return Err(NoMemory);
    };
    let Ok(_) = names.add(NameKind::Parameter, P) else {
        return Err(NoMemory);
    };
    Ok(())
}

// A graph over these names without nodes.
fn empty(alloc: Global) -> Result<Graph<'static>, NoMemory>
    ensures endogenous { IfOk result (λ g. length g.names.endogenous ≡ 1) }
    ensures parameters { IfOk result (λ g. length g.names.parameters ≡ 1) }
{
    Ok(Graph::new(alloc, names(alloc)?))
}

// The node of a leaf.
fn leaf(graph: &mut Graph<'_>, leaf: LeafOp) -> Result<NodeId, NoMemory>
    requires lawful { IsLawfulLeaf graph.old.names leaf }
    ensures within { IfOk result (λ id. id < length graph.new.terms) }
    ensures names { OnOk result (graph.new.names ≡ graph.old.names) }
    ensures longer { OnOk result (length graph.old.terms ≤ length graph.new.terms) }
{
    graph.intern(NodeOp::Leaf(leaf), &[])
}

// The node of an operator with two kids.
fn pair(graph: &mut Graph<'_>, op: BinaryOp, a: NodeId, b: NodeId) -> Result<NodeId, NoMemory>
    requires first { a < length graph.old.terms }
    requires second { b < length graph.old.terms }
    ensures within { IfOk result (λ id. id < length graph.new.terms) }
    ensures names { OnOk result (graph.new.names ≡ graph.old.names) }
    ensures longer { OnOk result (length graph.old.terms ≤ length graph.new.terms) }
{
    graph.intern(NodeOp::Binary(op), &[a, b])
}

// The node of a power.
fn raised(graph: &mut Graph<'_>, a: NodeId, exponent: i8) -> Result<NodeId, NoMemory>
    requires within { a < length graph.old.terms }
    requires least { negsuc 16 ≤ℤ exponent }
    requires most { exponent ≤ℤ pos 16 }
    ensures within { IfOk result (λ id. id < length graph.new.terms) }
    ensures names { OnOk result (graph.new.names ≡ graph.old.names) }
    ensures longer { OnOk result (length graph.old.terms ≤ length graph.new.terms) }
{
    graph.intern(NodeOp::Pow(exponent), &[a])
}

// Its nodes: x, p, 2, 2 * p, the sum, the power and the quotient.
fn quotient(graph: &mut Graph<'_>) -> Result<NodeId, NoMemory>
    requires endogenous { length graph.old.names.endogenous ≡ 1 }
    requires parameters { length graph.old.names.parameters ≡ 1 }
    ensures within { IfOk result (λ id. id < length graph.new.terms) }
{
    let v = VarId::Endo(1);
    let x = leaf(graph, LeafOp::Var { v, shift: 0 })?;
    let p = leaf(graph, LeafOp::Param(1))?;
    let two = leaf(graph, LeafOp::Num { m: 2, s: 0 })?;
    let product = pair(graph, BinaryOp::Mul, two, p)?;
    let sum = pair(graph, BinaryOp::Add, x, product)?;
    let power = raised(graph, sum, 3)?;
    pair(graph, BinaryOp::Div, power, x)
}

// The names of x and p.
fn both_names(alloc: Global) -> Result<(&'static [u8], &'static [u8]), NoMemory> {
    let graph = empty(alloc)?;
    let both = (graph.name(NameId::Endo(1)), graph.name(NameId::Param(1)));
    drop(graph);
    Ok(both)
}

#[test]
fn names_are_those_given(rt: HostRuntime) -> Result<(), Fail> {
    let (x, p) = both_names(rt.alloc())?;
    assert!(rt; x == X);
    assert!(rt; p == P);
    Ok(())
}

// How many nodes stand in this one.
fn own_count(alloc: Global, graph: &Graph<'_>, root: NodeId) -> Result<usize, NoMemory>
    requires { root < length graph.now.terms }
{
    let own = graph.own_nodes(alloc, root)?;
    Ok(own.len())
}

// How many nodes a copy has.
fn copied_count(graph: &Graph<'_>) -> Result<usize, NoMemory> {
    let copy = graph.copy()?;
    let nodes = copy.nodes();
    drop(copy);
    Ok(nodes)
}

// How many nodes the graph of the quotient has, how many stand in the quotient, and how many a copy has.
fn quotient_counts(alloc: Global, graph: &mut Graph<'_>) -> Result<(usize, usize, usize), NoMemory>
    requires endogenous { length graph.old.names.endogenous ≡ 1 }
    requires parameters { length graph.old.names.parameters ≡ 1 }
{
    let root = quotient(graph)?;
    let own = own_count(alloc, graph, root)?;
    let copied = copied_count(graph)?;
    Ok((graph.nodes(), own, copied))
}

fn counts(alloc: Global) -> Result<(usize, usize, usize), NoMemory> {
    let mut graph = empty(alloc)?;
    let found = quotient_counts(alloc, &mut graph);
    drop(graph);
    found
}

#[test]
fn a_node_that_is_there_is_not_made_again(rt: HostRuntime) -> Result<(), Fail> {
    let (nodes, own, copied) = counts(rt.alloc())?;
    assert!(rt; nodes == 7);
    assert!(rt; own == 7);
    assert!(rt; copied == 7);
    Ok(())
}

// The height of a node as a tree of its own, and how many operators it has.
fn sizes_of(alloc: Global, graph: &Graph<'_>, root: NodeId) -> Result<(u64, u128), NoMemory>
    requires { root < length graph.now.terms }
{
    let tree = graph.tree_of(alloc, root)?;
    Ok((height(&tree), count(&tree)))
}

// The sizes of the quotient.
fn quotient_sizes(alloc: Global, graph: &mut Graph<'_>) -> Result<(u64, u128), NoMemory>
    requires endogenous { length graph.old.names.endogenous ≡ 1 }
    requires parameters { length graph.old.names.parameters ≡ 1 }
{
    let root = quotient(graph)?;
    sizes_of(alloc, graph, root)
}

fn sizes(alloc: Global) -> Result<(u64, u128), NoMemory> {
    let mut graph = empty(alloc)?;
    let found = quotient_sizes(alloc, &mut graph);
    drop(graph);
    found
}

#[test]
fn a_tree_has_each_part_for_itself(rt: HostRuntime) -> Result<(), Fail> {
    let (height, count) = sizes(rt.alloc())?;
    assert!(rt; height == 5);
    assert!(rt; count == 4);
    Ok(())
}

// The image of this node, with a table of its own.
fn opposite_of(alloc: Global, graph: &mut Graph<'_>, root: NodeId) -> Result<NodeId, NoMemory>
    requires { root < length graph.old.terms }
    ensures { IfOk result (λ id. id < length graph.new.terms) }
{
    let own = graph.own_nodes(alloc, root)?;
    let mut images = vec![in alloc; root; graph.nodes()]?;
    rewritten(graph, root, &own, &mut images, &Opposite)
}

// How many nodes there are after the pass, and the sizes of the image.
fn opposite_sizes(alloc: Global, graph: &mut Graph<'_>) -> Result<(usize, (u64, u128)), NoMemory>
    requires endogenous { length graph.old.names.endogenous ≡ 1 }
    requires parameters { length graph.old.names.parameters ≡ 1 }
{
    let root = quotient(graph)?;
    let image = opposite_of(alloc, graph, root)?;
    Ok((graph.nodes(), sizes_of(alloc, graph, image)?))
}

fn image_sizes(alloc: Global) -> Result<(usize, (u64, u128)), NoMemory> {
    let mut graph = empty(alloc)?;
    let found = opposite_sizes(alloc, &mut graph);
    drop(graph);
    found
}

#[test]
fn a_pass_makes_what_is_new(rt: HostRuntime) -> Result<(), Fail> {
    let (nodes, (height, count)) = image_sizes(rt.alloc())?;
    assert!(rt; nodes == 14);
    assert!(rt; height == 6);
    assert!(rt; count == 8);
    Ok(())
}

// The limit, and the answer.
const DEPTHS: &[(u64, Result<u64, TooDeep>)] = &[
    (5, Ok(5)),
    (1000, Ok(5)),
    (4, Err(TooDeep)),
    (0, Err(TooDeep)),
];

// The height of the quotient within this limit, with a table of its own.
fn quotient_depth(
    alloc: Global,
    graph: &mut Graph<'_>,
    limit: u64,
) -> Result<Result<u64, TooDeep>, NoMemory>
    requires endogenous { length graph.old.names.endogenous ≡ 1 }
    requires parameters { length graph.old.names.parameters ≡ 1 }
{
    let root = quotient(graph)?;
    let own = graph.own_nodes(alloc, root)?;
    let mut rows = vec![in alloc; 0; graph.nodes()]?;
    Ok(folded(graph, root, &own, &mut rows, &Depth { limit }))
}

fn depth(alloc: Global, limit: u64) -> Result<Result<u64, TooDeep>, NoMemory> {
    let mut graph = empty(alloc)?;
    let found = quotient_depth(alloc, &mut graph, limit);
    drop(graph);
    found
}

#[test]
fn a_height_has_a_limit(rt: HostRuntime) -> Result<(), Fail> {
    for (limit, answer) in DEPTHS {
        let found = depth(rt.alloc(), *limit)?;
        assert!(rt; found == *answer);
    }
    Ok(())
}
