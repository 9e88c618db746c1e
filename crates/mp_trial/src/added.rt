// Nodes that are tested before they are added.
ghost use Rattle.std.specs.Prelude.{◌≡◌, ◌<◌, length, IfOk, IsTrue};
ghost use Rattle.std.specs.List.{AllByRecursion};
ghost use Rattle.mp_graph.specs.Op.{arity, IsLawful, IsLawfulLeaf};
ghost use Rattle.mp_names.specs.Naming.{IsNumbered};
ghost use Rattle.mp_names.specs.Named.{of_kind};

use mp_base::NoMemory;
use mp_expr::VarId;
use mp_graph::{BinaryOp, Graph, LeafOp, NodeId, NodeOp};
use mp_statements::NameKind;

/// Greatest number of a literal.
const MOST: u128 = 10_000_000_000_000_000_000_000_000_000_000_000_000;

/// Why a node or an evaluation is refused.
#[derive(Clone, Copy, Debug, PartialEq, Eq)]
pub enum Refused {
    NoMemory,
    NotLawful,
}

impl From<NoMemory> for Refused {
    fn from(_: NoMemory) -> Self {
        Refused::NoMemory
    }
}

/// The number of the node with this operator and these kids, if it is lawful.
pub fn added(graph: &mut Graph<'_>, op: NodeOp, kids: &[NodeId]) -> Result<NodeId, Refused>
    ensures { IfOk result (λ id. id < length graph.new.terms) }
{
    if kids.len() != arity(op) || !are_within(graph, kids) || !is_lawful(graph, op) {
        return Err(Refused::NotLawful);
    }
    match graph.intern(op, kids) {
        Ok(id) => Ok(id),
        Err(_) => Err(Refused::NoMemory),
    }
}

/// A chain of so many squares b = a * a of 1.
pub fn chain(graph: &mut Graph<'_>, count: u32) -> Result<NodeId, Refused> {
    let mut last = added(graph, NodeOp::Leaf(LeafOp::Num { m: 1, s: 0 }), &[])?;
    for _ in 0..count {
        last = added(graph, NodeOp::Binary(BinaryOp::Mul), &[last, last])?;
    }
    Ok(last)
}

/// Whether a node of this number is there.
pub fn is_within(graph: &Graph<'_>, id: NodeId) -> bool
    ensures { IsTrue result → id < length graph.now.terms }
{
    id.index() < graph.nodes()
}

fn are_within(graph: &Graph<'_>, kids: &[NodeId]) -> bool
    ensures { IsTrue result → AllByRecursion (λ k. k < length graph.now.terms) kids.now }
{
    match kids {
        [] => true,
        [a] => is_within(graph, *a),
        [a, b] => is_within(graph, *a) && is_within(graph, *b),
        [a, b, c, d] => {
            let pair = is_within(graph, *a) && is_within(graph, *b);
            pair && is_within(graph, *c) && is_within(graph, *d)
        }
        _ => false,
    }
}

// How many kids an operator takes.
fn arity(op: NodeOp) -> usize
    ensures { result ≡ arity op }
{
    match op {
        NodeOp::Leaf(_) => 0,
        NodeOp::Neg | NodeOp::Pow(_) => 1,
        NodeOp::Binary(_) => 2,
        NodeOp::Pick => 4,
    }
}

fn is_lawful(graph: &Graph<'_>, op: NodeOp) -> bool
    ensures { IsTrue result → IsLawful graph.now.names op }
{
    match op {
        NodeOp::Leaf(leaf) => is_lawful_leaf(graph, leaf),
        NodeOp::Pow(k) => k >= -17 && k <= 16,
        NodeOp::Neg | NodeOp::Binary(_) | NodeOp::Pick => true,
    }
}

fn is_lawful_leaf(graph: &Graph<'_>, leaf: LeafOp) -> bool
    ensures { IsTrue result → IsLawfulLeaf graph.now.names leaf }
{
    match leaf {
        LeafOp::Num { m, s } => m <= MOST && s <= 37 && (s == 0 || m % 10 != 0),
        LeafOp::Param(n) => is_numbered(graph, NameKind::Parameter, n),
        LeafOp::Var {
            v: VarId::Endo(n),
            ..
        } => is_numbered(graph, NameKind::Endogenous, n),
        LeafOp::Var {
            v: VarId::Exo(n),
            ..
        } => is_numbered(graph, NameKind::Exogenous, n),
        LeafOp::Anchor(n) => is_numbered(graph, NameKind::Endogenous, n),
    }
}

fn is_numbered(graph: &Graph<'_>, kind: NameKind, n: u32) -> bool
    ensures { IsTrue result → IsNumbered (of_kind kind graph.now.names) n }
{
    n >= 1 && n <= graph.names().count(kind)
}
