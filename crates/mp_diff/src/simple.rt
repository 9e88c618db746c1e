// The operators with what is plain to see left out.
ghost use Rattle.std.specs.Prelude.{◌≡◌, ◌<◌, ◌≤◌, pos, negsuc, ◌≤ℤ◌, length, IfOk, IfSome, option_map};
ghost use Rattle.mp_graph.specs.Shared.{term_at, Says, Keeps};
ghost use Rattle.mp_slopes.specs.Derivative.{whole_term, is_whole, negated, simple_negative, simple_plus, simple_minus, simple_times, simple_quotient, simple_power, simple_pick};

use mp_base::NoMemory;
use mp_graph::{BinaryOp, Graph, LeafOp, NodeId, NodeOp};

/// Whether the node is this whole number.
pub fn is_whole(graph: &Graph<'_>, id: NodeId, n: u128) -> bool
    requires { id < length graph.now.terms }
    ensures { result ≡ is_whole n (term_at graph.now.terms id) }
{
    match graph.node(id).op {
        NodeOp::Leaf(LeafOp::Num { m, s }) => m == n && s == 0,
        _ => false,
    }
}

/// What the node negates.
pub fn negated(graph: &Graph<'_>, id: NodeId) -> Option<NodeId>
    requires { id < length graph.now.terms }
    ensures term { option_map (term_at graph.now.terms) result ≡ negated (term_at graph.now.terms id) }
    ensures within { IfSome result (λ a. a < length graph.now.terms) }
{
    let node = graph.node(id);
    match node.op {
        NodeOp::Neg => Some(node.kids[0]),
        _ => None,
    }
}

/// The node of a whole number.
pub fn whole(graph: &mut Graph<'_>, n: u8) -> Result<NodeId, NoMemory>
    ensures says { IfOk result (λ id. Says graph.new id (whole_term n)) }
    ensures kept { Keeps graph.old graph.new }
{
    let number = LeafOp::Num { m: n as u128, s: 0 };
    graph.intern(NodeOp::Leaf(number), &[])
}

/// The negation.
pub fn negative(graph: &mut Graph<'_>, a: NodeId) -> Result<NodeId, NoMemory>
    requires { a < length graph.old.terms }
    ensures says { IfOk result (λ id. Says graph.new id (simple_negative (term_at graph.old.terms a))) }
    ensures kept { Keeps graph.old graph.new }
{
    if is_whole(graph, a, 0) {
        return whole(graph, 0);
    }
    match negated(graph, a) {
        Some(b) => Ok(b),
        None => graph.intern(NodeOp::Neg, &[a]),
    }
}

/// The sum.
pub fn plus(graph: &mut Graph<'_>, a: NodeId, b: NodeId) -> Result<NodeId, NoMemory>
    requires left { a < length graph.old.terms }
    requires right { b < length graph.old.terms }
    ensures says { IfOk result (λ id. Says graph.new id (simple_plus (term_at graph.old.terms a) (term_at graph.old.terms b))) }
    ensures kept { Keeps graph.old graph.new }
{
    if is_whole(graph, a, 0) {
        return Ok(b);
    }
    if is_whole(graph, b, 0) {
        return Ok(a);
    }
    graph.intern(NodeOp::Binary(BinaryOp::Add), &[a, b])
}

/// The difference.
pub fn minus(graph: &mut Graph<'_>, a: NodeId, b: NodeId) -> Result<NodeId, NoMemory>
    requires left { a < length graph.old.terms }
    requires right { b < length graph.old.terms }
    ensures says { IfOk result (λ id. Says graph.new id (simple_minus (term_at graph.old.terms a) (term_at graph.old.terms b))) }
    ensures kept { Keeps graph.old graph.new }
{
    if is_whole(graph, b, 0) {
        return Ok(a);
    }
    if is_whole(graph, a, 0) {
        return negative(graph, b);
    }
    graph.intern(NodeOp::Binary(BinaryOp::Sub), &[a, b])
}

/// The product.
pub fn times(graph: &mut Graph<'_>, a: NodeId, b: NodeId) -> Result<NodeId, NoMemory>
    requires left { a < length graph.old.terms }
    requires right { b < length graph.old.terms }
    ensures says { IfOk result (λ id. Says graph.new id (simple_times (term_at graph.old.terms a) (term_at graph.old.terms b))) }
    ensures kept { Keeps graph.old graph.new }
{
    if is_whole(graph, a, 0) || is_whole(graph, b, 0) {
        return whole(graph, 0);
    }
    if is_whole(graph, a, 1) {
        return Ok(b);
    }
    if is_whole(graph, b, 1) {
        return Ok(a);
    }
    graph.intern(NodeOp::Binary(BinaryOp::Mul), &[a, b])
}

/// The quotient.
pub fn quotient(graph: &mut Graph<'_>, a: NodeId, b: NodeId) -> Result<NodeId, NoMemory>
    requires left { a < length graph.old.terms }
    requires right { b < length graph.old.terms }
    ensures says { IfOk result (λ id. Says graph.new id (simple_quotient (term_at graph.old.terms a) (term_at graph.old.terms b))) }
    ensures kept { Keeps graph.old graph.new }
{
    if is_whole(graph, a, 0) {
        return whole(graph, 0);
    }
    graph.intern(NodeOp::Binary(BinaryOp::Div), &[a, b])
}

/// The power.
pub fn power(graph: &mut Graph<'_>, a: NodeId, k: i8) -> Result<NodeId, NoMemory>
    requires base { a < length graph.old.terms }
    requires least { negsuc 16 ≤ℤ k }
    requires greatest { k ≤ℤ pos 16 }
    ensures says { IfOk result (λ id. Says graph.new id (simple_power (term_at graph.old.terms a) k)) }
    ensures kept { Keeps graph.old graph.new }
{
    match k {
        0 => whole(graph, 1),
        1 => Ok(a),
        _ => graph.intern(NodeOp::Pow(k), &[a]),
    }
}

/// The choice between two derivatives.
pub fn pick(
    graph: &mut Graph<'_>,
    a: NodeId,
    b: NodeId,
    c: NodeId,
    d: NodeId,
) -> Result<NodeId, NoMemory>
    requires left { a < length graph.old.terms }
    requires right { b < length graph.old.terms }
    requires below { c < length graph.old.terms }
    requires above { d < length graph.old.terms }
    ensures says { IfOk result (λ id. Says graph.new id (simple_pick (term_at graph.old.terms a) (term_at graph.old.terms b) (term_at graph.old.terms c) (term_at graph.old.terms d))) }
    ensures kept { Keeps graph.old graph.new }
{
    if is_whole(graph, c, 0) && is_whole(graph, d, 0) {
        return whole(graph, 0);
    }
    graph.intern(NodeOp::Pick, &[a, b, c, d])
}
