// The table of derivatives, an operator a row.
ghost use Rattle.std.specs.Prelude.{◌≡◌, ◌<◌, ◌≤ℤ◌, ◌-ℤ◌, pos, negsuc, length, IfOk};
ghost use Rattle.mp_expr.specs.Shown.{variable_of};
ghost use Rattle.mp_graph.specs.Op.{leaf_of, binary_of};
ghost use Rattle.mp_graph.specs.Shared.{term_at, Says, Keeps};
ghost use Rattle.mp_slopes.specs.Derivative.{signed_term, simple_times, simple_power, leaf_derivative, product_derivative, quotient_derivative, binary_derivative, power_derivative};
ghost use Rattle.mp_slopes.specs.Dual.{is_at};

use crate::simple::{minus, negative, pick, plus, power, quotient, times, whole};
use mp_base::NoMemory;
use mp_expr::VarId;
use mp_graph::{BinaryOp, Graph, LeafOp, NodeId, NodeOp};

/// An operand, and its derivative.
#[derive(Clone, Copy)]
pub struct Operand {
    pub node: NodeId,
    pub derivative: NodeId,
}

/// Whether the second variable and shift are the first.
pub fn is_at(v: VarId, shift: i16, w: VarId, j: i16) -> bool
    ensures { result ≡ is_at (variable_of v) shift (variable_of w) j }
{
    v == w && shift == j
}

/// The derivative of a leaf.
pub fn leaf_derivative(
    graph: &mut Graph<'_>,
    leaf: LeafOp,
    v: VarId,
    shift: i16,
) -> Result<NodeId, NoMemory>
    ensures says { IfOk result (λ id. Says graph.new id (leaf_derivative (leaf_of leaf) (variable_of v) shift)) }
    ensures kept { Keeps graph.old graph.new }
{
    match leaf {
        LeafOp::Var { v: w, shift: j } if is_at(v, shift, w, j) => whole(graph, 1),
        _ => whole(graph, 0),
    }
}

/// The derivative of a product.
pub fn product_derivative(graph: &mut Graph<'_>, a: Operand, b: Operand) -> Result<NodeId, NoMemory>
    requires left { a.node < length graph.old.terms }
    requires right { b.node < length graph.old.terms }
    requires left_derivative { a.derivative < length graph.old.terms }
    requires right_derivative { b.derivative < length graph.old.terms }
    ensures says { IfOk result (λ id. Says graph.new id (product_derivative (term_at graph.old.terms a.node) (term_at graph.old.terms b.node) (term_at graph.old.terms a.derivative) (term_at graph.old.terms b.derivative))) }
    ensures kept { Keeps graph.old graph.new }
{
    let left = times(graph, a.derivative, b.node)?;
    let right = times(graph, a.node, b.derivative)?;
    plus(graph, left, right)
}

/// The derivative of a quotient.
pub fn quotient_derivative(
    graph: &mut Graph<'_>,
    a: Operand,
    b: Operand,
) -> Result<NodeId, NoMemory>
    requires left { a.node < length graph.old.terms }
    requires right { b.node < length graph.old.terms }
    requires left_derivative { a.derivative < length graph.old.terms }
    requires right_derivative { b.derivative < length graph.old.terms }
    ensures says { IfOk result (λ id. Says graph.new id (quotient_derivative (term_at graph.old.terms a.node) (term_at graph.old.terms b.node) (term_at graph.old.terms a.derivative) (term_at graph.old.terms b.derivative))) }
    ensures kept { Keeps graph.old graph.new }
{
    let first = quotient(graph, a.derivative, b.node)?;
    let upper = times(graph, a.node, b.derivative)?;
    let lower = power(graph, b.node, 2)?;
    let second = quotient(graph, upper, lower)?;
    minus(graph, first, second)
}

/// The derivative of an operator with two operands.
pub fn binary_derivative(
    graph: &mut Graph<'_>,
    op: BinaryOp,
    a: Operand,
    b: Operand,
) -> Result<NodeId, NoMemory>
    requires left { a.node < length graph.old.terms }
    requires right { b.node < length graph.old.terms }
    requires left_derivative { a.derivative < length graph.old.terms }
    requires right_derivative { b.derivative < length graph.old.terms }
    ensures says { IfOk result (λ id. Says graph.new id (binary_derivative (binary_of op) (term_at graph.old.terms a.node) (term_at graph.old.terms b.node) (term_at graph.old.terms a.derivative) (term_at graph.old.terms b.derivative))) }
    ensures kept { Keeps graph.old graph.new }
{
    match op {
        BinaryOp::Add => plus(graph, a.derivative, b.derivative),
        BinaryOp::Sub => minus(graph, a.derivative, b.derivative),
        BinaryOp::Mul => product_derivative(graph, a, b),
        BinaryOp::Div => quotient_derivative(graph, a, b),
        BinaryOp::Min => pick(graph, a.node, b.node, a.derivative, b.derivative),
        BinaryOp::Max => pick(graph, b.node, a.node, a.derivative, b.derivative),
    }
}

// The node of an exponent.
fn signed(graph: &mut Graph<'_>, k: i8) -> Result<NodeId, NoMemory>
    ensures says { IfOk result (λ id. Says graph.new id (signed_term k)) }
    ensures kept { Keeps graph.old graph.new }
{
    let size = whole(graph, k.unsigned_abs())?;
    if k < 0 {
        graph.intern(NodeOp::Neg, &[size])
    } else {
        Ok(size)
    }
}

// One less.
pub fn one_less(k: i8) -> i8
    requires { negsuc 16 ≤ℤ k }
    ensures { result ≡ k -ℤ pos 1 }
{
    k - 1
}

// The derivative of a power whose exponent is not 0.
fn raised_derivative(graph: &mut Graph<'_>, a: Operand, k: i8) -> Result<NodeId, NoMemory>
    requires base { a.node < length graph.old.terms }
    requires derivative { a.derivative < length graph.old.terms }
    requires least { negsuc 15 ≤ℤ k }
    requires greatest { k ≤ℤ pos 16 }
    ensures says { IfOk result (λ id. Says graph.new id (simple_times (simple_times (signed_term k) (simple_power (term_at graph.old.terms a.node) (k -ℤ pos 1))) (term_at graph.old.terms a.derivative))) }
    ensures kept { Keeps graph.old graph.new }
{
    let lower = power(graph, a.node, one_less(k))?;
    let factor = signed(graph, k)?;
    let outer = times(graph, factor, lower)?;
    times(graph, outer, a.derivative)
}

/// The derivative of a power.
pub fn power_derivative(graph: &mut Graph<'_>, a: Operand, k: i8) -> Result<NodeId, NoMemory>
    requires base { a.node < length graph.old.terms }
    requires derivative { a.derivative < length graph.old.terms }
    requires least { negsuc 15 ≤ℤ k }
    requires greatest { k ≤ℤ pos 16 }
    ensures says { IfOk result (λ id. Says graph.new id (power_derivative (term_at graph.old.terms a.node) k (term_at graph.old.terms a.derivative))) }
    ensures kept { Keeps graph.old graph.new }
{
    if k == 0 {
        whole(graph, 0)
    } else {
        raised_derivative(graph, a, k)
    }
}
