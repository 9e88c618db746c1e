// The text of an expression.
ghost use Rattle.std.specs.Prelude.{◌≡◌, ◌<◌, ◌++◌, length, codes, OnOk, IfOk};
ghost use Rattle.mp_semantics.specs.Term.{binary, pick};
ghost use Rattle.mp_names.specs.Naming.{IsNumbered};
ghost use Rattle.mp_expr.specs.Shown.{place_of, variable_of};
ghost use Rattle.mp_graph.specs.Op.{IsLawfulLeaf, IsVariable, leaf_of, binary_of};
ghost use Rattle.mp_graph.specs.Shared.{term_at};
ghost use Rattle.mp_canonical.specs.Terms.{
  operator_level,
  level,
  is_infix,
  is_loose,
  begins_minus,
  is_loose_right,
  fenced,
  name_at,
  variable_name,
  steady_state_text,
  canonical_leaf,
  canonical,
};
ghost use Rattle.mp_canonical.specs.Spelled.{spelled};
ghost use Rattle.mp_derivatives.specs.Meant.{IsPrintableDerivative, MeansTerm};
ghost use Rattle.mp_print_model.specs.Parts.{before, between, after};

use crate::number::{put_exponent, put_number, put_shift};
use mp_base::{Bytes, NoMemory};
use mp_expr::VarId;
use mp_graph::{BinaryOp, Graph, LeafOp, NodeId, NodeOp};
use mp_names::NameId;
use std::alloc::Global;

/// The canonical text of the expression of a node, with the fewest parentheses that the grammar's levels allow. By the
/// grammar of derivatives it reads back, without a limit of parentheses, as one expression, which means this one; a
/// steady state is only printed, since no grammar reads it yet. It recurs as deep as the expression is high. The layout
/// is modpath's own.
pub fn print_tree(alloc: Global, graph: &Graph, id: NodeId) -> Result<Bytes, NoMemory>
    requires { id < length graph.now.terms }
    ensures text { IfOk result (λ text. text ≡ spelled (canonical graph.now.names (term_at graph.now.terms id))) }
    ensures reads { IfOk result (λ text. IsPrintableDerivative graph.now.names (term_at graph.now.terms id) → MeansTerm graph.now.names text (term_at graph.now.terms id)) }
{
    mp_derivatives::text_law();
    let mut out = Bytes::new(alloc);
    put_node(&mut out, graph, id)?;
    Ok(out)
}

// How tightly an operator binds: a sum, a product, and a function, which has parentheses of its own.
fn operator_level(op: BinaryOp) -> u8
    ensures { result ≡ operator_level (binary_of op) }
{
    match op {
        BinaryOp::Add | BinaryOp::Sub => 1,
        BinaryOp::Mul | BinaryOp::Div => 2,
        BinaryOp::Min | BinaryOp::Max => 5,
    }
}

// How tightly an expression is bound: a sum, a product, a minus, a power, and all else.
fn level(graph: &Graph, id: NodeId) -> u8
    requires { id < length graph.now.terms }
    ensures { result ≡ level (term_at graph.now.terms id) }
{
    match graph.node(id).op {
        NodeOp::Binary(op) => operator_level(op),
        NodeOp::Neg => 3,
        NodeOp::Pow(_) => 4,
        NodeOp::Leaf(_) | NodeOp::Pick => 5,
    }
}

// Whether the operator stands between its operands.
fn is_infix(op: BinaryOp) -> bool
    ensures { result ≡ is_infix (binary_of op) }
{
    operator_level(op) < 5
}

// Whether the left operand needs parentheses.
fn is_loose(graph: &Graph, op: BinaryOp, left: NodeId) -> bool
    requires { left < length graph.now.terms }
    ensures { result ≡ is_loose (binary_of op) (term_at graph.now.terms left) }
{
    is_infix(op) && level(graph, left) < operator_level(op)
}

// Whether the text begins with "-". The ways down left operands are as long as the expressions in all, since each of
// them begins at a right operand.
fn begins_minus(graph: &Graph, id: NodeId) -> bool
    requires { id < length graph.now.terms }
    ensures { result ≡ begins_minus (term_at graph.now.terms id) }
{
    let node = graph.node(id);
    match node.op {
        NodeOp::Neg => true,
        NodeOp::Binary(op) => {
            let left = node.kids[0];
            is_infix(op) && !is_loose(graph, op, left) && begins_minus(graph, left)
        }
        _ => false,
    }
}

// Whether the right operand needs parentheses.
fn is_loose_right(graph: &Graph, op: BinaryOp, right: NodeId) -> bool
    requires { right < length graph.now.terms }
    ensures { result ≡ is_loose_right (binary_of op) (term_at graph.now.terms right) }
{
    is_infix(op) && (level(graph, right) <= operator_level(op) || begins_minus(graph, right))
}

// The expression, in parentheses where they are needed.
#[cycle(writer)]
#[tactic(auto, unfolding(mp_canonical::specs::Spelled::spelled))]
fn put_fenced(out: &mut Bytes, graph: &Graph, loose: bool, id: NodeId) -> Result<(), NoMemory>
    requires { id < length graph.now.terms }
    ensures { OnOk result (out.new ≡ out.old ++ spelled (fenced loose (canonical graph.now.names (term_at graph.now.terms id)))) }
{
    if !loose {
        return put_node(out, graph, id);
    }
    out.add(b"(")?;
    put_node(out, graph, id)?;
    out.add(b")")
}

// The operands with what stands around them.
#[cycle(writer)]
#[tactic(auto, using(crate::proofs::Operations::operation_text))]
fn put_binary(
    out: &mut Bytes,
    graph: &Graph,
    op: BinaryOp,
    left: NodeId,
    right: NodeId,
) -> Result<(), NoMemory>
    requires left { left < length graph.now.terms }
    requires right { right < length graph.now.terms }
    ensures { OnOk result (out.new ≡ out.old ++ spelled (canonical graph.now.names (binary (binary_of op) (term_at graph.now.terms left) (term_at graph.now.terms right)))) }
{
    put_before(out, op)?;
    put_fenced(out, graph, is_loose(graph, op, left), left)?;
    put_between(out, op)?;
    put_fenced(out, graph, is_loose_right(graph, op, right), right)?;
    put_after(out, op)
}

// The canonical text of a node's expression.
#[cycle(writer)]
#[tactic(auto, unfolding(mp_canonical::specs::Spelled::spelled, mp_canonical::specs::Terms::canonical))]
pub(crate) fn put_node(out: &mut Bytes, graph: &Graph, id: NodeId) -> Result<(), NoMemory>
    requires { id < length graph.now.terms }
    ensures { OnOk result (out.new ≡ out.old ++ spelled (canonical graph.now.names (term_at graph.now.terms id))) }
{
    let node = graph.node(id);
    match node.op {
        NodeOp::Leaf(leaf) => put_leaf(out, graph, leaf),
        NodeOp::Neg => {
            let operand = node.kids[0];
            out.add(b"-")?;
            put_fenced(out, graph, level(graph, operand) < 4, operand)
        }
        NodeOp::Binary(op) => put_binary(out, graph, op, node.kids[0], node.kids[1]),
        NodeOp::Pow(k) => {
            let base = node.kids[0];
            put_fenced(out, graph, level(graph, base) < 5, base)?;
            out.add(b"^")?;
            put_exponent(out, k)
        }
        NodeOp::Pick => {
            let kids = node.kids;
            put_pick(out, graph, kids[0], kids[1], kids[2], kids[3])
        }
    }
}

// A choice: its four operands, between commas.
#[cycle(writer)]
fn put_pick(
    out: &mut Bytes,
    graph: &Graph,
    a: NodeId,
    b: NodeId,
    c: NodeId,
    d: NodeId,
) -> Result<(), NoMemory>
    requires left { a < length graph.now.terms }
    requires right { b < length graph.now.terms }
    requires below { c < length graph.now.terms }
    requires above { d < length graph.now.terms }
    ensures { OnOk result (out.new ≡ out.old ++ spelled (canonical graph.now.names (pick (term_at graph.now.terms a) (term_at graph.now.terms b) (term_at graph.now.terms c) (term_at graph.now.terms d)))) }
{
    out.add(b"pick(")?;
    put_pair(out, graph, a, b)?;
    out.add(b",")?;
    put_pair(out, graph, c, d)?;
    out.add(b")")
}

// Two expressions, with a comma between.
#[cycle(writer)]
fn put_pair(out: &mut Bytes, graph: &Graph, a: NodeId, b: NodeId) -> Result<(), NoMemory>
    requires left { a < length graph.now.terms }
    requires right { b < length graph.now.terms }
    ensures { OnOk result (out.new ≡ out.old ++ (spelled (canonical graph.now.names (term_at graph.now.terms a)) ++ (codes "," ++ spelled (canonical graph.now.names (term_at graph.now.terms b))))) }
{
    put_node(out, graph, a)?;
    out.add(b",")?;
    put_node(out, graph, b)
}

#[tactic(auto, unfolding(mp_canonical::specs::Spelled::spelled), using(crate::proofs::Places::numbered_place))]
fn put_leaf(out: &mut Bytes, graph: &Graph, leaf: LeafOp) -> Result<(), NoMemory>
    requires { IsLawfulLeaf graph.now.names leaf }
    ensures { OnOk result (out.new ≡ out.old ++ spelled (canonical_leaf graph.now.names (leaf_of leaf))) }
{
    match leaf {
        LeafOp::Num { m, s } => put_number(out, m, s),
        LeafOp::Param(n) => out.add(graph.name(NameId::Param(n))),
        LeafOp::Var { v, shift } => {
            put_variable(out, graph, v)?;
            put_shift(out, shift)
        }
        LeafOp::Anchor(n) => put_steady_state(out, graph, n),
    }
}

#[tactic(auto, using(crate::proofs::Places::numbered_place))]
fn put_variable(out: &mut Bytes, graph: &Graph, v: VarId) -> Result<(), NoMemory>
    requires { IsVariable graph.now.names v }
    ensures { OnOk result (out.new ≡ out.old ++ variable_name graph.now.names (variable_of v)) }
{
    match v {
        VarId::Endo(n) => out.add(graph.name(NameId::Endo(n))),
        VarId::Exo(n) => out.add(graph.name(NameId::Exo(n))),
    }
}

// The steady state of the endogenous variable of this number.
#[tactic(auto, using(crate::proofs::Places::numbered_place))]
fn put_steady_state(out: &mut Bytes, graph: &Graph, n: u32) -> Result<(), NoMemory>
    requires { IsNumbered graph.now.names.endogenous n }
    ensures { OnOk result (out.new ≡ out.old ++ steady_state_text (name_at graph.now.names.endogenous (place_of n))) }
{
    out.add(b"STEADY_STATE(")?;
    out.add(graph.name(NameId::Endo(n)))?;
    out.add(b")")
}

fn put_before(out: &mut Bytes, op: BinaryOp) -> Result<(), NoMemory>
    ensures { OnOk result (out.new ≡ out.old ++ before op) }
{
    match op {
        BinaryOp::Min => out.add(b"min("),
        BinaryOp::Max => out.add(b"max("),
        _ => Ok(()),
    }
}

fn put_between(out: &mut Bytes, op: BinaryOp) -> Result<(), NoMemory>
    ensures { OnOk result (out.new ≡ out.old ++ between op) }
{
    match op {
        BinaryOp::Add => out.add(b"+"),
        BinaryOp::Sub => out.add(b"-"),
        BinaryOp::Mul => out.add(b"*"),
        BinaryOp::Div => out.add(b"/"),
        BinaryOp::Min | BinaryOp::Max => out.add(b","),
    }
}

fn put_after(out: &mut Bytes, op: BinaryOp) -> Result<(), NoMemory>
    ensures { OnOk result (out.new ≡ out.old ++ after op) }
{
    if is_infix(op) { Ok(()) } else { out.add(b")") }
}
