// The nodes of expressions.
ghost use Rattle.std.specs.Prelude.{◌≡◌, ◌<◌, ◌≤◌, ℤ, List, Ok, length, map, unsigned_abs, IfOk};
ghost use Rattle.std.specs.List.{AllByRecursion};
ghost use Rattle.mp_file.specs.Shown.{expr_of, further_of};
ghost use Rattle.mp_semantics.specs.Term.{Term, binary, power_of};
ghost use Rattle.mp_semantics.specs.Shifted.{earlier, difference};
ghost use Rattle.mp_graph.specs.Images.{AreImages};
ghost use Rattle.mp_graph.specs.Op as shown;
ghost use Rattle.mp_graph.specs.Shared.{term_at, Says, Keeps};
ghost use Rattle.mp_values.specs.Limits.{◌>>=◌ as then, binary_of};
ghost use Rattle.mp_values.specs.ModelOf.{signed_term, binary_called};
ghost use Rattle.mp_values.specs.From.{Taken, term_from, first_of, rest_of};
ghost use Rattle.mp_trees.specs.Earlier.{HasDifferences, HasEarlier};
ghost use Rattle.mp_trees.specs.Gives.{Gives};
ghost use Rattle.mp_trees.specs.Locals.{locals_in, AreNodes};
ghost use Rattle.mp_trees.specs.Parts.{further_from};

use crate::atom::{name_node, number_node};
use crate::earlier::difference_node;
use crate::exponents::Exponents;
use crate::fault::ModelFault;
use crate::locals::Locals;
use mp_base::NoMemory;
use mp_file::{Expression, Further};
use mp_graph::{BinaryOp, Graph, Images, NodeId, NodeOp};
use mp_syntax::{Function, Operator, Sign};
use std::alloc::Global;

// An expression with the sign before it.
fn signed_node(graph: &mut Graph<'_>, sign: Sign, operand: NodeId) -> Result<NodeId, NoMemory>
    requires { operand < length graph.old.terms }
    ensures says { IfOk result (λ id. Says graph.new id (signed_term sign (term_at graph.old.terms operand))) }
    ensures kept { Keeps graph.old graph.new }
{
    match sign {
        Sign::Plus => Ok(operand),
        Sign::Minus => graph.intern(NodeOp::Neg, &[operand]),
    }
}

// The operator between two operands.
fn joining(op: Operator) -> BinaryOp
    ensures { shown.binary_of result ≡ binary_of op }
{
    match op {
        Operator::Plus => BinaryOp::Add,
        Operator::Minus => BinaryOp::Sub,
        Operator::Times => BinaryOp::Mul,
        Operator::Over => BinaryOp::Div,
    }
}

// The operator that a function is.
fn calling(function: Function) -> BinaryOp
    ensures { shown.binary_of result ≡ binary_called function }
{
    match function {
        Function::Min => BinaryOp::Min,
        Function::Max => BinaryOp::Max,
    }
}

// The power of a base.
fn power_node(graph: &mut Graph<'_>, base: NodeId, exponent: i8) -> Result<NodeId, NoMemory>
    requires within { base < length graph.old.terms }
    requires near { unsigned_abs exponent ≤ 16 }
    ensures says { IfOk result (λ id. Says graph.new id (power_of (term_at graph.old.terms base) exponent)) }
    ensures kept { Keeps graph.old graph.new }
{
    graph.intern(NodeOp::Pow(exponent), &[base])
}

// The operand with the sign before it, if there is one; its fault otherwise.
fn with_sign<'t>(
    graph: &mut Graph<'t>,
    sign: Sign,
    operand: Result<NodeId, ModelFault<'t>>,
) -> Result<NodeId, ModelFault<'t>>
    requires { IfOk operand (λ id. id < length graph.old.terms) }
    ensures node { (ks : List ℤ) (given : Taken Term) → Gives {Y = Term × List ℤ} (λ id. (term_at graph.old.terms id, ks)) operand.entry given → Gives {Y = Term × List ℤ} (λ id. (term_at graph.new.terms id, ks)) result (then given (λ x. Ok (signed_term sign x.0, x.1))) }
    ensures within { IfOk result (λ id. id < length graph.new.terms) }
    ensures kept { Keeps graph.old graph.new }
{
    match operand {
        Ok(operand) => Ok(signed_node(graph, sign, operand)?),
        Err(fault) => Err(fault),
    }
}

// The power of a base by the next exponent, if there is a base; its fault otherwise.
fn raised<'t>(
    graph: &mut Graph<'t>,
    base: Result<NodeId, ModelFault<'t>>,
    exponents: &mut Exponents<'_>,
) -> Result<NodeId, ModelFault<'t>>
    requires { IfOk base (λ id. id < length graph.old.terms) }
    ensures node { (given : Taken Term) → Gives {Y = Term × List ℤ} (λ id. (term_at graph.old.terms id, exponents.old)) base.entry given → Gives {Y = Term × List ℤ} (λ id. (term_at graph.new.terms id, exponents.new)) result (then given (λ x. Ok (power_of x.0 (first_of x.1), rest_of x.1))) }
    ensures within { IfOk result (λ id. id < length graph.new.terms) }
    ensures kept { Keeps graph.old graph.new }
{
    match base {
        Ok(base) => Ok(power_node(graph, base, exponents.next())?),
        Err(fault) => Err(fault),
    }
}

// The function of a first operand and a second one, if there is a second; its fault otherwise.
fn called<'t>(
    graph: &mut Graph<'t>,
    function: Function,
    first: NodeId,
    second: Result<NodeId, ModelFault<'t>>,
) -> Result<NodeId, ModelFault<'t>>
    requires first { first < length graph.old.terms }
    requires second { IfOk second (λ id. id < length graph.old.terms) }
    ensures node { (ks : List ℤ) (given : Taken Term) → Gives {Y = Term × List ℤ} (λ id. (term_at graph.old.terms id, ks)) second.entry given → Gives {Y = Term × List ℤ} (λ id. (term_at graph.new.terms id, ks)) result (then given (λ y. Ok (binary (binary_called function) (term_at graph.old.terms first) y.0, y.1))) }
    ensures within { IfOk result (λ id. id < length graph.new.terms) }
    ensures kept { Keeps graph.old graph.new }
{
    match second {
        Ok(second) => Ok(graph.intern(NodeOp::Binary(calling(function)), &[first, second])?),
        Err(fault) => Err(fault),
    }
}

// What an operand gained since the period before, if there is one; its fault otherwise.
fn gained<'t>(
    alloc: Global,
    graph: &mut Graph<'t>,
    images: &mut Images,
    operand: Result<NodeId, ModelFault<'t>>,
) -> Result<NodeId, ModelFault<'t>>
    requires within { IfOk operand (λ id. id < length graph.old.terms) }
    requires images { AreImages graph.old images.old earlier }
    requires shifts { IfOk operand (λ id. HasEarlier (term_at graph.old.terms id)) }
    ensures node { (ks : List ℤ) (given : Taken Term) → Gives {Y = Term × List ℤ} (λ id. (term_at graph.old.terms id, ks)) operand.entry given → Gives {Y = Term × List ℤ} (λ id. (term_at graph.new.terms id, ks)) result (then given (λ x. Ok (difference x.0, x.1))) }
    ensures within { IfOk result (λ id. id < length graph.new.terms) }
    ensures kept { Keeps graph.old graph.new }
    ensures images { AreImages graph.new images.new earlier }
{
    match operand {
        Ok(operand) => Ok(difference_node(alloc, graph, images, operand)?),
        Err(fault) => Err(fault),
    }
}

/// The node of an expression, where a name stands for the node of a local, or has its number among the names of the
/// graph, and exponents are taken in text order. The images are those of earlier expressions. After a fault the graph may
/// have grown.
#[cycle(builder)]
pub fn node_of<'t>(
    alloc: Global,
    graph: &mut Graph<'t>,
    locals: &Locals<'t>,
    images: &mut Images,
    expression: &Expression<'t>,
    exponents: &mut Exponents<'_>,
) -> Result<NodeId, ModelFault<'t>>
    requires locals { AreNodes graph.old.terms locals.now }
    requires images { AreImages graph.old images.old earlier }
    requires shifts { HasDifferences graph.old.names (locals_in graph.old.terms locals.now) (expr_of expression.now) }
    ensures node { Gives (λ id. (term_at graph.new.terms id, exponents.new)) result (term_from graph.old.names (locals_in graph.old.terms locals.now) (expr_of expression.now) exponents.old) }
    ensures within { IfOk result (λ id. id < length graph.new.terms) }
    ensures kept { Keeps graph.old graph.new }
    ensures images { AreImages graph.new images.new earlier }
{
    match expression {
        Expression::Number { literal, at } => number_node(graph, literal, *at),
        Expression::Variable { name } => name_node(graph, locals, *name, None),
        Expression::Shifted { name, shift } => name_node(graph, locals, *name, Some(*shift.get())),
        Expression::Signed { sign, operand } => {
            let operand = node_of(alloc, graph, locals, images, operand.get(), exponents);
            with_sign(graph, *sign, operand)
        }
        Expression::Chain { first, more } => {
            let first = node_of(alloc, graph, locals, images, first.get(), exponents)?;
            further_node(
                alloc,
                graph,
                locals,
                images,
                first,
                more.as_slice(),
                exponents,
            )
        }
        Expression::Power { base, .. } => {
            let base = node_of(alloc, graph, locals, images, base.get(), exponents);
            raised(graph, base, exponents)
        }
        Expression::Paren { inside } => {
            node_of(alloc, graph, locals, images, inside.get(), exponents)
        }
        Expression::Call {
            function,
            first,
            second,
        } => {
            let first = node_of(alloc, graph, locals, images, first.get(), exponents)?;
            let second = node_of(alloc, graph, locals, images, second.get(), exponents);
            called(graph, *function, first, second)
        }
        Expression::Diff { inside, .. } => {
            let inside = node_of(alloc, graph, locals, images, inside.get(), exponents);
            gained(alloc, graph, images, inside)
        }
    }
}

// These operands joined to a first one, from left to right.
#[cycle(builder)]
fn further_node<'t>(
    alloc: Global,
    graph: &mut Graph<'t>,
    locals: &Locals<'t>,
    images: &mut Images,
    first: NodeId,
    more: &[Further<'t>],
    exponents: &mut Exponents<'_>,
) -> Result<NodeId, ModelFault<'t>>
    requires first { first < length graph.old.terms }
    requires locals { AreNodes graph.old.terms locals.now }
    requires images { AreImages graph.old images.old earlier }
    requires shifts { AllByRecursion (λ f. HasDifferences graph.old.names (locals_in graph.old.terms locals.now) f.operand) (map further_of more.now) }
    ensures node { Gives (λ id. (term_at graph.new.terms id, exponents.new)) result (further_from graph.old.names (locals_in graph.old.terms locals.now) (term_at graph.old.terms first) (map further_of more.now) exponents.old) }
    ensures within { IfOk result (λ id. id < length graph.new.terms) }
    ensures kept { Keeps graph.old graph.new }
    ensures images { AreImages graph.new images.new earlier }
{
    let mut node = first;
    'turns: for next in more {
        let operand = node_of(alloc, graph, locals, images, &next.operand, exponents)?;
        node = graph.intern(NodeOp::Binary(joining(next.op)), &[node, operand])?;
    }
    Ok(node)
}
