// The counts of the operations of derivatives.
ghost use Rattle.std.specs.Prelude.{◌≡◌, ◌<◌, ◌≤◌, ◌-◌, ◌^◌, ℤ, min, length};
ghost use Rattle.mp_expr.specs.Shown.{variable_of};
ghost use Rattle.mp_expr.specs.Size.{count_of};
ghost use Rattle.mp_graph.specs.Images.{HasRows};
ghost use Rattle.mp_graph.specs.Own.{AreOwn};
ghost use Rattle.mp_graph.specs.Part.{IsPart};
ghost use Rattle.mp_graph.specs.Shared.{term_at};
ghost use Rattle.mp_semantics.specs.Term.{Variable};
ghost use Rattle.mp_slopes.specs.Derivative.{derivative_of};
ghost use Rattle.mp_diff.specs.Size.{AreSizes, size_of};

use crate::measure::{
    Sizes, binary_sizes, leaf_sizes, negative_sizes, pick_sizes, power_sizes, total,
};
use crate::pass::ByVariable;
use mp_expr::VarId;
use mp_graph::{Fold, Graph, NodeId, NodeOp, folded, row_at};
use std::convert::Infallible;

// No kid of a node, and no derivative of one, begins with as many negations as can't be counted.
fn negations_law(graph: &Graph<'_>, kid: NodeId, of: NodeId)
    requires below { kid < of }
    requires within { of < length graph.now.terms }
    ensures node { (size_of (term_at graph.now.terms kid)).negations < 2 ^ 64 - 1 }
    ensures derivative { (v : Variable) (k : ℤ) → (size_of (derivative_of (term_at graph.now.terms kid) v k)).negations < 2 ^ 64 - 1 }
{
    graph.whole();
    let _ = graph.nodes();
}

// The sizes of a node and of its derivative, by those of its kids, as often as they stand in it.
fn sizes_of(graph: &Graph<'_>, id: NodeId, by: ByVariable) -> Sizes
    requires { id < length graph.now.terms }
    ensures { AreSizes (variable_of by.v) by.shift (term_at graph.now.terms id) result }
{
    let node = graph.node(id);
    match node.op {
        NodeOp::Leaf(op) => leaf_sizes(op, by.v, by.shift),
        NodeOp::Neg => {
            let a = node.kids[0];
            negations_law(graph, a, id);
            negative_sizes(sizes_of(graph, a, by))
        }
        NodeOp::Binary(op) => {
            let (first, second) = (node.kids[0], node.kids[1]);
            negations_law(graph, second, id);
            let a = sizes_of(graph, first, by);
            let b = sizes_of(graph, second, by);
            binary_sizes(op, a, b)
        }
        NodeOp::Pow(k) => power_sizes(sizes_of(graph, node.kids[0], by), k),
        NodeOp::Pick => {
            let a = sizes_of(graph, node.kids[0], by);
            let b = sizes_of(graph, node.kids[1], by);
            let c = sizes_of(graph, node.kids[2], by);
            let d = sizes_of(graph, node.kids[3], by);
            pick_sizes(a, b, c, d)
        }
    }
}

/// How many operations the derivative of this node by the variable `shift` periods later has, as a tree, without
/// building it. Stops at 10^37. It needs no memory, recurs as deep as the node is high, and takes the time of the
/// node's tree, in which a shared operand stands as often as it is used.
pub fn derivative_count(graph: &Graph<'_>, root: NodeId, v: VarId, shift: i16) -> u128
    requires { root < length graph.now.terms }
    ensures { result ≡ min (count_of (derivative_of (term_at graph.now.terms root) (variable_of v) shift)) (10 ^ 37) }
{
    let sizes = sizes_of(graph, root, ByVariable { v, shift });
    total(sizes.derivative)
}

// The sizes of this operand of a node.
fn sizes_at(graph: &Graph<'_>, rows: &[Sizes], kid: NodeId, of: NodeId, by: ByVariable) -> Sizes
    requires below { kid < of }
    requires table { of ≤ length rows.now }
    requires part { IsPart (term_at graph.now.terms kid) (term_at graph.now.terms of) }
    requires rows { HasRows graph.now.terms rows.now of (AreSizes (variable_of by.v) by.shift) }
    ensures { AreSizes (variable_of by.v) by.shift (term_at graph.now.terms kid) result }
{
    row_at(rows, kid)
}

// The sizes of a node and of its derivative, by those of its kids in the table.
fn row_sizes(graph: &Graph<'_>, id: NodeId, rows: &[Sizes], by: ByVariable) -> Sizes
    requires within { id < length graph.now.terms }
    requires table { id ≤ length rows.now }
    requires rows { HasRows graph.now.terms rows.now id (AreSizes (variable_of by.v) by.shift) }
    ensures { AreSizes (variable_of by.v) by.shift (term_at graph.now.terms id) result }
{
    let node = graph.node(id);
    match node.op {
        NodeOp::Leaf(op) => leaf_sizes(op, by.v, by.shift),
        NodeOp::Neg => {
            let a = node.kids[0];
            negations_law(graph, a, id);
            negative_sizes(sizes_at(graph, rows, a, id, by))
        }
        NodeOp::Binary(op) => {
            let (first, second) = (node.kids[0], node.kids[1]);
            negations_law(graph, second, id);
            let a = sizes_at(graph, rows, first, id, by);
            let b = sizes_at(graph, rows, second, id, by);
            binary_sizes(op, a, b)
        }
        NodeOp::Pow(k) => power_sizes(sizes_at(graph, rows, node.kids[0], id, by), k),
        NodeOp::Pick => {
            let a = sizes_at(graph, rows, node.kids[0], id, by);
            let b = sizes_at(graph, rows, node.kids[1], id, by);
            let c = sizes_at(graph, rows, node.kids[2], id, by);
            let d = sizes_at(graph, rows, node.kids[3], id, by);
            pick_sizes(a, b, c, d)
        }
    }
}

impl Fold for ByVariable {
    type Row = Sizes;

    type Fault = Infallible;

    ghost use Rattle.mp_expr.specs.Shown.{variable_of};
    ghost use Rattle.mp_diff.specs.Size.{AreSizes};

    ghost is_row = { λ w t r. AreSizes (variable_of w.v) w.shift t r };

    ghost is_fault = { λ w t f. ⊥ };

    fn row(&self, graph: &Graph<'_>, id: NodeId, rows: &[Sizes]) -> Result<Sizes, Infallible> {
        Ok(row_sizes(graph, id, rows, *self))
    }
}

/// The same count, in time by the own nodes of this node, which are given. The table is by the numbers of nodes; it
/// may hold anything, and is written over.
pub fn derivative_counts(
    graph: &Graph<'_>,
    root: NodeId,
    own: &[NodeId],
    rows: &mut [Sizes],
    v: VarId,
    shift: i16,
) -> u128
    requires within { root < length graph.now.terms }
    requires own { AreOwn graph.now.terms root own.now }
    requires table { root < length rows.old }
    ensures { result ≡ min (count_of (derivative_of (term_at graph.now.terms root) (variable_of v) shift)) (10 ^ 37) }
{
    match folded(graph, root, own, rows, &ByVariable { v, shift }) {
        Ok(sizes) => total(sizes.derivative),
        Err(never) => match never {},
    }
}
