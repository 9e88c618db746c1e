// The equations of a file.
ghost use Rattle.std.specs.Prelude.{◌≡◌, ◌<◌, length, option_map, IfOk};
ghost use Rattle.mp_statements.specs.Parts.{name_of, unquoted};
ghost use Rattle.mp_statements.specs.Sides.{right_side};
ghost use Rattle.mp_semantics.specs.Shifted.{earlier};
ghost use Rattle.mp_file.specs.Shown.{expr_of, equation_of};
ghost use Rattle.mp_graph.specs.Images.{AreImages};
ghost use Rattle.mp_graph.specs.Shared.{term_at, Keeps};
ghost use Rattle.mp_model_data.specs.Shown.{equation_in, sides_of, IsWithin};
ghost use Rattle.mp_values.specs.From.{right_from, equation_from};
ghost use Rattle.mp_trees.specs.Earlier.{HasDifferences, SidesHaveDifferences};
ghost use Rattle.mp_trees.specs.Gives.{Gives};
ghost use Rattle.mp_trees.specs.Locals.{locals_in, AreNodes};

use crate::exponents::Exponents;
use crate::expression::node_of;
use crate::fault::ModelFault;
use crate::locals::Locals;
use mp_file::Expression;
use mp_graph::{Graph, Images, LeafOp, NodeId, NodeOp};
use mp_model_data::Equation;
use std::alloc::Global;

/// The nodes of both sides of an equation, with its name. A right side that is not written is 0 (Dynare manual, "The model
/// file"). The images are those of earlier expressions.
pub fn equation_nodes<'t>(
    alloc: Global,
    graph: &mut Graph<'t>,
    locals: &Locals<'t>,
    images: &mut Images,
    equation: &mp_file::Equation<'t>,
    exponents: &mut Exponents<'_>,
) -> Result<Equation<'t>, ModelFault<'t>>
    requires locals { AreNodes graph.old.terms locals.now }
    requires images { AreImages graph.old images.old earlier }
    requires shifts { SidesHaveDifferences graph.old.names (locals_in graph.old.terms locals.now) (equation_of equation.now) }
    ensures equation { Gives (λ x. (equation_in graph.new.terms (sides_of x), exponents.new)) result (equation_from graph.old.names (locals_in graph.old.terms locals.now) (equation_of equation.now) exponents.old) }
    ensures within { IfOk result (λ x. IsWithin graph.new (sides_of x)) }
    ensures kept { Keeps graph.old graph.new }
    ensures images { AreImages graph.new images.new earlier }
{
    let left = node_of(alloc, graph, locals, images, &equation.left, exponents)?;
    let right = right_node(alloc, graph, locals, images, &equation.right, exponents)?;
    Ok(Equation {
        name: name_of(equation),
        left,
        right,
    })
}

// The node of a right side.
fn right_node<'t>(
    alloc: Global,
    graph: &mut Graph<'t>,
    locals: &Locals<'t>,
    images: &mut Images,
    right: &Option<Expression<'t>>,
    exponents: &mut Exponents<'_>,
) -> Result<NodeId, ModelFault<'t>>
    requires locals { AreNodes graph.old.terms locals.now }
    requires images { AreImages graph.old images.old earlier }
    requires shifts { HasDifferences graph.old.names (locals_in graph.old.terms locals.now) (right_side (option_map expr_of right.now)) }
    ensures node { Gives (λ id. (term_at graph.new.terms id, exponents.new)) result (right_from graph.old.names (locals_in graph.old.terms locals.now) (option_map expr_of right.now) exponents.old) }
    ensures within { IfOk result (λ id. id < length graph.new.terms) }
    ensures kept { Keeps graph.old graph.new }
    ensures images { AreImages graph.new images.new earlier }
{
    match right {
        None => Ok(graph.intern(NodeOp::Leaf(LeafOp::Num { m: 0, s: 0 }), &[])?),
        Some(right) => node_of(alloc, graph, locals, images, right, exponents),
    }
}

// The name that a tag gives an equation, if one does.
fn name_of<'t>(equation: &mp_file::Equation<'t>) -> Option<&'t [u8]>
    ensures { option_map (λ n. n.now) result ≡ name_of (equation_of equation.now) }
{
    'tags: for tag in equation.tags.as_slice() {
        if tag.name.name == b"name".as_slice() {
            return Some(unquoted(tag.text));
        }
    }
    None
}

// What stands between the quotes of a text.
fn unquoted(text: &[u8]) -> &[u8]
    ensures { result.now ≡ unquoted text.now }
{
    if text.len() < 2 {
        return &[];
    }
    &text[1..text.len() - 1]
}
