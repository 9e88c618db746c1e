// One derivative of a residual.
ghost use Rattle.std.specs.Prelude.{◌≡◌, ◌<◌, length, IfOk};
ghost use Rattle.mp_graph.specs.Own.{AreOwn};
ghost use Rattle.mp_graph.specs.Shared.{term_at, Keeps};
ghost use Rattle.mp_diff.specs.Places.{place_shown};
ghost use Rattle.mp_slopes.specs.Derivative.{HasDerivative};
ghost use Rattle.mp_canonical.specs.Terms.{variable_name};
ghost use Rattle.mp_derivatives.specs.Derivatives.{derivation};
ghost use Rattle.mp_report.specs.Shown.{derivation_of};
ghost use Rattle.mp_derive.specs.Listed.{derivative_by};

use mp_base::NoMemory;
use mp_diff::{Place, derivative_over};
use mp_graph::{Graph, NodeId};
use mp_names::Names;
use mp_print_model::print_tree;
use mp_report::Derivative;
use mp_statements::NameKind;
use std::alloc::Global;

// The difference of both sides of an equation: the equation's number, from 1, its node, and that node's own nodes.
#[derive(Clone, Copy)]
pub(crate) struct Residual<'a> {
    pub equation: usize,
    pub root: NodeId,
    pub own: &'a [NodeId],
}

// Its derivative by a place. The table is by the numbers of nodes; it may hold anything, and is written over.
pub(crate) fn derivative_at<'t>(
    alloc: Global,
    graph: &mut Graph<'t>,
    residual: &Residual<'_>,
    place: Place,
    images: &mut [NodeId],
) -> Result<Derivative<'t>, NoMemory>
    requires within { residual.now.root < length graph.old.terms }
    requires own { AreOwn graph.old.terms residual.now.root residual.now.own.now }
    requires table { residual.now.root < length images.old }
    requires has { HasDerivative (term_at graph.old.terms residual.now.root) }
    ensures derivation { IfOk result (λ d. derivation_of d ≡ derivation graph.old.names (derivative_by residual.now.equation (term_at graph.old.terms residual.now.root) (place_shown place))) }
    ensures kept { Keeps graph.old graph.new }
{
    let (root, own, shift) = (residual.root, residual.own, place.shift);
    let id = derivative_over(graph, root, own, images, place.variable(), shift)?;
    let text = print_tree(alloc, graph, id)?;
    Ok(Derivative {
        equation: residual.equation,
        variable: variable_name(graph.names(), place),
        shift,
        text,
    })
}

// The name of a place's variable, and none where no variable has its number.
fn variable_name<'t>(names: &Names<'t>, place: Place) -> &'t [u8]
    ensures { result.now ≡ variable_name names.now (place_shown place).x }
{
    let kind = if place.exogenous {
        NameKind::Exogenous
    } else {
        NameKind::Endogenous
    };
    let list = names.of_kind(kind);
    if place.number < list.count() {
        list.name(place.number)
    } else {
        b""
    }
}
