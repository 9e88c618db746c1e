// Long leads and lags replaced by stand-ins.
ghost use Rattle.std.specs.Prelude.{◌≡◌, ◌<◌, ◌≤◌, ◌+◌, length, slice_index_or, IfOk};
ghost use Rattle.mp_expr.specs.Shown.{place_of};
ghost use Rattle.mp_semantics.specs.Term.{variable, endogenous};
ghost use Rattle.mp_graph.specs.Images.{HasImages};
ghost use Rattle.mp_graph.specs.Op.{IsLawfulLeaf, leaf_of};
ghost use Rattle.mp_graph.specs.Own.{AreOwn};
ghost use Rattle.mp_graph.specs.declared.op.LeafOp.TheVariants.{Var};
ghost use Rattle.mp_expr.specs.declared.tree.VarId.TheVariants.{Endo};
ghost use Rattle.mp_graph.specs.Shared.{term_at, Says, Keeps};
ghost use Rattle.mp_names.specs.Naming.{IsNumbered};
ghost use Rattle.mp_solutions.specs.Transformed.{short, short_leaf};
ghost use Rattle.mp_shift.specs.Stand.{no_first, stand_by, ReadsName, ReadsNames};

use crate::first::First;
use mp_base::NoMemory;
use mp_expr::VarId;
use mp_graph::{Graph, LeafOp, NodeId, NodeOp};
use mp_names::Names;
use mp_statements::NameKind;

// The expression of this node, whose own nodes are given, in short form. The stand-ins of each variable begin at these
// places, and the graph names them. The table may hold anything, and is written over.
pub(crate) fn short_form(
    graph: &mut Graph<'_>,
    root: NodeId,
    own: &[NodeId],
    images: &mut [NodeId],
    firsts: &[First],
) -> Result<NodeId, NoMemory>
    requires within { root < length graph.old.terms }
    requires own { AreOwn graph.old.terms root own.now }
    requires table { root < length images.old }
    requires named { ReadsNames graph.old.names.endogenous (short (stand_by firsts.now) (term_at graph.old.terms root)) }
    ensures says { IfOk result (λ r. Says graph.new r (short (stand_by firsts.now) (term_at graph.old.terms root))) }
    ensures kept { Keeps graph.old graph.new }
{
    graph.unique();
    'nodes: for id in own {
        let image = short_node(graph, *id, images, firsts)?;
        images[id.index()] = image;
    }
    Ok(images[root.index()])
}

// The node with its operands replaced by their images, or a leaf in short form.
fn short_node(
    graph: &mut Graph<'_>,
    id: NodeId,
    images: &[NodeId],
    firsts: &[First],
) -> Result<NodeId, NoMemory>
    requires within { id < length graph.old.terms }
    requires table { id ≤ length images.now }
    requires images { HasImages graph.old images.now id (short (stand_by firsts.now)) }
    requires named { ReadsNames graph.old.names.endogenous (short (stand_by firsts.now) (term_at graph.old.terms id)) }
    ensures says { IfOk result (λ r. Says graph.new r (short (stand_by firsts.now) (term_at graph.old.terms id))) }
    ensures kept { Keeps graph.old graph.new }
{
    let node = graph.node(id);
    let op = node.op;
    match op {
        NodeOp::Leaf(leaf) => {
            let leaf = short_leaf(graph.names(), leaf, firsts);
            graph.intern(NodeOp::Leaf(leaf), &[])
        }
        NodeOp::Neg | NodeOp::Pow(_) => {
            let a = images[node.kids[0].index()];
            graph.intern(op, &[a])
        }
        NodeOp::Binary(_) => {
            let a = images[node.kids[0].index()];
            let b = images[node.kids[1].index()];
            graph.intern(op, &[a, b])
        }
        NodeOp::Pick => {
            let a = images[node.kids[0].index()];
            let b = images[node.kids[1].index()];
            let c = images[node.kids[2].index()];
            let d = images[node.kids[3].index()];
            graph.intern(op, &[a, b, c, d])
        }
    }
}

fn short_leaf(names: &Names, leaf: LeafOp, firsts: &[First]) -> LeafOp
    requires lawful { IsLawfulLeaf names.now leaf }
    requires named { ReadsName names.now.endogenous (short_leaf (stand_by firsts.now) (leaf_of leaf)) }
    ensures lawful { IsLawfulLeaf names.now result }
    ensures short { leaf_of result ≡ short_leaf (stand_by firsts.now) (leaf_of leaf) }
{
    match leaf {
        LeafOp::Var {
            v: VarId::Endo(number),
            shift,
        } => short_variable(names, number, shift, firsts),
        _ => leaf,
    }
}

// The endogenous variable of this number, so many periods later, by its stand-in.
fn short_variable(names: &Names, number: u32, shift: i16, firsts: &[First]) -> LeafOp
    requires numbered { IsNumbered names.now.endogenous number }
    requires named { ReadsName names.now.endogenous (short_leaf (stand_by firsts.now) (variable (endogenous (place_of number)) shift)) }
    ensures lawful { IsLawfulLeaf names.now result }
    ensures short { leaf_of result ≡ short_leaf (stand_by firsts.now) (variable (endogenous (place_of number)) shift) }
{
    let first = first_at(firsts, number - 1);
    let periods = shift.unsigned_abs();
    if periods < 2 {
        return shifted(number, shift);
    }
    if shift < 0 {
        shifted(number_at(names, first.lag, periods - 2), -1)
    } else {
        shifted(number_at(names, first.lead, periods - 2), 1)
    }
}

fn shifted(number: u32, shift: i16) -> LeafOp
    ensures { result ≡ Var (Endo number) shift }
{
    LeafOp::Var {
        v: VarId::Endo(number),
        shift,
    }
}

// Where the stand-ins of the variable at this place begin.
fn first_at(firsts: &[First], place: u32) -> First
    ensures { result ≡ slice_index_or firsts.now place no_first }
{
    match firsts.get(place as usize) {
        Some(first) => *first,
        None => First { lead: 0, lag: 0 },
    }
}

// The number of the name so far behind this place.
fn number_at(names: &Names, first: u64, further: u16) -> u32
    requires { first + further < length names.now.endogenous }
    ensures numbered { IsNumbered names.now.endogenous result }
    ensures place { place_of result ≡ first + further }
{
    let _few = names.count(NameKind::Endogenous);
    (first + u64::from(further)) as u32 + 1
}
