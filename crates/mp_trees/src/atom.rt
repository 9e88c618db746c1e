// The node of a number or of a name.
ghost use Rattle.std.specs.Prelude.{◌≡◌, ◌<◌, ◌≤ℤ◌, pos, length, unsigned_abs, option_map, IfOk};
ghost use Rattle.std.specs.Option.{ForSome};
ghost use Rattle.mp_semantics.specs.Term.{leaf};
ghost use Rattle.mp_graph.specs.Op.{leaf_of, IsLawfulLeaf};
ghost use Rattle.mp_graph.specs.Shared.{term_at, Keeps};
ghost use Rattle.mp_tokens.specs.Literals.{number_of};
ghost use Rattle.mp_file.specs.Shown.{shift_of as named_shift, named_of};
ghost use Rattle.mp_values.specs.Names.{along, named_term, shift_of};
ghost use Rattle.mp_values.specs.Limits.{limited, known};
ghost use Rattle.mp_values.specs.ModelOf.{meaning_of};
ghost use Rattle.mp_trees.specs.Gives.{Gives, IsFarLiteral, same, up_to_limit};
ghost use Rattle.mp_trees.specs.Locals.{AreNodes, locals_in};
ghost use Rattle.mp_trees.specs.Parts.{number_given, name_given};

use crate::fault::{ModelFault, whole};
use crate::locals::Locals;
use mp_base::{DataKind, DataRefusal};
use mp_expr::VarId;
use mp_file::{Named, Shift};
use mp_fold::Name;
use mp_graph::{Graph, LeafOp, NodeId, NodeOp};
use mp_literal::{Decimal, decimal};
use mp_names::{NameId, Names};
use mp_syntax::Sign;

// The greatest number that a fault can name.
const LIMIT: u128 = 10000000000000000000000000000000000000;

// The most periods that a variable may be shifted.
const FARTHEST: u128 = 24;

// The node of the number that a literal at this place writes.
pub(crate) fn number_node<'t>(
    graph: &mut Graph<'t>,
    literal: &[u8],
    at: u32,
) -> Result<NodeId, ModelFault<'t>>
    ensures node { Gives (term_at graph.new.terms) result (number_given literal.now at) }
    ensures within { IfOk result (λ id. id < length graph.new.terms) }
    ensures kept { Keeps graph.old graph.new }
{
    match decimal(literal) {
        Some(Decimal { m, s }) => Ok(graph.intern(NodeOp::Leaf(LeafOp::Num { m, s }), &[])?),
        None => Err(far_literal(at)),
    }
}

// A number at this place is out of range.
fn far_literal<'t>(at: u32) -> ModelFault<'t>
    ensures { IsFarLiteral at result }
{
    ModelFault::Refused(DataRefusal {
        kind: DataKind::Literal,
        at,
        first: whole(0),
        second: whole(37),
    })
}

// The node of the expression of a local, of the variable of a name, shifted, or of its parameter.
pub(crate) fn name_node<'t>(
    graph: &mut Graph<'t>,
    locals: &Locals<'t>,
    name: Named<'t>,
    shift: Option<Shift<'t>>,
) -> Result<NodeId, ModelFault<'t>>
    requires { AreNodes graph.old.terms locals.now }
    ensures node { Gives (term_at graph.new.terms) result (name_given graph.old.names (locals_in graph.old.terms locals.now) (named_of name.entry) (option_map named_shift shift.entry)) }
    ensures within { IfOk result (λ id. id < length graph.new.terms) }
    ensures kept { Keeps graph.old graph.new }
{
    let shift = periods(name.at, shift)?;
    meant_node(graph, locals, name.name, shift)
}

// The same where the shift is known.
fn meant_node<'t>(
    graph: &mut Graph<'t>,
    locals: &Locals<'t>,
    name: &'t [u8],
    shift: i16,
) -> Result<NodeId, ModelFault<'t>>
    requires { AreNodes graph.old.terms locals.now }
    ensures node { Gives (term_at graph.new.terms) result (known name.now (meaning_of graph.old.names (locals_in graph.old.terms locals.now) name.now shift)) }
    ensures within { IfOk result (λ id. id < length graph.new.terms) }
    ensures kept { Keeps graph.old graph.new }
{
    match locals.find(name) {
        Some(node) => Ok(node),
        None => declared_node(graph, name, shift),
    }
}

// The node of the variable of a declared name, shifted, or of its parameter.
fn declared_node<'t>(
    graph: &mut Graph<'t>,
    name: &'t [u8],
    shift: i16,
) -> Result<NodeId, ModelFault<'t>>
    ensures node { Gives (term_at graph.new.terms) result (known name.now (named_term graph.old.names name.now shift)) }
    ensures within { IfOk result (λ id. id < length graph.new.terms) }
    ensures kept { Keeps graph.old graph.new }
{
    match found_leaf(name, shift, graph.names()) {
        Some(op) => Ok(graph.intern(NodeOp::Leaf(op), &[])?),
        None => Err(ModelFault::Unvalued {
            name: Name::of(name),
        }),
    }
}

// The variable of a name, shifted, or its parameter, if the name is declared.
fn found_leaf(name: &[u8], shift: i16, names: &Names) -> Option<LeafOp>
    ensures leaf { option_map (λ l. leaf (leaf_of l)) result ≡ named_term names.now name.now shift }
    ensures lawful { ForSome result (IsLawfulLeaf names.now) }
{
    let id = names.find(name)?;
    Some(match id {
        NameId::Endo(n) => LeafOp::Var {
            v: VarId::Endo(n),
            shift,
        },
        NameId::Exo(n) => LeafOp::Var {
            v: VarId::Exo(n),
            shift,
        },
        NameId::Param(n) => LeafOp::Param(n),
    })
}

// How many periods ahead the name at this place is shifted; less than 0 is back.
fn periods<'t>(at: u32, shift: Option<Shift<'t>>) -> Result<i16, ModelFault<'t>>
    ensures { Gives same result (limited.shift at (shift_of (option_map named_shift shift.entry))) }
{
    let Some(shift) = shift else {
        return Ok(0);
    };
    match number(shift.digits) {
        None => Err(far_literal(at)),
        Some(count) if count > FARTHEST => Err(ModelFault::Refused(DataRefusal {
            kind: DataKind::ShiftFar,
            at,
            first: whole(count),
            second: whole(FARTHEST),
        })),
        Some(count) => Ok(along(shift.sign, count as i16)),
    }
}

fn along(sign: Sign, count: i16) -> i16
    requires { pos 0 ≤ℤ count }
    ensures { result ≡ along sign (unsigned_abs count) }
{
    match sign {
        Sign::Plus => count,
        Sign::Minus => -count,
    }
}

// The number that these digits write, if a fault can name it.
fn number(digits: &[u8]) -> Option<u128>
    ensures { result ≡ up_to_limit (number_of digits.now) }
{
    let mut value: u128 = 0;
    for digit in digits {
        value = 10 * value + digit.saturating_sub(b'0') as u128;
        if value > LIMIT {
            return None;
        }
    }
    Some(value)
}
