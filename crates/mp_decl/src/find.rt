// The first point that is sought in expressions, from left to right.
ghost use Rattle.std.specs.Prelude.{◌≡◌, map, find, option_map};
ghost use Rattle.std.specs.List.{flat_map};
ghost use Rattle.std.specs.Option.{option_or};
ghost use Rattle.mp_statements.specs.Sides.{sides};
ghost use Rattle.mp_file.specs.Shown.{expr_of, further_of, equation_of};
ghost use Rattle.mp_declared.specs.Points as p;
ghost use Rattle.mp_declared.specs.Points.{reads};
ghost use Rattle.mp_decl.specs.Shown.{reader_of, point_of};
ghost use Rattle.mp_decl.specs.Search.{sought_by};

use crate::search::{Point, Reader, Search};
use mp_file::{Equation, Expression, Further};

// The first of two points that is there.
fn first_of<'t>(x: Option<Point<'t>>, y: Option<Point<'t>>) -> Option<Point<'t>>
    ensures { option_map point_of result ≡ option_or (option_map point_of x.entry) (option_map point_of y.entry) }
{
    match x {
        Some(point) => Some(point),
        None => y,
    }
}

/// The first point that is sought in an expression.
#[cycle(finder)]
#[tactic(auto, unfolding(mp_declared::specs::Points::reads))]
pub(crate) fn find_in<'t>(
    search: &Search<'_, 't>,
    reader: Reader,
    expression: &Expression<'t>,
) -> Option<Point<'t>>
    ensures { option_map point_of result ≡ find (sought_by search.now) (reads (reader_of reader) (expr_of expression.now)) }
{
    match expression {
        Expression::Number { .. } => None,
        Expression::Variable { name } => search.tested(Point::Reads {
            reader,
            name: *name,
            shift: None,
        }),
        Expression::Shifted { name, shift } => search.tested(Point::Reads {
            reader,
            name: *name,
            shift: Some(*shift.get()),
        }),
        Expression::Signed { operand, .. } => find_in(search, reader, operand.get()),
        Expression::Chain { first, more } => {
            let point = find_in(search, reader, first.get());
            first_of(point, find_in_further(search, reader, more.as_slice()))
        }
        Expression::Power { base, exponent, .. } => {
            let point = find_in(search, reader, base.get());
            first_of(point, find_in(search, Reader::Constant, exponent.get()))
        }
        Expression::Paren { inside } => find_in(search, reader, inside.get()),
        Expression::Call { first, second, .. } => {
            let point = find_in(search, reader, first.get());
            first_of(point, find_in(search, reader, second.get()))
        }
        Expression::Diff { at, inside } => {
            let point = search.tested(Point::Differs { reader, at: *at });
            first_of(point, find_in(search, reader, inside.get()))
        }
    }
}

// The first point that is sought in these operands.
#[cycle(finder)]
fn find_in_further<'t>(
    search: &Search<'_, 't>,
    reader: Reader,
    more: &[Further<'t>],
) -> Option<Point<'t>>
    ensures { option_map point_of result ≡ find (sought_by search.now) (flat_map (λ x. reads (reader_of reader) x.operand) (map further_of more.now)) }
{
    'turns: for next in more {
        if let Some(point) = find_in(search, reader, &next.operand) {
            return Some(point);
        }
    }
    None
}

/// The first point that is sought in the sides of an equation.
pub(crate) fn find_in_sides<'t>(
    search: &Search<'_, 't>,
    equation: &Equation<'t>,
) -> Option<Point<'t>>
    ensures { option_map point_of result ≡ find (sought_by search.now) (flat_map (reads p.InModel) (sides (equation_of equation.now))) }
{
    let point = find_in(search, Reader::InModel, &equation.left);
    match &equation.right {
        None => point,
        Some(right) => first_of(point, find_in(search, Reader::InModel, right)),
    }
}
