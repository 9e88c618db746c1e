// How far the names that an expression reads are shifted.
ghost use Rattle.std.specs.Prelude.{◌≡◌, ◌≤◌, ◌^◌, ◌++◌, ◌∷◌, [], ℕ, List, min, map, option_map};
ghost use Rattle.std.specs.List.{flat_map};
ghost use Rattle.mp_file.specs.Shown.{expr_of, further_of, named_of, shift_of, item_of, equation_of};
ghost use Rattle.mp_statements.specs.Sides.{sides};
ghost use Rattle.mp_values.specs.Shifts.{Shifts, Reading, readings, item_readings};
ghost use Rattle.mp_local.specs.Known.{Knows};
ghost use Rattle.mp_local.specs.Reaches.{Reaches};

use crate::ends::{DEEP, Ends};
use crate::far::FarName;
use crate::known::Known;
use crate::span::{in_differences, joined};
use mp_file::{Equation, Expression, Further, Item, Named, Shift};

/// The ends of the shifts that come from several names, none of which is beyond a limit; or the first name from which
/// one is.
pub(crate) type Reach<'t> = Result<Option<Ends>, FarName<'t>>;

// What comes from one name that is read in so many differences.
fn read<'t>(
    known: &Known<'_, 't>,
    depth: u128,
    name: Named<'t>,
    shift: Option<Shift<'t>>,
) -> Reach<'t>
    requires { depth ≤ 2 ^ 125 }
    ensures { (d : ℕ) (s : Shifts) → depth ≡ min d (2 ^ 125) → Knows known.now s → Reaches known.now.limit s (record { name = named_of name.entry; shift = option_map shift_of shift.entry; depth = d } ∷ []) result }
{
    let Some(own) = known.own_ends(name.name, &shift) else {
        return Ok(None);
    };
    match in_differences(own, depth, known.limit) {
        Ok(ends) => Ok(Some(ends)),
        Err(greatest) => Err(FarName { name, greatest }),
    }
}

// What comes from the names of two lists.
fn both<'t>(x: Reach<'t>, y: Reach<'t>) -> Reach<'t>
    ensures { (limit : ℕ) (s : Shifts) (rs qs : List Reading) → Reaches limit s rs x.entry → Reaches limit s qs y.entry → Reaches limit s (rs ++ qs) result }
{
    let a = match x {
        Ok(a) => a,
        Err(far) => return Err(far),
    };
    match y {
        Ok(b) => Ok(joined(a, b)),
        Err(far) => Err(far),
    }
}

// What comes from the names of an expression in so many differences.
#[cycle(reacher)]
fn expression_reach<'t>(
    known: &Known<'_, 't>,
    depth: u128,
    expression: &Expression<'t>,
) -> Reach<'t>
    requires { depth ≤ 2 ^ 125 }
    ensures { (d : ℕ) (s : Shifts) → depth ≡ min d (2 ^ 125) → Knows known.now s → Reaches known.now.limit s (readings d (expr_of expression.now)) result }
{
    match expression {
        Expression::Number { .. } => Ok(None),
        Expression::Variable { name } => read(known, depth, *name, None),
        Expression::Shifted { name, shift } => read(known, depth, *name, Some(*shift.get())),
        Expression::Signed { operand, .. } => expression_reach(known, depth, operand.get()),
        Expression::Chain { first, more } => {
            let reach = expression_reach(known, depth, first.get());
            both(reach, further_reach(known, depth, more.as_slice()))
        }
        Expression::Power { base, .. } => expression_reach(known, depth, base.get()),
        Expression::Paren { inside } => expression_reach(known, depth, inside.get()),
        Expression::Call { first, second, .. } => {
            let reach = expression_reach(known, depth, first.get());
            both(reach, expression_reach(known, depth, second.get()))
        }
        Expression::Diff { inside, .. } => {
            expression_reach(known, (depth + 1).min(DEEP), inside.get())
        }
    }
}

// What comes from the names of these operands.
#[cycle(reacher)]
fn further_reach<'t>(known: &Known<'_, 't>, depth: u128, more: &[Further<'t>]) -> Reach<'t>
    requires { depth ≤ 2 ^ 125 }
    ensures { (d : ℕ) (s : Shifts) → depth ≡ min d (2 ^ 125) → Knows known.now s → Reaches known.now.limit s (flat_map (λ x. readings d x.operand) (map further_of more.now)) result }
{
    let mut reach = Ok(None);
    'turns: for next in more {
        reach = both(reach, expression_reach(known, depth, &next.operand));
    }
    reach
}

// What comes from the names of both sides.
fn equation_reach<'t>(known: &Known<'_, 't>, equation: &Equation<'t>) -> Reach<'t>
    ensures { (s : Shifts) → Knows known.now s → Reaches known.now.limit s (flat_map (readings 0) (sides (equation_of equation.now))) result }
{
    let left = expression_reach(known, 0, &equation.left);
    match &equation.right {
        None => left,
        Some(right) => both(left, expression_reach(known, 0, right)),
    }
}

/// What comes from the names of an item.
pub(crate) fn item_reach<'t>(known: &Known<'_, 't>, item: &Item<'t>) -> Reach<'t>
    ensures { (s : Shifts) → Knows known.now s → Reaches known.now.limit s (item_readings (item_of item.now)) result }
{
    match item {
        Item::Local { value, .. } => expression_reach(known, 0, value),
        Item::Equates { equation } => equation_reach(known, equation),
    }
}
