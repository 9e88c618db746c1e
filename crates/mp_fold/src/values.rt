// The values of expressions.
ghost use Rattle.std.specs.Prelude.{◌≡◌, map};
ghost use Rattle.mp_file.specs.Shown.{expr_of, further_of};
ghost use Rattle.mp_frac.specs.Value as v;
ghost use Rattle.mp_values.specs.Chained.{chained};
ghost use Rattle.mp_values.specs.Limits.{limited};
ghost use Rattle.mp_values.specs.Values.{folded};
ghost use Rattle.mp_fold.specs.Shown.{shown, and_then};

use crate::number::{known_value, literal_value};
use crate::operations::{Value, chosen, joined, power, signed, unchanging};
use mp_file::{Expression, Further};
use mp_names::Table;

/// The value of an expression where parameters have these values: a parameter without one, or the first operation, in
/// post-order, that is refused, is told. A literal has a numerator of at most 10^37 and 37 places, an exponent is a
/// whole number from -16 to 16, and operations refuse by the rule of stated parts (all modpath's own). What reads no
/// variables gains nothing from period to period, so a `diff` is 0.
#[cycle(folder)]
pub fn value_of<'t>(table: &Table<'t>, expression: &Expression<'t>) -> Value<'t>
    ensures { shown v.value_of result ≡ folded table.now (expr_of expression.now) }
{
    match expression {
        Expression::Number { literal, at } => literal_value(literal, *at),
        Expression::Variable { name } => known_value(table, name),
        Expression::Shifted { name, .. } => known_value(table, name),
        Expression::Signed { sign, operand } => signed(*sign, value_of(table, operand.get())),
        Expression::Chain { first, more } => {
            further_value(table, value_of(table, first.get()), more.as_slice())
        }
        Expression::Power {
            base,
            at,
            sign,
            exponent,
        } => {
            let x = value_of(table, base.get());
            let y = value_of(table, exponent.get());
            power(*at, *sign, x, y)
        }
        Expression::Paren { inside } => value_of(table, inside.get()),
        Expression::Call {
            function,
            first,
            second,
        } => {
            let x = value_of(table, first.get());
            let y = value_of(table, second.get());
            chosen(*function, x, y)
        }
        Expression::Diff { inside, .. } => unchanging(value_of(table, inside.get())),
    }
}

// The value so far, and then these operands.
#[cycle(folder)]
fn further_value<'t>(table: &Table<'t>, first: Value<'t>, more: &[Further<'t>]) -> Value<'t>
    ensures { shown v.value_of result ≡ and_then (shown v.value_of first.entry) (λ x. chained (λ e. folded table.now e) limited.result x (map further_of more.now)) }
{
    let mut value = first?;
    'turns: for next in more {
        let y = value_of(table, &next.operand)?;
        value = joined(next.op, next.at, value, y)?;
    }
    Ok(value)
}
