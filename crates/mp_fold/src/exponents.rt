// The exponents of equations.
ghost use Rattle.std.specs.Prelude.{◌≡◌, ◌≤◌, ◌∷◌, [], Ok, map, option_map, unsigned_abs};
ghost use Rattle.mp_file.specs.Shown.{expr_of, further_of, equation_of, item_of};
ghost use Rattle.mp_values.specs.Chained.{chained};
ghost use Rattle.mp_values.specs.Limits.{limited};
ghost use Rattle.mp_values.specs.Values.{folded, exponent_at};
ghost use Rattle.mp_values.specs.Exponents.{exponents_given, right_exponents, equation_exponents, item_exponents, all_exponents};
ghost use Rattle.mp_fold.specs.Shown.{and_then};
ghost use Rattle.mp_fold.specs.Collected.{appended, Adds, Reaches};

use crate::fault::FoldFault;
use crate::operations::near_exponent;
use crate::values::value_of;
use mp_file::{Equation, Expression, Further, Item};
use mp_names::Table;
use mp_syntax::Sign;
use std::alloc::AllocFailed;
use std::marker::Model;
use thiserror::Error;

/// An exponent: a whole number from -16 to 16 (modpath's own rule).
#[derive(Clone, Copy, Debug)]
pub struct Exponent {
    value: i8,
}

impl Model for Exponent {
    ghost use Rattle.std.specs.Prelude.{ℤ, ◌≤◌, unsigned_abs};

    ghost Value = { ℤ };

    ghost view = { λ e. e.value };

    ghost invariant = { λ e. unsigned_abs e.value ≤ 16 };

    ghost inverse = { λ k. record { value = k } };
}

impl Exponent {
    // This number.
    fn of(value: i8) -> Exponent
        requires { unsigned_abs value ≤ 16 }
        ensures { result ≡ value }
    {
        Exponent { value }
    }

    /// The number itself.
    pub fn value(self) -> i8
        ensures value { result ≡ self }
        ensures near { unsigned_abs result ≤ 16 }
    {
        self.value
    }
}

/// Why the exponents of equations are not collected: one of them is none, or there was no memory.
#[derive(Debug, Drop, Error)]
pub enum ExponentFault<'t> {
    #[error("an exponent is refused")]
    Refused(FoldFault<'t>),
    #[error("there was no memory")]
    NoMemory,
}

impl<'t, T: Drop> From<AllocFailed<T>> for ExponentFault<'t> {
    ghost use Rattle.std.specs.Prelude.{◌≡◌};
    ghost use Rattle.mp_fold.specs.declared.exponents.ExponentFault.TheVariants.{NoMemory};

    ghost from_gives = { λ _ e. e ≡ NoMemory };

    fn from(_: AllocFailed<T>) -> Self {
        ExponentFault::NoMemory
    }
}

/// Nothing, or why there is no exponent.
type Tested<'t> = Result<(), ExponentFault<'t>>;

// Adds the exponent of a "^" at this place, with the sign before it.
fn add_exponent<'t>(
    table: &Table<'t>,
    at: u32,
    sign: Option<Sign>,
    written: &Expression<'t>,
    found: &mut Vec<Exponent>,
) -> Tested<'t>
    ensures { Adds result found.old.items found.new.items (and_then (folded table.now (expr_of written.now)) (λ y. and_then (exponent_at limited at sign y) (λ k. Ok (k ∷ [])))) }
{
    match near_exponent(at, sign, value_of(table, written)) {
        Ok(k) => Ok(found.push(Exponent::of(k))?),
        Err(fault) => Err(ExponentFault::Refused(fault)),
    }
}

#[cycle(tester)]
fn add_expression<'t>(
    table: &Table<'t>,
    expression: &Expression<'t>,
    found: &mut Vec<Exponent>,
) -> Tested<'t>
    ensures { Adds result found.old.items found.new.items (exponents_given table.now (expr_of expression.now)) }
{
    match expression {
        Expression::Number { .. } => Ok(()),
        Expression::Variable { .. } => Ok(()),
        Expression::Shifted { .. } => Ok(()),
        Expression::Signed { operand, .. } => add_expression(table, operand.get(), found),
        Expression::Chain { first, more } => {
            add_expression(table, first.get(), found)?;
            add_further(table, more.as_slice(), found)
        }
        Expression::Power {
            base,
            at,
            sign,
            exponent,
        } => {
            add_expression(table, base.get(), found)?;
            add_exponent(table, *at, *sign, exponent.get(), found)
        }
        Expression::Paren { inside } => add_expression(table, inside.get(), found),
        Expression::Call { first, second, .. } => {
            add_expression(table, first.get(), found)?;
            add_expression(table, second.get(), found)
        }
        Expression::Diff { inside, .. } => add_expression(table, inside.get(), found),
    }
}

// Those of these operands.
#[cycle(tester)]
fn add_further<'t>(table: &Table<'t>, more: &[Further<'t>], found: &mut Vec<Exponent>) -> Tested<'t>
    ensures { Reaches result found.new.items (chained (λ e. exponents_given table.now e) appended found.old.items (map further_of more.now)) }
{
    'turns: for next in more {
        add_expression(table, &next.operand, found)?;
    }
    Ok(())
}

fn add_right<'t>(
    table: &Table<'t>,
    right: &Option<Expression<'t>>,
    found: &mut Vec<Exponent>,
) -> Tested<'t>
    ensures { Adds result found.old.items found.new.items (right_exponents table.now (option_map expr_of right.now)) }
{
    match right {
        None => Ok(()),
        Some(right) => add_expression(table, right, found),
    }
}

fn add_equation<'t>(
    table: &Table<'t>,
    equation: &Equation<'t>,
    found: &mut Vec<Exponent>,
) -> Tested<'t>
    ensures { Adds result found.old.items found.new.items (equation_exponents table.now (equation_of equation.now)) }
{
    add_expression(table, &equation.left, found)?;
    add_right(table, &equation.right, found)
}

fn add_item<'t>(table: &Table<'t>, item: &Item<'t>, found: &mut Vec<Exponent>) -> Tested<'t>
    ensures { Adds result found.old.items found.new.items (item_exponents table.now (item_of item.now)) }
{
    match item {
        Item::Local { value, .. } => add_expression(table, value, found),
        Item::Equates { equation } => add_equation(table, equation, found),
    }
}

/// Adds the exponents of these items, of the expressions of locals too, in text order, where parameters have these
/// values. The first that is no whole
/// number from -16 to 16 is told (modpath's own rule).
#[tactic(auto, using(crate::proofs::Chains::after_joined))]
pub fn add_exponents<'t>(
    table: &Table<'t>,
    items: &[Item<'t>],
    found: &mut Vec<Exponent>,
) -> Tested<'t>
    ensures { Adds result found.old.items found.new.items (all_exponents table.now (map item_of items.now)) }
{
    'turns: for item in items {
        add_item(table, item, found)?;
    }
    Ok(())
}
