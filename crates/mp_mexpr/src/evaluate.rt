// The value of an expression.
ghost use Rattle.std.specs.Prelude.{Ok};
ghost use Rattle.mp_base.specs.Answers.{Gives};
ghost use Rattle.mp_mvalue.specs.Environments.{value_in};
ghost use Rattle.mp_mvalue.specs.Shared.{unshared};
ghost use Rattle.mp_mvalue.specs.Told.{told};
ghost use Rattle.mp_mexpr.specs.Grammar.{meaning, value_by, value_or_bad, expression_of};
ghost use Rattle.mp_mexpr.specs.Meaning.{array_value, or_value, and_value, apply_value, index_value};
ghost use Rattle.mp_mexpr.specs.Readings.{GivesMeant};
ghost use Rattle.mp_mexpr.specs.Shown.{expr_of, after};
ghost use Rattle.mp_mexpr.specs.Steps.{step_value, steps_value};
ghost use Rattle.mp_mexpr.specs.Syntax.{value_of, values_of};
ghost use Rattle.mp_mexpr.specs.Syntax as s;
ghost use Rattle.mp_mexpr.specs.Tokens.{toks};

use crate::expression::{Expr, Step};
use crate::lexer::{is_deep, lex};
use crate::meaning::{
    digits_value, element_of, name_value, negative_of, not_of, refused, strict_value, truth_of,
    truth_value,
};
use crate::operator::Operator;
use crate::reader::{Rest, Unread, level_of};
use mp_base::MacroKind;
use mp_mvalue::{Env, Gathered, MacroFault, SharedValue, text};
use std::alloc::Global;

/// The value of a macro expression where the names have these values; or the kind of what is wrong: NestDeep where the
/// tokens before the first byte that begins none have, in some prefix, over 100 more brackets that open than such that
/// close; else BadExpression where it has no reading; else what the first operand or operator that has no value gives,
/// from left to right (Dynare manual, "Macro processing language"; kinds, precedence and limits are modpath's own).
pub fn eval(alloc: Global, expr: &[u8], env: &Env) -> Result<SharedValue, MacroFault>
    ensures value { Gives unshared told result (meaning (value_in env.now) expr.now) }
    ensures by_grammar { GivesMeant (value_in env.now) expr.now result }
{
    value_of_bytes(alloc, expr, env)
}

fn value_of_bytes(alloc: Global, expr: &[u8], env: &Env) -> Result<SharedValue, MacroFault>
    ensures { Gives unshared told result (meaning (value_in env.now) expr.now) }
{
    let (tokens, whole) = lex(alloc, expr)?;
    let value = value_of_lexed(alloc, env, tokens.as_slice(), whole);
    drop(tokens);
    value
}

// The value of an expression of these tokens, where they may be the whole of its bytes.
fn value_of_lexed(
    alloc: Global,
    env: &Env,
    tokens: Rest,
    whole: bool,
) -> Result<SharedValue, MacroFault>
    ensures { Gives unshared told result (value_by (value_in env.now) (toks tokens.now, whole)) }
{
    if is_deep(tokens) {
        return refused(MacroKind::NestDeep);
    }
    if !whole {
        return refused(MacroKind::BadExpression);
    }
    value_of_tokens(alloc, env, tokens)
}

// The value of the expression that all of these tokens are.
fn value_of_tokens(alloc: Global, env: &Env, tokens: Rest) -> Result<SharedValue, MacroFault>
    ensures { Gives unshared told result (value_or_bad (value_in env.now) (expression_of (toks tokens.now))) }
{
    match level_of(alloc, 100, 6, tokens) {
        Ok((expr, rest)) => {
            let value = if rest.is_empty() {
                value_of(alloc, env, &expr)
            } else {
                refused(MacroKind::BadExpression)
            };
            drop(expr);
            value
        }
        Err(Unread::Wrong) => refused(MacroKind::BadExpression),
        Err(Unread::NoMemory) => Err(MacroFault::NoMemory),
    }
}

// The value of an expression that was read.
#[cycle(evaluation)]
fn value_of(alloc: Global, env: &Env, expr: &Expr) -> Result<SharedValue, MacroFault>
    ensures { Gives unshared told result (value_of (value_in env.now) (expr_of expr.now)) }
{
    match expr {
        Expr::Number(digits) => digits_value(digits),
        Expr::Quote(bytes) => Ok(text(alloc, bytes)?),
        Expr::Constant(truth) => Ok(SharedValue::Truth(*truth)),
        Expr::Named(name) => name_value(env, name),
        Expr::Array(elements) => array_of(alloc, env, elements.as_slice()),
        Expr::Negative(operand) => negative_of(value_of(alloc, env, operand)?),
        Expr::Not(operand) => not_of(value_of(alloc, env, operand)?),
        Expr::Chain(first, steps) => {
            let first = value_of(alloc, env, first)?;
            after_steps(alloc, env, steps.as_slice(), first)
        }
    }
}

// The array of these elements.
#[cycle(evaluation)]
fn array_of(alloc: Global, env: &Env, elements: &[Expr]) -> Result<SharedValue, MacroFault>
    ensures { Gives unshared told result (array_value (values_of (value_in env.now) (after s.Empty elements.now))) }
{
    let mut found = Gathered::new(alloc);
    for element in elements {
        found = found.with(value_of(alloc, env, element)?)?;
    }
    found.finish(alloc)
}

// What steps make of a value, one after the other.
#[cycle(evaluation)]
fn after_steps(
    alloc: Global,
    env: &Env,
    steps: &[Step],
    first: SharedValue,
) -> Result<SharedValue, MacroFault>
    ensures { Gives unshared told result (steps_value (value_in env.now) (Ok (unshared first)) steps.now) }
{
    let mut found = first;
    for step in steps {
        found = after_step(alloc, env, step, found)?;
    }
    Ok(found)
}

#[cycle(evaluation)]
fn after_step(
    alloc: Global,
    env: &Env,
    step: &Step,
    left: SharedValue,
) -> Result<SharedValue, MacroFault>
    ensures { Gives unshared told result (step_value (value_in env.now) (Ok (unshared left)) step.now) }
{
    let value = match step {
        Step::Apply(operator, right) => apply(alloc, env, right, *operator, &left),
        Step::Index(place) => element_in(alloc, env, place, &left),
    };
    drop(left);
    value
}

// The element of an array at a place.
#[cycle(evaluation)]
fn element_in(
    alloc: Global,
    env: &Env,
    place: &Expr,
    array: &SharedValue,
) -> Result<SharedValue, MacroFault>
    ensures { Gives unshared told result (index_value (Ok (unshared array.now)) (value_of (value_in env.now) (expr_of place.now))) }
{
    let place = value_of(alloc, env, place)?;
    let element = element_of(array, &place);
    drop(place);
    element
}

// The operator with its right side.
#[cycle(evaluation)]
fn apply(
    alloc: Global,
    env: &Env,
    right: &Expr,
    operator: Operator,
    left: &SharedValue,
) -> Result<SharedValue, MacroFault>
    ensures { Gives unshared told result (apply_value operator (Ok (unshared left.now)) (value_of (value_in env.now) (expr_of right.now))) }
{
    match operator {
        Operator::Or => or_of(alloc, env, right, left),
        Operator::And => and_of(alloc, env, right, left),
        _ => {
            let right = value_of(alloc, env, right)?;
            let value = strict_value(alloc, operator, left, &right);
            drop(right);
            value
        }
    }
}

// The right side counts only where the left is false.
#[cycle(evaluation)]
fn or_of(
    alloc: Global,
    env: &Env,
    right: &Expr,
    left: &SharedValue,
) -> Result<SharedValue, MacroFault>
    ensures { Gives unshared told result (or_value (Ok (unshared left.now)) (value_of (value_in env.now) (expr_of right.now))) }
{
    if truth_of(left)? {
        return Ok(SharedValue::Truth(true));
    }
    truth_value(value_of(alloc, env, right)?)
}

// The right side counts only where the left is true.
#[cycle(evaluation)]
fn and_of(
    alloc: Global,
    env: &Env,
    right: &Expr,
    left: &SharedValue,
) -> Result<SharedValue, MacroFault>
    ensures { Gives unshared told result (and_value (Ok (unshared left.now)) (value_of (value_in env.now) (expr_of right.now))) }
{
    if !truth_of(left)? {
        return Ok(SharedValue::Truth(false));
    }
    truth_value(value_of(alloc, env, right)?)
}
