// What one line does.
ghost use Rattle.std.specs.Prelude.{◌≡◌, Err, option_map};
ghost use Rattle.std.specs.Str.{is_utf8};
ghost use Rattle.mp_base.specs.Answers.{Gives};
ghost use Rattle.mp_directive.specs.Shown.{condition_of, statement_of};
ghost use Rattle.mp_mvalue.specs.Environments.{value_in};
ghost use Rattle.mp_mvalue.specs.Shared.{unshared};
ghost use Rattle.mp_mvalue.specs.Told.{told};
ghost use Rattle.mp_mexpr.specs.Meaning.{elements_of};
ghost use Rattle.mp_macro.specs.States.{value, text_of, defined_value, echoed, user_error, after_statement, after_alone, holds, elements, turn_begun, is_file_name, file_name};
ghost use Rattle.mp_directive.specs.Directives.{content_of};
ghost use Rattle.mp_directive.specs.Directives as d;
ghost use Rattle.mp_macro.specs.Says.{state_of};

use crate::plain::write_line;
use crate::state::State;
use mp_base::{Bytes, MacroKind};
use mp_directive::{Condition, Content, Statement, content_of};
use mp_mexpr::{eval, truth_of};
use mp_mvalue::{Array, Env, MacroFault, SharedValue, copy};
use std::alloc::Global;
use std::rc::Rc;

pub(crate) fn refused<T>(kind: MacroKind) -> Result<T, MacroFault>
    ensures { result ≡ Err (MacroFault.Refused kind) }
{
    Err(MacroFault::Refused { kind })
}

// The value of an expression.
#[tactic(auto, unfolding(crate::specs::States::value))]
pub(crate) fn evaluate(alloc: Global, expr: &[u8], env: &Env) -> Result<SharedValue, MacroFault>
    ensures { Gives unshared told result (value (value_in env.now) expr.now) }
{
    eval(alloc, expr, env)
}

// A text.
fn text_of(value: SharedValue) -> Result<Rc<Bytes, Global>, MacroFault>
    ensures { Gives (λ t. t.value) told result (text_of (unshared value)) }
{
    match value {
        SharedValue::Text(text) => Ok(text),
        _ => refused(MacroKind::WrongKind),
    }
}

// An array.
fn elements_of(value: SharedValue) -> Result<Rc<Array, Global>, MacroFault>
    ensures { Gives (λ a. a.value) told result (elements_of (unshared value)) }
{
    match value {
        SharedValue::List(elements) => Ok(elements),
        _ => refused(MacroKind::WrongKind),
    }
}

// The value that `@#define` gives: without an expression the number 1.
fn defined_value(alloc: Global, expr: Option<&[u8]>, env: &Env) -> Result<SharedValue, MacroFault>
    ensures { Gives unshared told result (defined_value (value_in env.now) (option_map (λ e. e.now) expr.entry)) }
{
    match expr {
        Some(expr) => evaluate(alloc, expr, env),
        None => Ok(SharedValue::Whole(1)),
    }
}

fn define(
    alloc: Global,
    name: &[u8],
    expr: Option<&[u8]>,
    state: &mut State,
) -> Result<(), MacroFault>
    ensures { Gives (λ u. state_of state.new) told result (after_statement (d.Define name.now (option_map (λ e. e.now) expr.entry)) (state_of state.old)) }
{
    let value = defined_value(alloc, expr, &state.env)?;
    state.name(name, value)?;
    Ok(())
}

fn echo(alloc: Global, expr: &[u8], env: &Env) -> Result<(), MacroFault>
    ensures { Gives (λ u. u) told result (echoed (value_in env.now) expr.now) }
{
    let _text = text_of(evaluate(alloc, expr, env)?)?;
    Ok(())
}

fn error(alloc: Global, expr: &[u8], env: &Env) -> Result<(), MacroFault>
    ensures { Gives (λ u. u) told result (user_error (value_in env.now) expr.now) }
{
    let _text = text_of(evaluate(alloc, expr, env)?)?;
    refused(MacroKind::UserError)
}

// What a line by itself does.
pub(crate) fn carry_line(alloc: Global, line: &[u8], state: &mut State) -> Result<(), MacroFault>
    ensures { Gives (λ u. state_of state.new) told result (after_alone (content_of line.now) (state_of state.old)) }
{
    match content_of(line) {
        Content::Alone(statement) => carry_out(alloc, &statement, state),
        _ => Ok(()),
    }
}

// What one line does by itself.
pub(crate) fn carry_out(
    alloc: Global,
    statement: &Statement,
    state: &mut State,
) -> Result<(), MacroFault>
    ensures { Gives (λ u. state_of state.new) told result (after_statement (statement_of statement.now) (state_of state.old)) }
{
    match statement {
        Statement::Plain(line) => write_line(alloc, line, state),
        Statement::Define { name, value } => define(alloc, name, *value, state),
        Statement::Echo(expr) => echo(alloc, expr, &state.env),
        Statement::Error(expr) => error(alloc, expr, &state.env),
    }
}

// Whether a branch is taken.
pub(crate) fn holds(alloc: Global, condition: &Condition, env: &Env) -> Result<bool, MacroFault>
    ensures { Gives (λ b. b) told result (holds (value_in env.now) (condition_of condition.now)) }
{
    match condition {
        Condition::Holds(expr) => truth_of(&evaluate(alloc, expr, env)?),
        Condition::Defined(name) => Ok(env.get(name).is_some()),
        Condition::Undefined(name) => Ok(env.get(name).is_none()),
        Condition::Otherwise => Ok(true),
    }
}

// The elements over which a loop goes.
pub(crate) fn elements(
    alloc: Global,
    expr: &[u8],
    env: &Env,
) -> Result<Rc<Array, Global>, MacroFault>
    ensures { Gives (λ a. a.value) told result (elements (value_in env.now) expr.now) }
{
    elements_of(evaluate(alloc, expr, env)?)
}

fn is_utf8(bytes: &[u8]) -> bool
    ensures { result ≡ is_utf8 bytes.now }
{
    match str::from_utf8(bytes) {
        Ok(_) => true,
        Err(_) => false,
    }
}

// A file's name has 1 to 128 bytes, which are UTF-8.
fn is_file_name(name: &[u8]) -> bool
    ensures { result ≡ is_file_name name.now }
{
    if name.is_empty() || name.len() > 128 {
        return false;
    }
    is_utf8(name)
}

// The name of an included file.
pub(crate) fn file_name(
    alloc: Global,
    expr: &[u8],
    env: &Env,
) -> Result<Rc<Bytes, Global>, MacroFault>
    ensures { Gives (λ t. t.value) told result (file_name (value_in env.now) expr.now) }
{
    let name = text_of(evaluate(alloc, expr, env)?)?;
    if is_file_name(name.as_ref().as_slice()) {
        return Ok(name);
    }
    refused(MacroKind::FileName)
}

// A turn of a loop begins.
pub(crate) fn begin_turn(
    name: &[u8],
    element: &SharedValue,
    state: &mut State,
) -> Result<(), MacroFault>
    ensures { Gives (λ u. state_of state.new) told result (turn_begun name.now (unshared element.now) (state_of state.old)) }
{
    state.count()?;
    state.name(name, copy(element)?)?;
    Ok(())
}
