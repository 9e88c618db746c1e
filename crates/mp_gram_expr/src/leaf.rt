// What stands in an expression without leading back to one.
ghost use Rattle.std.specs.Prelude.{◌≡◌, ◌<◌, ◌≤◌, length, option_map, IfOk};
ghost use Rattle.mp_syntax.specs.Syntax as s;
ghost use Rattle.mp_file.specs.Shown.{shift_of, named_of, expr_of};
ghost use Rattle.mp_format.specs.Format.{opt, via, read, meets, first};
ghost use Rattle.mp_expressions.specs.Productions.{sign_format};
ghost use Rattle.mp_expressions.specs.Expressions.{shift, fenced, shift_part, flat_atom};
ghost use Rattle.mp_gram_expr.specs.Shown.{toks};
ghost use Rattle.mp_gram_expr.specs.Gives.{Gives};

use crate::rest::{Rest, Wrong, expect, meets, wrong_at};
use mp_file::{Expression, Named, Shift};
use mp_syntax::Sign;
use mp_tokens::Terminal;
use std::alloc::Global;

// Whether a sign stands here.
#[tactic(auto, unfolding(mp_format::specs::Format::first))]
pub(crate) fn sign_begins(tokens: Rest) -> bool
    ensures { result ≡ meets (first sign_format) (toks tokens.now) }
{
    meets(tokens, Terminal::Plus) || meets(tokens, Terminal::Minus)
}

/// A sign, if there is one.
#[tactic(auto, unfolding(mp_format::specs::Format::read, mp_format::specs::Format::first))]
pub fn sign_of<'a, 't>(tokens: Rest<'a, 't>) -> Result<(Option<Sign>, Rest<'a, 't>), Wrong<'a, 't>>
    ensures value { Gives (λ x. (x.0, toks x.1.now)) result (read (opt sign_format) (toks tokens.now)) }
    ensures fewer { IfOk result (λ x. length x.1.now ≤ length tokens.now) }
{
    if meets(tokens, Terminal::Plus) {
        let (_, rest) = expect(tokens, Terminal::Plus)?;
        return Ok((Some(Sign::Plus), rest));
    }
    if meets(tokens, Terminal::Minus) {
        let (_, rest) = expect(tokens, Terminal::Minus)?;
        return Ok((Some(Sign::Minus), rest));
    }
    Ok((None, tokens))
}

#[tactic(auto, unfolding(mp_expressions::specs::Expressions::shift, mp_format::specs::Format::read))]
fn shift_of<'a, 't>(tokens: Rest<'a, 't>) -> Result<(Shift<'t>, Rest<'a, 't>), Wrong<'a, 't>>
    ensures value { Gives (λ x. (shift_of x.0, toks x.1.now)) result (read shift (toks tokens.now)) }
    ensures fewer { IfOk result (λ x. length x.1.now < length tokens.now) }
{
    let (sign, rest) = sign_of(tokens)?;
    let (whole, rest) = expect(rest, Terminal::Whole)?;
    let digits = whole.text;
    match sign {
        Some(sign) => Ok((Shift { sign, digits }, rest)),
        None => Ok((
            Shift {
                sign: Sign::Plus,
                digits,
            },
            rest,
        )),
    }
}

// A shift in parentheses.
#[tactic(auto, unfolding(mp_expressions::specs::Expressions::fenced, mp_format::specs::Format::read))]
fn fenced_of<'a, 't>(tokens: Rest<'a, 't>) -> Result<(Shift<'t>, Rest<'a, 't>), Wrong<'a, 't>>
    ensures value { Gives (λ x. (shift_of x.0, toks x.1.now)) result (read fenced (toks tokens.now)) }
    ensures fewer { IfOk result (λ x. length x.1.now < length tokens.now) }
{
    let (_, rest) = expect(tokens, Terminal::Open)?;
    let (shift, rest) = shift_of(rest)?;
    let (_, rest) = expect(rest, Terminal::Close)?;
    Ok((shift, rest))
}

// The same, if there is one.
#[tactic(auto, unfolding(mp_expressions::specs::Expressions::fenced, mp_format::specs::Format::first, mp_format::specs::Format::empty), using(crate::proofs::Turns::opt_none, crate::proofs::Turns::opt_some))]
fn shift_part_of<'a, 't>(
    tokens: Rest<'a, 't>,
) -> Result<(Option<Shift<'t>>, Rest<'a, 't>), Wrong<'a, 't>>
    ensures value { Gives (λ x. (option_map shift_of x.0, toks x.1.now)) result (read shift_part (toks tokens.now)) }
    ensures fewer { IfOk result (λ x. length x.1.now ≤ length tokens.now) }
{
    if meets(tokens, Terminal::Open) {
        let (shift, rest) = fenced_of(tokens)?;
        return Ok((Some(shift), rest));
    }
    Ok((None, tokens))
}

// The variable of this name, with the shift after it.
#[inline(never)]
#[tactic(auto, unfolding(mp_format::specs::Format::read))]
pub(crate) fn variable_of<'a, 't>(
    alloc: Global,
    name: Named<'t>,
    tokens: Rest<'a, 't>,
) -> Result<(Expression<'t>, Rest<'a, 't>), Wrong<'a, 't>>
    ensures value { Gives (λ x. (expr_of x.0, toks x.1.now)) result (read (via (λ p. s.Variable (named_of name.entry) p) shift_part) (toks tokens.now)) }
    ensures fewer { IfOk result (λ x. length x.1.now ≤ length tokens.now) }
{
    let (shift, rest) = shift_part_of(tokens)?;
    Ok((Expression::variable(alloc, name, shift)?, rest))
}

// A number or a name, where no more "(" may be open.
#[tactic(auto, unfolding(mp_expressions::specs::Expressions::flat_atom, mp_format::specs::Format::read, mp_format::specs::Format::first, mp_format::specs::Format::empty, mp_format::specs::Format::tok_at))]
pub(crate) fn flat_atom_of<'a, 't>(
    tokens: Rest<'a, 't>,
) -> Result<(Expression<'t>, Rest<'a, 't>), Wrong<'a, 't>>
    ensures value { Gives (λ x. (expr_of x.0, toks x.1.now)) result (read flat_atom (toks tokens.now)) }
    ensures fewer { IfOk result (λ x. length x.1.now < length tokens.now) }
{
    let Some((t, rest)) = tokens.split_first() else {
        return wrong_at(tokens);
    };
    let at = t.at;
    match t.terminal() {
        Terminal::Whole | Terminal::Number => {
            let literal = t.text;
            return Ok((Expression::Number { literal, at }, rest));
        }
        Terminal::Name => {
            let name = Named { name: t.text, at };
            return Ok((Expression::Variable { name }, rest));
        }
        _ => {}
    }
    wrong_at(tokens)
}
