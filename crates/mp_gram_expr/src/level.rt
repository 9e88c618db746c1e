// The operators of sums and of products.
ghost use Rattle.std.specs.Prelude.{◌≡◌, ◌<◌, ℕ, length, IfOk};
ghost use Rattle.mp_format.specs.Format.{read, meets, first};
ghost use Rattle.mp_grammar.specs.Levels.{atom_level};
ghost use Rattle.mp_gram_expr.specs.Shown.{toks};
ghost use Rattle.mp_gram_expr.specs.Gives.{Gives};
ghost use Rattle.mp_gram_expr.specs.Levels.{operator_at, further_at};
ghost use Rattle.mp_gram_expr.specs.Parts.{either};

use crate::rest::{Rest, Wrong, expect, meets};
use mp_syntax::Operator;
use mp_tokens::Terminal;

/// What joins operands: "+" and "-" in a sum, "*" and "/" in a product.
#[derive(Clone, Copy, Debug)]
pub enum Level {
    Sum,
    Product,
}

// One of these two operators, and its place.
#[tactic(auto, unfolding(mp_format::specs::Format::read, mp_format::specs::Format::first))]
fn either_of<'a, 't>(
    one: (Terminal, Operator),
    other: (Terminal, Operator),
    tokens: Rest<'a, 't>,
) -> Result<((Operator, u32), Rest<'a, 't>), Wrong<'a, 't>>
    ensures value { Gives (λ x. (x.0, toks x.1.now)) result (read (either one other) (toks tokens.now)) }
    ensures fewer { IfOk result (λ x. length x.1.now < length tokens.now) }
{
    let (terminal, operator) = if meets(tokens, one.0) { one } else { other };
    let (token, rest) = expect(tokens, terminal)?;
    Ok(((operator, token.at), rest))
}

// The operator of this level, and its place.
pub(crate) fn operator_of<'a, 't>(
    level: Level,
    tokens: Rest<'a, 't>,
) -> Result<((Operator, u32), Rest<'a, 't>), Wrong<'a, 't>>
    ensures value { Gives (λ x. (x.0, toks x.1.now)) result (read (operator_at level) (toks tokens.now)) }
    ensures fewer { IfOk result (λ x. length x.1.now < length tokens.now) }
{
    match level {
        Level::Sum => either_of(
            (Terminal::Plus, Operator::Plus),
            (Terminal::Minus, Operator::Minus),
            tokens,
        ),
        Level::Product => either_of(
            (Terminal::Star, Operator::Times),
            (Terminal::Slash, Operator::Over),
            tokens,
        ),
    }
}

// Whether an operator of this level stands here.
#[tactic(auto, unfolding(mp_expressions::specs::Expressions::plus, mp_expressions::specs::Expressions::times, mp_format::specs::Format::first, mp_format::specs::Format::empty))]
pub(crate) fn operator_begins(level: Level, tokens: Rest) -> bool
    ensures { (room : ℕ) → result ≡ meets (first (further_at level (atom_level room))) (toks tokens.now) }
{
    match level {
        Level::Sum => meets(tokens, Terminal::Plus) || meets(tokens, Terminal::Minus),
        Level::Product => meets(tokens, Terminal::Star) || meets(tokens, Terminal::Slash),
    }
}
