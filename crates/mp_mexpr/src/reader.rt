// From the tokens of an expression to its syntax.
ghost use Rattle.std.specs.Prelude.{◌≡◌, List, Option, IfOk, length};
ghost use Rattle.mp_mexpr.specs.Tokens.{Tok, toks};
ghost use Rattle.mp_mexpr.specs.Shown.{expr_of, after, all_stepped};
ghost use Rattle.mp_mexpr.specs.Syntax as s;
ghost use Rattle.mp_mexpr.specs.Gives.{Reads, Begins};
ghost use Rattle.mp_mexpr.specs.Grammar.{past, past_minus, operator_at, most, is_mark, level_of, repeated, applied, indexed, extended, more_elements_at, array_at, paren_at, place_at, primary_at, index_at, unary_at, level_at, inside_at};

use crate::expression::{Expr, Step};
use crate::operator::Operator;
use crate::token::{Mark, Token};
use mp_base::NoMemory;
use sqlite_items::Items;
use std::alloc::{AllocError, Global};
use thiserror::Error;

/// The tokens that are not read yet.
pub type Rest<'a, 't> = &'a [Token<'t>];

/// Why nothing was read: a token is wrong, or there was no memory.
#[derive(Clone, Copy, Debug, PartialEq, Eq, Error)]
pub enum Unread {
    #[error("a token is wrong")]
    Wrong,
    #[error("there was no memory")]
    NoMemory,
}

impl From<NoMemory> for Unread {
    ghost use Rattle.std.specs.Prelude.{◌≡◌};
    ghost use Rattle.mp_mexpr.specs.declared.reader.Unread.TheVariants.{NoMemory};

    ghost from_gives = { λ _ e. e ≡ NoMemory };

    fn from(_: NoMemory) -> Self {
        Unread::NoMemory
    }
}

impl From<AllocError> for Unread {
    ghost use Rattle.std.specs.Prelude.{◌≡◌};
    ghost use Rattle.mp_mexpr.specs.declared.reader.Unread.TheVariants.{NoMemory};

    ghost from_gives = { λ _ e. e ≡ NoMemory };

    fn from(_: AllocError) -> Self {
        Unread::NoMemory
    }
}

fn is_mark(mark: Mark, other: Mark) -> bool
    ensures { result ≡ is_mark mark other }
{
    mark == other
}

// The tokens after this mark.
fn past<'a, 't>(mark: Mark, tokens: Rest<'a, 't>) -> Option<Rest<'a, 't>>
    ensures { Begins (λ r. toks r.now) result (past mark (toks tokens.now)) }
{
    let (token, rest) = tokens.split_first()?;
    match token {
        Token::Single(other) => if is_mark(mark, *other) {
            Some(rest)
        } else {
            None
        },
        _ => None,
    }
}

fn past_minus<'a, 't>(tokens: Rest<'a, 't>) -> Option<Rest<'a, 't>>
    ensures { Begins (λ r. toks r.now) result (past_minus (toks tokens.now)) }
{
    let (token, rest) = tokens.split_first()?;
    match token {
        Token::Binary(Operator::Subtract) => Some(rest),
        _ => None,
    }
}

fn looseness(operator: Operator) -> u8
    ensures { result ≡ level_of operator }
{
    match operator {
        Operator::Multiply => 0,
        Operator::Add | Operator::Subtract => 1,
        Operator::Range => 2,
        Operator::And => 4,
        Operator::Or => 5,
        _ => 3,
    }
}

// An operator of this level, and the tokens after it.
fn operator_at<'a, 't>(level: u8, tokens: Rest<'a, 't>) -> Option<(Operator, Rest<'a, 't>)>
    ensures { Begins (λ r. (r.0, toks r.1.now)) result (operator_at level (toks tokens.now)) }
{
    let (token, rest) = tokens.split_first()?;
    match token {
        Token::Binary(operator) => if looseness(*operator) == level {
            Some((*operator, rest))
        } else {
            None
        },
        _ => None,
    }
}

// How many operators of a level follow one another at most.
fn most(level: u8, tokens: Rest) -> usize
    ensures { result ≡ most level (toks tokens.now) }
{
    if level == 2 || level == 3 {
        1
    } else {
        tokens.len()
    }
}

// The expression in a box.
fn boxed<'t>(alloc: Global, e: Expr<'t>) -> Result<Box<Expr<'t>>, NoMemory>
    ensures { IfOk result (λ b. expr_of b.value ≡ expr_of e.entry) }
{
    Ok(Box::new(alloc, e)?)
}

// An operand with its steps.
#[tactic(auto, using(crate::proofs::Views::chains))]
fn chained<'t>(alloc: Global, first: Expr<'t>, steps: Items<Step<'t>>) -> Result<Expr<'t>, NoMemory>
    ensures { IfOk result (λ e. expr_of e ≡ all_stepped (expr_of first.entry) steps.entry) }
{
    if steps.is_empty() {
        return Ok(first);
    }
    Ok(Expr::Chain(boxed(alloc, first)?, steps))
}

// An operand with the steps after it, where those were read.
fn with_steps<'a, 't>(
    alloc: Global,
    first: Expr<'t>,
    steps: Items<Step<'t>>,
    rest: Result<Rest<'a, 't>, Unread>,
) -> Result<(Expr<'t>, Rest<'a, 't>), Unread>
    ensures { (read : Option (s.Expr × List Tok)) → Reads (λ r. (all_stepped (expr_of first.entry) steps.entry, toks r.now)) rest.entry read → Reads (λ x. (expr_of x.0, toks x.1.now)) result read }
{
    let rest = rest?;
    Ok((chained(alloc, first, steps)?, rest))
}

// What stands in a bracket, where so many more may be open.
#[cycle(reader)]
#[tactic(auto, using(crate::proofs::Reading::rooms))]
fn inside_of<'a, 't>(
    alloc: Global,
    room: u16,
    tokens: Rest<'a, 't>,
) -> Result<(Expr<'t>, Rest<'a, 't>), Unread>
    ensures { Reads (λ x. (expr_of x.0, toks x.1.now)) result (inside_at room (toks tokens.now)) }
{
    if room == 0 {
        return Err(Unread::Wrong);
    }
    level_of(alloc, room - 1, 6, tokens)
}

// "," expr, as long as there are.
#[cycle(reader)]
fn more_elements<'a, 't>(
    alloc: Global,
    room: u16,
    first: Items<Expr<'t>>,
    tokens: Rest<'a, 't>,
) -> Result<(Items<Expr<'t>>, Rest<'a, 't>), Unread>
    ensures { Reads (λ x. (after s.Empty x.0, toks x.1.now)) result (repeated (length (toks tokens.now)) (past Mark.Comma) (extended (inside_at room)) (after s.Empty first.entry) (toks tokens.now)) }
{
    let mut found = first;
    let (_, mut rest) = tokens.split_at(0);
    let mut left = tokens.len();
    'turns: while left > 0 {
        let Some(after) = past(Mark::Comma, rest) else {
            return Ok((found, rest));
        };
        let (last, next) = inside_of(alloc, room, after)?;
        found.push(last)?;
        rest = next;
        left -= 1;
    }
    Ok((found, rest))
}

// "," expr, as long as there are, and "]".
#[cycle(reader)]
#[tactic(auto, using(crate::proofs::Views::arrays), unfolding(crate::specs::Grammar::more_elements_at))]
fn elements_of<'a, 't>(
    alloc: Global,
    room: u16,
    first: Items<Expr<'t>>,
    tokens: Rest<'a, 't>,
) -> Result<(Expr<'t>, Rest<'a, 't>), Unread>
    ensures { Reads (λ x. (expr_of x.0, toks x.1.now)) result (more_elements_at (inside_at room) (after s.Empty first.entry) (toks tokens.now)) }
{
    let (all, rest) = more_elements(alloc, room, first, tokens)?;
    let Some(rest) = past(Mark::CloseBracket, rest) else {
        return Err(Unread::Wrong);
    };
    Ok((Expr::Array(all), rest))
}

// What stands after "[", up to "]".
#[cycle(reader)]
#[tactic(auto, using(crate::proofs::Views::arrays), unfolding(crate::specs::Grammar::array_at))]
fn array_of<'a, 't>(
    alloc: Global,
    room: u16,
    tokens: Rest<'a, 't>,
) -> Result<(Expr<'t>, Rest<'a, 't>), Unread>
    ensures { Reads (λ x. (expr_of x.0, toks x.1.now)) result (array_at (inside_at room) (toks tokens.now)) }
{
    let mut elements = Items::new(alloc);
    if let Some(rest) = past(Mark::CloseBracket, tokens) {
        return Ok((Expr::Array(elements), rest));
    }
    let (first, rest) = inside_of(alloc, room, tokens)?;
    elements.push(first)?;
    elements_of(alloc, room, elements, rest)
}

// What stands after "(", up to ")".
#[cycle(reader)]
#[tactic(auto, unfolding(crate::specs::Grammar::paren_at))]
fn paren_of<'a, 't>(
    alloc: Global,
    room: u16,
    tokens: Rest<'a, 't>,
) -> Result<(Expr<'t>, Rest<'a, 't>), Unread>
    ensures { Reads (λ x. (expr_of x.0, toks x.1.now)) result (paren_at (inside_at room) (toks tokens.now)) }
{
    let (inner, rest) = inside_of(alloc, room, tokens)?;
    let Some(rest) = past(Mark::Close, rest) else {
        return Err(Unread::Wrong);
    };
    Ok((inner, rest))
}

// Digits, a text, a truth value, a name, an array or a parenthesis.
#[cycle(reader)]
#[tactic(auto, unfolding(crate::specs::Grammar::primary_at))]
fn primary_of<'a, 't>(
    alloc: Global,
    room: u16,
    tokens: Rest<'a, 't>,
) -> Result<(Expr<'t>, Rest<'a, 't>), Unread>
    ensures { Reads (λ x. (expr_of x.0, toks x.1.now)) result (primary_at (inside_at room) (toks tokens.now)) }
{
    let Some((token, rest)) = tokens.split_first() else {
        return Err(Unread::Wrong);
    };
    match token {
        Token::Digits(digits) => Ok((Expr::Number(*digits), rest)),
        Token::Quoted(text) => Ok((Expr::Quote(*text), rest)),
        Token::Name(name) => Ok((Expr::Named(*name), rest)),
        Token::Single(Mark::True) => Ok((Expr::Constant(true), rest)),
        Token::Single(Mark::False) => Ok((Expr::Constant(false), rest)),
        Token::Single(Mark::OpenBracket) => array_of(alloc, room, rest),
        Token::Single(Mark::Open) => paren_of(alloc, room, rest),
        _ => Err(Unread::Wrong),
    }
}

// An operand, and the places of elements after it.
#[cycle(reader)]
#[tactic(auto, unfolding(crate::specs::Grammar::index_at))]
fn index_of<'a, 't>(
    alloc: Global,
    room: u16,
    tokens: Rest<'a, 't>,
) -> Result<(Expr<'t>, Rest<'a, 't>), Unread>
    ensures { Reads (λ x. (expr_of x.0, toks x.1.now)) result (index_at (inside_at room) (toks tokens.now)) }
{
    let (first, rest) = primary_of(alloc, room, tokens)?;
    places_of(alloc, room, first, rest)
}

// An operand with the places of elements after it.
#[cycle(reader)]
fn places_of<'a, 't>(
    alloc: Global,
    room: u16,
    first: Expr<'t>,
    tokens: Rest<'a, 't>,
) -> Result<(Expr<'t>, Rest<'a, 't>), Unread>
    ensures { Reads (λ x. (expr_of x.0, toks x.1.now)) result (repeated (length (toks tokens.now)) (past Mark.OpenBracket) (indexed (inside_at room)) (expr_of first.entry) (toks tokens.now)) }
{
    let mut steps = Items::new(alloc);
    let rest = add_places(alloc, room, tokens, &mut steps);
    with_steps(alloc, first, steps, rest)
}

// "[" expr "]", as long as there are.
#[cycle(reader)]
fn add_places<'a, 't>(
    alloc: Global,
    room: u16,
    tokens: Rest<'a, 't>,
    steps: &mut Items<Step<'t>>,
) -> Result<Rest<'a, 't>, Unread>
    ensures { (first : s.Expr) → Reads (λ r. (all_stepped first steps.new, toks r.now)) result (repeated (length (toks tokens.now)) (past Mark.OpenBracket) (indexed (inside_at room)) (all_stepped first steps.old) (toks tokens.now)) }
{
    let (_, mut rest) = tokens.split_at(0);
    let mut left = tokens.len();
    'turns: while left > 0 {
        let Some(after) = past(Mark::OpenBracket, rest) else {
            return Ok(rest);
        };
        let (place, next) = place_of(alloc, room, after)?;
        steps.push(Step::Index(place))?;
        rest = next;
        left -= 1;
    }
    Ok(rest)
}

// What stands after "[", up to "]", where the place of an element is meant.
#[cycle(reader)]
fn place_of<'a, 't>(
    alloc: Global,
    room: u16,
    tokens: Rest<'a, 't>,
) -> Result<(Expr<'t>, Rest<'a, 't>), Unread>
    ensures { Reads (λ x. (expr_of x.0, toks x.1.now)) result (place_at (inside_at room) (toks tokens.now)) }
{
    let (place, rest) = inside_of(alloc, room, tokens)?;
    let Some(rest) = past(Mark::CloseBracket, rest) else {
        return Err(Unread::Wrong);
    };
    Ok((place, rest))
}

// An operand with its sign.
#[cycle(reader)]
#[tactic(auto, unfolding(crate::specs::Grammar::unary_at))]
fn unary_of<'a, 't>(
    alloc: Global,
    room: u16,
    tokens: Rest<'a, 't>,
) -> Result<(Expr<'t>, Rest<'a, 't>), Unread>
    ensures { Reads (λ x. (expr_of x.0, toks x.1.now)) result (unary_at (inside_at room) (toks tokens.now)) }
{
    if let Some(rest) = past_minus(tokens) {
        let (operand, rest) = index_of(alloc, room, rest)?;
        return Ok((Expr::Negative(boxed(alloc, operand)?), rest));
    }
    if let Some(rest) = past(Mark::Not, tokens) {
        let (operand, rest) = index_of(alloc, room, rest)?;
        return Ok((Expr::Not(boxed(alloc, operand)?), rest));
    }
    index_of(alloc, room, tokens)
}

// An operand with the operators of a level after it.
#[cycle(reader)]
fn chain_of<'a, 't>(
    alloc: Global,
    room: u16,
    level: u8,
    first: Expr<'t>,
    tokens: Rest<'a, 't>,
) -> Result<(Expr<'t>, Rest<'a, 't>), Unread>
    ensures { Reads (λ x. (expr_of x.0, toks x.1.now)) result (repeated (most level (toks tokens.now)) (operator_at level) (applied (level_at (inside_at room) level)) (expr_of first.entry) (toks tokens.now)) }
{
    let mut steps = Items::new(alloc);
    let rest = add_operators(alloc, room, level, tokens, &mut steps);
    with_steps(alloc, first, steps, rest)
}

// Operators of a level with their right operands, as long as there are.
#[cycle(reader)]
fn add_operators<'a, 't>(
    alloc: Global,
    room: u16,
    level: u8,
    tokens: Rest<'a, 't>,
    steps: &mut Items<Step<'t>>,
) -> Result<Rest<'a, 't>, Unread>
    ensures { (first : s.Expr) → Reads (λ r. (all_stepped first steps.new, toks r.now)) result (repeated (most level (toks tokens.now)) (operator_at level) (applied (level_at (inside_at room) level)) (all_stepped first steps.old) (toks tokens.now)) }
{
    let (_, mut rest) = tokens.split_at(0);
    let mut left = most(level, tokens);
    'turns: while left > 0 {
        let Some((operator, after)) = operator_at(level, rest) else {
            return Ok(rest);
        };
        let (right, next) = level_of(alloc, room, level, after)?;
        steps.push(Step::Apply(operator, right))?;
        rest = next;
        left -= 1;
    }
    Ok(rest)
}

// Below all levels an operand with its sign; else operands of the tighter level with operators between.
#[cycle(reader)]
#[tactic(auto, using(crate::proofs::Reading::levels))]
pub(crate) fn level_of<'a, 't>(
    alloc: Global,
    room: u16,
    level: u8,
    tokens: Rest<'a, 't>,
) -> Result<(Expr<'t>, Rest<'a, 't>), Unread>
    ensures { Reads (λ x. (expr_of x.0, toks x.1.now)) result (level_at (inside_at room) level (toks tokens.now)) }
{
    if level == 0 {
        return unary_of(alloc, room, tokens);
    }
    let (first, rest) = level_of(alloc, room, level - 1, tokens)?;
    chain_of(alloc, room, level - 1, first, rest)
}
