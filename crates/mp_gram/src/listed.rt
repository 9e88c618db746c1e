// Lists between two marks, with commas, read once for all.
ghost use Rattle.std.specs.Prelude.{◌≡◌, ◌<◌, ◌≤◌, length, map, IfOk};
ghost use Rattle.mp_tokens.specs.declared.terminal.Terminal.TheVariants as t;
ghost use Rattle.mp_format.specs.Format.{Format, read};
ghost use Rattle.mp_format.specs.Notation.{of, some_of, ◌▸◌, ◌◂◌};
ghost use Rattle.mp_grammar.specs.Lists.{if_any};
ghost use Rattle.mp_gram_expr.specs.Shown.{toks};
ghost use Rattle.mp_gram_expr.specs.Gives.{Gives};

use crate::repeated::{Repeated, more_of};
use mp_gram_expr::{Rest, Wrong, expect, meets, past};
use mp_tokens::Terminal;
use sqlite_items::Items;
use std::alloc::Global;
use std::marker::PhantomData;

/// What a list holds.
pub trait Listed<'t> {
    type Item: Drop;

    ghost Value: { Type 0 };

    ghost shown: { Self.Item → Value };

    ghost format: { Format Value };

    /// One of it.
    fn one<'a>(tokens: Rest<'a, 't>) -> Result<(Self::Item, Rest<'a, 't>), Wrong<'a, 't>>
        ensures value { Gives (λ x. (shown x.0, toks x.1.now)) result (read format (toks tokens.now)) }
        ensures fewer { IfOk result (λ x. length x.1.now < length tokens.now) };
}

// One after a comma.
struct AfterComma<L> {
    held: PhantomData<L>,
}

impl<'t, L: Listed<'t>> Repeated<'t> for AfterComma<L> {
    ghost use Rattle.std.specs.Prelude.{◌≡◌, ◌<◌, false, length, IfOk};
    ghost use Rattle.mp_tokens.specs.declared.terminal.Terminal.TheVariants as t;
    ghost use Rattle.mp_format.specs.Format.{read, meets, first, empty};
    ghost use Rattle.mp_format.specs.Notation.{of, ◌▸◌};
    ghost use Rattle.mp_gram_expr.specs.Shown.{toks};
    ghost use Rattle.mp_gram_expr.specs.Gives.{Gives};

    type Item = L::Item;

    ghost Value = { L.Value };

    ghost shown = { L.shown };

    ghost format = { of t.Comma ▸ L.format };

    #[tactic(auto, unfolding(mp_format::specs::Format::first, mp_format::specs::Format::empty))]
    fn begins(tokens: Rest) -> bool
        ensures begun { result ≡ meets (first (of t.Comma ▸ L.format)) (toks tokens.now) }
        ensures full { empty (of t.Comma ▸ L.format) ≡ false }
    {
        meets(tokens, Terminal::Comma)
    }

    #[tactic(auto, unfolding(mp_format::specs::Format::read))]
    fn next<'a>(_: Global, tokens: Rest<'a, 't>) -> Result<(L::Item, Rest<'a, 't>), Wrong<'a, 't>>
        ensures value { Gives (λ x. (L.shown x.0, toks x.1.now)) result (read (of t.Comma ▸ L.format) (toks tokens.now)) }
        ensures fewer { IfOk result (λ x. length x.1.now < length tokens.now) }
    {
        let (_, rest) = expect(tokens, Terminal::Comma)?;
        L::one(rest)
    }
}

// One at least.
#[tactic(auto, unfolding(mp_format::specs::Format::read))]
fn some_of<'a, 't, L: Listed<'t>>(
    alloc: Global,
    tokens: Rest<'a, 't>,
) -> Result<(Items<L::Item>, Rest<'a, 't>), Wrong<'a, 't>>
    ensures value { Gives (λ x. (map L.shown x.0, toks x.1.now)) result (read (some_of (of t.Comma) L.format) (toks tokens.now)) }
    ensures fewer { IfOk result (λ x. length x.1.now < length tokens.now) }
{
    let (first, rest) = L::one(tokens)?;
    let mut found = Items::new(alloc);
    found.push(first)?;
    more_of::<AfterComma<L>>(alloc, found, rest)
}

// The list with its marks.
#[tactic(auto, unfolding(mp_format::specs::Format::read))]
fn fenced_of<'a, 't, L: Listed<'t>>(
    alloc: Global,
    opening: Terminal,
    closing: Terminal,
    tokens: Rest<'a, 't>,
) -> Result<(Items<L::Item>, Rest<'a, 't>), Wrong<'a, 't>>
    ensures value { Gives (λ x. (map L.shown x.0, toks x.1.now)) result
        (read (of opening ▸ some_of (of t.Comma) L.format ◂ of closing) (toks tokens.now)) }
    ensures fewer { IfOk result (λ x. length x.1.now < length tokens.now) }
{
    let (_, rest) = expect(tokens, opening)?;
    let (found, rest) = some_of::<L>(alloc, rest)?;
    let (found, _, rest) = past(found, rest, closing)?;
    Ok((found, rest))
}

/// The list between these marks, if there is one.
#[tactic(auto, unfolding(mp_format::specs::Format::first, mp_format::specs::Format::empty), using(crate::proofs::Lists::if_any_some))]
pub fn listed_of<'a, 't, L: Listed<'t>>(
    alloc: Global,
    opening: Terminal,
    closing: Terminal,
    tokens: Rest<'a, 't>,
) -> Result<(Items<L::Item>, Rest<'a, 't>), Wrong<'a, 't>>
    ensures value { Gives (λ x. (map L.shown x.0, toks x.1.now)) result
        (read (if_any (of opening ▸ some_of (of t.Comma) L.format ◂ of closing)) (toks tokens.now)) }
    ensures fewer { IfOk result (λ x. length x.1.now ≤ length tokens.now) }
{
    if meets(tokens, opening) {
        return fenced_of::<L>(alloc, opening, closing, tokens);
    }
    Ok((Items::new(alloc), tokens))
}
