// Plain lines.
ghost use Rattle.std.specs.Prelude.{◌≡◌, ◌≤◌, ◌<◌, ◌+◌, length, drop, IfSome, false};
ghost use Rattle.mp_macro.specs.Plain.{Expression, begins_expression, mark_at, end_at, pieces};
ghost use Rattle.mp_macro.specs.States.{after_piece, after_pieces};
ghost use Rattle.mp_macro.specs.Says.{state_of};
ghost use Rattle.mp_base.specs.Answers.{Gives};
ghost use Rattle.mp_mvalue.specs.Told.{told};

use crate::state::State;
use crate::statement::{evaluate, refused};
use mp_base::MacroKind;
use mp_directive::{begins_comment, quoted_after};
use mp_mvalue::{MacroFault, print_value};
use std::alloc::Global;

// Whether `@{` begins here, with this byte.
fn begins_expression(b: u8, more: &[u8]) -> bool
    ensures { result ≡ begins_expression b more.now }
{
    let Some(next) = more.first() else {
        return false;
    };
    b == b'@' && *next == b'{'
}

// How many bytes stand before the first `@{`; none is there after the first `//` or `%`.
#[tactic(auto, unfolding(crate::specs::Plain::mark_at))]
fn mark_at(bytes: &[u8]) -> Option<usize>
    ensures value { result ≡ mark_at bytes.now }
    ensures within { IfSome result (λ n. n + 1 < length bytes.now) }
{
    let (_, mut rest) = bytes.split_at(0);
    let mut length: usize = 0;
    'bytes: while let Some((b, more)) = rest.split_first() {
        if *b == b'%' || begins_comment(*b, more) {
            return None;
        }
        if begins_expression(*b, more) {
            return Some(length);
        }
        rest = more;
        length += 1;
    }
    None
}

// How many bytes stand before the first `}` outside a text.
#[tactic(auto, unfolding(crate::specs::Plain::end_at))]
fn end_at(bytes: &[u8]) -> Option<usize>
    ensures value { result ≡ end_at false bytes.now }
    ensures within { IfSome result (λ n. n < length bytes.now) }
{
    let (_, mut rest) = bytes.split_at(0);
    let mut length: usize = 0;
    let mut quoted = false;
    'bytes: while let Some((b, more)) = rest.split_first() {
        if !quoted && *b == b'}' {
            return Some(length);
        }
        quoted = quoted_after(quoted, *b);
        rest = more;
        length += 1;
    }
    None
}

// The bytes after so many.
fn past(bytes: &[u8], count: usize) -> &[u8]
    requires { count ≤ length bytes.now }
    ensures { result.now ≡ drop count bytes.now }
{
    &bytes[count..]
}

// Writes the printed value of an expression.
fn write_value(alloc: Global, expr: &[u8], state: &mut State) -> Result<(), MacroFault>
    ensures { Gives (λ u. state_of state.new) told result (after_piece (Expression expr.now) (state_of state.old)) }
{
    let value = evaluate(alloc, expr, &state.env)?;
    let printed = print_value(alloc, &value)?;
    state.write(printed.as_slice())
}

// Writes a plain line piece by piece, with the value in place of each `@{expr}` before the comment.
pub(crate) fn write_line(alloc: Global, line: &[u8], state: &mut State) -> Result<(), MacroFault>
    ensures { Gives (λ u. state_of state.new) told result (after_pieces (pieces line.now) (state_of state.old)) }
{
    let (_, mut rest) = line.split_at(0);
    'pieces: while let Some(before) = mark_at(rest) {
        state.write(&rest[..before])?;
        let after = past(rest, before + 2);
        let Some(length) = end_at(after) else {
            return refused(MacroKind::BadExpression);
        };
        write_value(alloc, &after[..length], state)?;
        rest = past(after, length + 1);
    }
    state.write_rest(rest)
}
