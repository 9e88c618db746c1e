// From the bytes of an expression to its tokens.
ghost use Rattle.std.specs.Prelude.{◌≡◌, ◌+◌, ◌≤◌, ◌<◌, length, IfOk, IfSome};
ghost use Rattle.mp_mexpr.specs.Tokens.{tok_of, toks, pair_of, operator_of, mark_of, word_of, pair_at, sign_at, begun_of, quoted_at, token_at, tokens, opens, closes, is_deep};

use crate::operator::Operator;
use crate::token::{Mark, Token};
use mp_base::NoMemory;
use mp_bytes::{Run, is_blank, is_first, run_length};
use sqlite_items::Items;
use std::alloc::Global;

fn pair_of(b: u8, next: u8) -> Option<Operator>
    ensures { result ≡ pair_of b next }
{
    match (b, next) {
        (b'|', b'|') => Some(Operator::Or),
        (b'&', b'&') => Some(Operator::And),
        (b'=', b'=') => Some(Operator::Equal),
        (b'!', b'=') => Some(Operator::Different),
        (b'<', b'=') => Some(Operator::AtMost),
        (b'>', b'=') => Some(Operator::AtLeast),
        _ => None,
    }
}

fn operator_of(b: u8) -> Option<Operator>
    ensures { result ≡ operator_of b }
{
    match b {
        b'<' => Some(Operator::Less),
        b'>' => Some(Operator::Greater),
        b':' => Some(Operator::Range),
        b'+' => Some(Operator::Add),
        b'-' => Some(Operator::Subtract),
        b'*' => Some(Operator::Multiply),
        _ => None,
    }
}

fn mark_of(b: u8) -> Option<Mark>
    ensures { result ≡ mark_of b }
{
    match b {
        b'!' => Some(Mark::Not),
        b'[' => Some(Mark::OpenBracket),
        b']' => Some(Mark::CloseBracket),
        b',' => Some(Mark::Comma),
        b'(' => Some(Mark::Open),
        b')' => Some(Mark::Close),
        _ => None,
    }
}

// A word: a name but for three.
fn word_of<'t>(word: &'t [u8]) -> Token<'t>
    ensures { tok_of result ≡ word_of word.now }
{
    if word == b"in".as_slice() {
        return Token::Binary(Operator::In);
    }
    if word == b"true".as_slice() {
        return Token::Single(Mark::True);
    }
    if word == b"false".as_slice() {
        return Token::Single(Mark::False);
    }
    Token::Name(word)
}

fn pair_at(b: u8, more: &[u8]) -> Option<Operator>
    ensures value { result ≡ pair_at b more.now }
    ensures within { IfSome result (λ o. 0 < length more.now) }
{
    let next = more.first()?;
    pair_of(b, *next)
}

// The longest operator or mark that begins here, and how many bytes after its first it has.
fn sign_at<'t>(b: u8, more: &'t [u8]) -> Option<(Token<'t>, usize)>
    ensures value { begun_of result ≡ sign_at (pair_at b more.now) (operator_of b) (mark_of b) }
    ensures within { IfSome result (λ x. x.1 ≤ length more.now) }
{
    if let Some(operator) = pair_at(b, more) {
        return Some((Token::Binary(operator), 1));
    }
    if let Some(operator) = operator_of(b) {
        return Some((Token::Binary(operator), 0));
    }
    let mark = mark_of(b)?;
    Some((Token::Single(mark), 0))
}

// The text after a quote, up to the next on the line.
#[tactic(auto, unfolding(crate::specs::Tokens::quoted_at))]
fn quoted_at<'t>(more: &'t [u8]) -> Option<(Token<'t>, usize)>
    ensures value { begun_of result ≡ quoted_at more.now }
    ensures within { IfSome result (λ x. x.1 ≤ length more.now) }
{
    let length = run_length(Run::Inside(b'"'), more);
    if length < more.len() && more[length] == b'"' {
        return Some((Token::Quoted(&more[..length]), length + 1));
    }
    None
}

// The token that begins here, and how many bytes after its first it has.
#[tactic(auto, unfolding(crate::specs::Tokens::token_at))]
fn token_at<'t>(text: &'t [u8]) -> Option<(Token<'t>, usize)>
    ensures value { begun_of result ≡ token_at text.now }
    ensures within { IfSome result (λ x. x.1 < length text.now) }
{
    let (first, more) = text.split_first()?;
    if first.is_ascii_digit() {
        let digits = run_length(Run::Digits, more);
        return Some((Token::Digits(&text[..digits + 1]), digits));
    }
    if is_first(*first) {
        let word = run_length(Run::Word, more);
        return Some((word_of(&text[..word + 1]), word));
    }
    if *first == b'"' {
        return quoted_at(more);
    }
    sign_at(*first, more)
}

/// The tokens of an expression before the first byte that begins none, and whether there is no such byte. The longest
/// token is taken; blanks stand between (modpath's own).
pub fn lex<'t>(alloc: Global, text: &'t [u8]) -> Result<(Items<Token<'t>>, bool), NoMemory>
    ensures { IfOk result (λ r. tokens text.now ≡ (toks r.0, r.1)) }
{
    let mut found = Items::new(alloc);
    let (_, mut rest) = text.split_at(0);
    'turns: while let Some((first, more)) = rest.split_first() {
        if is_blank(*first) {
            rest = more;
            continue;
        }
        let Some((token, length)) = token_at(rest) else {
            return Ok((found, false));
        };
        found.push(token)?;
        rest = &more[length..];
    }
    Ok((found, true))
}

fn opens(token: &Token) -> usize
    ensures value { result ≡ opens (tok_of token.now) }
    ensures one { result ≤ 1 }
{
    match token {
        Token::Single(Mark::Open) | Token::Single(Mark::OpenBracket) => 1,
        _ => 0,
    }
}

fn closes(token: &Token) -> usize
    ensures value { result ≡ closes (tok_of token.now) }
    ensures one { result ≤ 1 }
{
    match token {
        Token::Single(Mark::Close) | Token::Single(Mark::CloseBracket) => 1,
        _ => 0,
    }
}

/// Whether some first tokens have over 100 more brackets that open than such that close.
#[tactic(auto, unfolding(crate::specs::Tokens::deep_after))]
pub fn is_deep(tokens: &[Token]) -> bool
    ensures { result ≡ is_deep (toks tokens.now) }
{
    let mut opened: usize = 0;
    let mut closed: usize = 0;
    for token in tokens {
        opened += opens(token);
        closed += closes(token);
        if opened > closed && opened - closed > 100 {
            return true;
        }
    }
    false
}
