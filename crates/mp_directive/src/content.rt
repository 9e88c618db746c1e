// What a line is.
ghost use Rattle.std.specs.Prelude.{◌≡◌};
ghost use Rattle.mp_directive.specs.Directives.{If, Defined, Undefined, alone, named, define_of, for_of, content_by, directive_of, content_of};
ghost use Rattle.mp_directive.specs.Shown.{shown};

use crate::keyword::{Keyword, keyword_of};
use crate::scan::{code, is_name, past_mark, split_word, trimmed};

/// When the lines of a branch are taken: an expression holds, a name has a value, a name has none, or no earlier branch
/// is taken.
#[derive(Clone, Copy, Debug)]
pub enum Condition<'t> {
    Holds(&'t [u8]),
    Defined(&'t [u8]),
    Undefined(&'t [u8]),
    Otherwise,
}

/// What one line does by itself: its text is written, a name gets a value (the number 1 where none is written), a text is
/// evaluated, or the user's fault.
#[derive(Clone, Copy, Debug)]
pub enum Statement<'t> {
    Plain(&'t [u8]),
    Define {
        name: &'t [u8],
        value: Option<&'t [u8]>,
    },
    Echo(&'t [u8]),
    Error(&'t [u8]),
}

/// What a line is.
#[derive(Clone, Copy, Debug)]
pub enum Content<'t> {
    Alone(Statement<'t>),
    Include(&'t [u8]),
    If(Condition<'t>),
    Further(Condition<'t>),
    EndIf,
    For { name: &'t [u8], array: &'t [u8] },
    EndFor,
    IllFormed,
}

/// What a line is: a directive where its first bytes that are no blanks are `@#`, else plain (Dynare manual, "Macro
/// processing language").
pub fn content_of<'t>(line: &'t [u8]) -> Content<'t>
    ensures { shown result ≡ content_of line.now }
{
    match past_mark(trimmed(line)) {
        Some(rest) => directive_of(rest),
        None => Content::Alone(Statement::Plain(line)),
    }
}

// What stands after `@#`.
fn directive_of<'t>(bytes: &'t [u8]) -> Content<'t>
    ensures { shown result ≡ directive_of bytes.now }
{
    let (word, rest) = split_word(trimmed(code(bytes)));
    match keyword_of(word) {
        Some(keyword) => content_by(keyword, rest),
        None => Content::IllFormed,
    }
}

// By the word of the directive.
fn content_by<'t>(keyword: Keyword, rest: &'t [u8]) -> Content<'t>
    ensures { shown result ≡ content_by (Some keyword) rest.now }
{
    match keyword {
        Keyword::Define => define_of(rest),
        Keyword::If => Content::If(Condition::Holds(rest)),
        Keyword::ElseIf => Content::Further(Condition::Holds(rest)),
        Keyword::Else => alone(Content::Further(Condition::Otherwise), rest),
        Keyword::EndIf => alone(Content::EndIf, rest),
        Keyword::IfDef => if_defined(rest),
        Keyword::IfNDef => if_undefined(rest),
        Keyword::For => for_of(rest),
        Keyword::EndFor => alone(Content::EndFor, rest),
        Keyword::Include => Content::Include(rest),
        Keyword::Echo => Content::Alone(Statement::Echo(rest)),
        Keyword::Error => Content::Alone(Statement::Error(rest)),
    }
}

// Nothing may follow.
fn alone<'t>(content: Content<'t>, rest: &[u8]) -> Content<'t>
    ensures { shown result ≡ alone (shown content.entry) rest.now }
{
    if rest.is_empty() {
        content
    } else {
        Content::IllFormed
    }
}

// A name, and nothing or `=` and an expression.
fn define_of<'t>(rest: &'t [u8]) -> Content<'t>
    ensures { shown result ≡ named define_of rest.now }
{
    let (name, rest) = split_word(rest);
    if !is_name(name) {
        return Content::IllFormed;
    }
    let Some((first, value)) = rest.split_first() else {
        return Content::Alone(Statement::Define { name, value: None });
    };
    if *first != b'=' {
        return Content::IllFormed;
    }
    Content::Alone(Statement::Define {
        name,
        value: Some(value),
    })
}

fn if_defined<'t>(rest: &'t [u8]) -> Content<'t>
    ensures { shown result ≡ named (λ name. alone (If (Defined name))) rest.now }
{
    let (name, rest) = split_word(rest);
    if is_name(name) {
        return alone(Content::If(Condition::Defined(name)), rest);
    }
    Content::IllFormed
}

fn if_undefined<'t>(rest: &'t [u8]) -> Content<'t>
    ensures { shown result ≡ named (λ name. alone (If (Undefined name))) rest.now }
{
    let (name, rest) = split_word(rest);
    if is_name(name) {
        return alone(Content::If(Condition::Undefined(name)), rest);
    }
    Content::IllFormed
}

// A name, `in` and an expression.
fn for_of<'t>(rest: &'t [u8]) -> Content<'t>
    ensures { shown result ≡ named for_of rest.now }
{
    let (name, rest) = split_word(rest);
    if !is_name(name) {
        return Content::IllFormed;
    }
    let (word, array) = split_word(rest);
    if word == b"in".as_slice() {
        return Content::For { name, array };
    }
    Content::IllFormed
}
