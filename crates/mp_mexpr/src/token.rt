// The tokens of a macro expression.

use crate::operator::Operator;

/// A sign that is no operator between two operands, or a word that is no name.
#[derive(Clone, Copy, Debug, PartialEq, Eq)]
pub enum Mark {
    Not,
    OpenBracket,
    CloseBracket,
    Comma,
    Open,
    Close,
    True,
    False,
}

/// A token: digits, what stands in quotes, a name, an operator or a mark.
#[derive(Clone, Copy, Debug)]
pub enum Token<'t> {
    Digits(&'t [u8]),
    Quoted(&'t [u8]),
    Name(&'t [u8]),
    Binary(Operator),
    Single(Mark),
}
