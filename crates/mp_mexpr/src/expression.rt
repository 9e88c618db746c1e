// Expressions.

use crate::operator::Operator;
use sqlite_items::Items;

/// An expression as it was read. What stands between an operand and the ends of its level is a list of steps, from left
/// to right.
#[cycle(expression)]
#[derive(Drop)]
pub enum Expr<'t> {
    Number(&'t [u8]),
    Quote(&'t [u8]),
    Constant(bool),
    Named(&'t [u8]),
    Array(Items<Expr<'t>>),
    Negative(Box<Expr<'t>>),
    Not(Box<Expr<'t>>),
    Chain(Box<Expr<'t>>, Items<Step<'t>>),
}

/// An operator with its right operand, or the place of an element.
#[cycle(expression)]
#[derive(Drop)]
pub enum Step<'t> {
    Apply(Operator, Expr<'t>),
    Index(Expr<'t>),
}
