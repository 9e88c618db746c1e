// The operators between two operands.

/// An operator that stands between its two operands.
#[derive(Clone, Copy, Debug, PartialEq, Eq)]
pub enum Operator {
    Or,
    And,
    Equal,
    Different,
    Less,
    Greater,
    AtMost,
    AtLeast,
    In,
    Range,
    Add,
    Subtract,
    Multiply,
}
