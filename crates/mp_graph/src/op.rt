// What a node does with its kids.
use mp_expr::VarId;

/// A node without kids: the number m / 10^s, a parameter, a variable of `shift` periods later, or the steady state of
/// an endogenous variable. Names go by their numbers from 1 (Dynare manual, "The model file").
#[derive(Clone, Copy, PartialEq, Eq, Hash)]
pub enum LeafOp {
    Num { m: u128, s: u8 },
    Param(u32),
    Var { v: VarId, shift: i16 },
    Anchor(u32),
}

/// An operator with two kids.
#[derive(Clone, Copy, PartialEq, Eq, Hash)]
pub enum BinaryOp {
    Add,
    Sub,
    Mul,
    Div,
    Min,
    Max,
}

/// A leaf, or an operator: a sign, a binary one, a power, or the choice among four (modpath's own).
#[derive(Clone, Copy, PartialEq, Eq, Hash)]
pub enum NodeOp {
    Leaf(LeafOp),
    Neg,
    Binary(BinaryOp),
    Pow(i8),
    Pick,
}
