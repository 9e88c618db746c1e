// What a bound on the operations of derivatives needs of an expression, by that of its operands.
ghost use Rattle.std.specs.Prelude.{◌≡◌, ◌+◌, ◌*◌, ℕ, ℤ};
ghost use Rattle.mp_expr.specs.Size.{count_of};
ghost use Rattle.mp_graph.specs.Op.{leaf_of, binary_of};
ghost use Rattle.mp_semantics.specs.Term.{Term, leaf, negative, binary, power_of, pick};
ghost use Rattle.mp_derivatives.specs.Bound.{variables_of, binary_bound};
ghost use Rattle.mp_derive.specs.Extent.{IsExtent, capped};

use mp_graph::{BinaryOp, LeafOp};

// Where these numbers stop: far past the operations that may be built.
const CAP: u64 = 1000000000;

/// How many leaves of an expression are variables, how many operations it has, and how many its derivatives by all its
/// places have at most, each up to 10^9.
#[derive(Clone, Copy)]
pub struct Extent {
    pub variables: u64,
    pub operations: u64,
    pub bound: u64,
}

fn sum(a: u64, b: u64) -> u64
    ensures { (m n : ℕ) → a ≡ capped m → b ≡ capped n → result ≡ capped (m + n) }
{
    a.saturating_add(b).min(CAP)
}

fn product(a: u64, b: u64) -> u64
    ensures { (m n : ℕ) → a ≡ capped m → b ≡ capped n → result ≡ capped (m * n) }
{
    a.saturating_mul(b).min(CAP)
}

// What an operator adds at most to the derivatives of its operands.
fn binary_bound(op: BinaryOp, a: Extent, b: Extent) -> u64
    ensures { (t u : Term) → IsExtent t a → IsExtent u b → result ≡ capped (binary_bound (binary_of op) (variables_of t) (variables_of u) (count_of t) (count_of u)) }
{
    match op {
        BinaryOp::Add => a.variables.min(b.variables),
        BinaryOp::Sub => b.variables,
        BinaryOp::Mul => {
            let left = product(a.variables, sum(b.operations, 2));
            let right = product(b.variables, sum(a.operations, 1));
            sum(left, right)
        }
        BinaryOp::Div => {
            let both = sum(a.operations, b.operations);
            let left = product(a.variables, sum(b.operations, 1));
            let right = product(b.variables, sum(both, 4));
            sum(left, right)
        }
        BinaryOp::Min | BinaryOp::Max => {
            let both = sum(a.operations, b.operations);
            product(sum(a.variables, b.variables), sum(both, 1))
        }
    }
}

/// The extent of a leaf.
pub fn leaf_extent(op: LeafOp) -> Extent
    ensures { IsExtent (leaf (leaf_of op)) result }
{
    let variables = match op {
        LeafOp::Var { .. } => 1,
        _ => 0,
    };
    Extent {
        variables,
        operations: 0,
        bound: 0,
    }
}

/// The extent of a negation.
pub fn negative_extent(a: Extent) -> Extent
    ensures { (t : Term) → IsExtent t a → IsExtent (negative t) result }
{
    Extent {
        variables: a.variables,
        operations: sum(a.operations, 1),
        bound: sum(a.bound, a.variables),
    }
}

/// The extent of an operator with two operands.
pub fn binary_extent(op: BinaryOp, a: Extent, b: Extent) -> Extent
    ensures { (t u : Term) → IsExtent t a → IsExtent u b → IsExtent (binary (binary_of op) t u) result }
{
    let operands = sum(a.operations, b.operations);
    let derivatives = sum(a.bound, b.bound);
    Extent {
        variables: sum(a.variables, b.variables),
        operations: sum(operands, 1),
        bound: sum(derivatives, binary_bound(op, a, b)),
    }
}

/// The extent of a power.
pub fn power_extent(a: Extent) -> Extent
    ensures { (t : Term) (n : ℤ) → IsExtent t a → IsExtent (power_of t n) result }
{
    let factor = sum(a.operations, 4);
    Extent {
        variables: a.variables,
        operations: sum(a.operations, 1),
        bound: sum(a.bound, product(a.variables, factor)),
    }
}

/// The extent of a choice among four, whose derivative is never asked for.
pub fn pick_extent(a: Extent, b: Extent, c: Extent, d: Extent) -> Extent
    ensures { (t u w x : Term) → IsExtent t a → IsExtent u b → IsExtent w c → IsExtent x d → IsExtent (pick t u w x) result }
{
    let left = sum(a.operations, b.operations);
    let right = sum(c.operations, d.operations);
    let first = sum(a.variables, b.variables);
    let second = sum(c.variables, d.variables);
    Extent {
        variables: sum(first, second),
        operations: sum(sum(left, right), 1),
        bound: 0,
    }
}
