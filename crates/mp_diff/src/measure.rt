// The sizes of expressions and of their derivatives, by those of their operands.
ghost use Rattle.std.specs.Prelude.{◌≡◌, ◌<◌, ◌≤◌, ◌+◌, ◌-◌, ◌^◌, ◌≤ℤ◌, ℤ, negsuc};
ghost use Rattle.mp_expr.specs.Shown.{variable_of};
ghost use Rattle.mp_graph.specs.Op.{leaf_of, binary_of};
ghost use Rattle.mp_semantics.specs.Term as term;
ghost use Rattle.mp_semantics.specs.Term.{Variable, Term, leaf, negative, binary, power_of, pick};
ghost use Rattle.mp_slopes.specs.Derivative.{leaf_derivative, signed_term, whole_term};
ghost use Rattle.mp_diff.specs.Size.{AreSizes, bare, binary_size, is_one, is_zero, leaf_size, minus_size, negative_size, once_more, operation, pick_size, plus_size, power_derivative_size, power_size, product_size, quotient_derivative_size, quotient_size, size_of, times_size, total};

use crate::table::{is_at, one_less};
use mp_expr::VarId;
use mp_graph::{BinaryOp, LeafOp};

// Where a count stops.
const COUNT_LIMIT: u128 = 10000000000000000000000000000000000000;

/// What stands below the negations that an expression begins with: the number 0, the number 1, or anything else.
#[derive(Clone, Copy)]
pub enum Core {
    Zero,
    One,
    Other,
}

/// With how many negations an expression begins, what stands below them, and how many operations that has, up to 10^37.
#[derive(Clone, Copy)]
pub struct Size {
    pub negations: u64,
    pub core: Core,
    pub below: u128,
}

/// The sizes of an expression and of its derivative.
#[derive(Clone, Copy)]
pub struct Sizes {
    pub node: Size,
    pub derivative: Size,
}

fn is_zero(s: Size) -> bool
    ensures { result ≡ is_zero s }
{
    match s.core {
        Core::Zero => s.negations == 0,
        _ => false,
    }
}

fn is_one(s: Size) -> bool
    ensures { result ≡ is_one s }
{
    match s.core {
        Core::One => s.negations == 0,
        _ => false,
    }
}

/// How many operations there are, up to 10^37.
pub fn total(s: Size) -> u128
    ensures { result ≡ total s }
{
    (s.negations as u128)
        .saturating_add(s.below)
        .min(COUNT_LIMIT)
}

fn bare(core: Core) -> Size
    ensures { result ≡ bare core }
{
    Size {
        negations: 0,
        core,
        below: 0,
    }
}

// An operator that is no negation, over so many operations.
fn operation(operands: u128) -> Size
    ensures { result ≡ operation operands }
{
    Size {
        negations: 0,
        core: Core::Other,
        below: operands.saturating_add(1).min(COUNT_LIMIT),
    }
}

// An operator over two operands.
fn over(a: Size, b: Size) -> Size
    ensures { result ≡ operation (total a + total b) }
{
    operation(total(a) + total(b))
}

// An operator over four operands.
fn over_four(a: Size, b: Size, c: Size, d: Size) -> Size
    ensures { result ≡ operation (total a + total b + total c + total d) }
{
    operation(total(a) + total(b) + total(c) + total(d))
}

fn once_more(a: Size) -> Size
    requires { a.negations < 2 ^ 64 - 1 }
    ensures { result ≡ once_more a }
{
    Size {
        negations: a.negations + 1,
        core: a.core,
        below: a.below,
    }
}

fn negative(a: Size) -> Size
    requires { a.negations < 2 ^ 64 - 1 }
    ensures { result ≡ negative_size a }
{
    if is_zero(a) {
        return bare(Core::Zero);
    }
    if a.negations == 0 {
        return once_more(a);
    }
    Size {
        negations: a.negations - 1,
        core: a.core,
        below: a.below,
    }
}

fn plus(a: Size, b: Size) -> Size
    ensures { result ≡ plus_size a b }
{
    if is_zero(a) {
        return b;
    }
    if is_zero(b) {
        return a;
    }
    over(a, b)
}

fn minus(a: Size, b: Size) -> Size
    requires { b.negations < 2 ^ 64 - 1 }
    ensures { result ≡ minus_size a b }
{
    if is_zero(b) {
        return a;
    }
    if is_zero(a) {
        return negative(b);
    }
    over(a, b)
}

fn times(a: Size, b: Size) -> Size
    ensures { result ≡ times_size a b }
{
    if is_zero(a) || is_zero(b) {
        return bare(Core::Zero);
    }
    if is_one(a) {
        return b;
    }
    if is_one(b) {
        return a;
    }
    over(a, b)
}

fn quotient(a: Size, b: Size) -> Size
    ensures size { result ≡ quotient_size a b }
    ensures plain { result.negations ≡ 0 }
{
    if is_zero(a) {
        return bare(Core::Zero);
    }
    over(a, b)
}

fn power(a: Size, k: i8) -> Size
    ensures { result ≡ power_size a k }
{
    match k {
        0 => bare(Core::One),
        1 => a,
        _ => operation(total(a)),
    }
}

fn chosen(a: Size, b: Size, c: Size, d: Size) -> Size
    ensures { result ≡ pick_size a b c d }
{
    if is_zero(c) && is_zero(d) {
        return bare(Core::Zero);
    }
    over_four(a, b, c, d)
}

// The size of an exponent.
fn signed(k: i8) -> Size
    ensures { result ≡ size_of (signed_term k) }
{
    match k {
        0 => bare(Core::Zero),
        1 => bare(Core::One),
        -1 => once_more(bare(Core::One)),
        _ => {
            if k < 0 {
                once_more(bare(Core::Other))
            } else {
                bare(Core::Other)
            }
        }
    }
}

fn product(a: Sizes, b: Sizes) -> Size
    ensures { result ≡ product_size a.node b.node a.derivative b.derivative }
{
    let left = times(a.derivative, b.node);
    let right = times(a.node, b.derivative);
    plus(left, right)
}

fn quotient_derivative(a: Sizes, b: Sizes) -> Size
    ensures { result ≡ quotient_derivative_size a.node b.node a.derivative b.derivative }
{
    let first = quotient(a.derivative, b.node);
    let upper = times(a.node, b.derivative);
    let second = quotient(upper, power(b.node, 2));
    minus(first, second)
}

fn binary_derivative(op: BinaryOp, a: Sizes, b: Sizes) -> Size
    requires { b.derivative.negations < 2 ^ 64 - 1 }
    ensures { result ≡ binary_size (binary_of op) a.node b.node a.derivative b.derivative }
{
    match op {
        BinaryOp::Add => plus(a.derivative, b.derivative),
        BinaryOp::Sub => minus(a.derivative, b.derivative),
        BinaryOp::Mul => product(a, b),
        BinaryOp::Div => quotient_derivative(a, b),
        BinaryOp::Min => chosen(a.node, b.node, a.derivative, b.derivative),
        BinaryOp::Max => chosen(b.node, a.node, a.derivative, b.derivative),
    }
}

fn power_derivative(a: Sizes, k: i8) -> Size
    requires { negsuc 16 ≤ℤ k }
    ensures { result ≡ power_derivative_size a.node k a.derivative }
{
    if k == 0 {
        return bare(Core::Zero);
    }
    let lower = power(a.node, one_less(k));
    let outer = times(signed(k), lower);
    times(outer, a.derivative)
}

fn leaf_size(op: LeafOp) -> Size
    ensures { result ≡ leaf_size (leaf_of op) }
{
    match op {
        LeafOp::Num { m: 0, s: 0 } => bare(Core::Zero),
        LeafOp::Num { m: 1, s: 0 } => bare(Core::One),
        _ => bare(Core::Other),
    }
}

fn leaf_derivative(op: LeafOp, v: VarId, shift: i16) -> Size
    ensures { result ≡ size_of (leaf_derivative (leaf_of op) (variable_of v) shift) }
{
    match op {
        LeafOp::Var { v: w, shift: j } if is_at(v, shift, w, j) => bare(Core::One),
        _ => bare(Core::Zero),
    }
}

/// The sizes of a leaf.
pub fn leaf_sizes(op: LeafOp, v: VarId, shift: i16) -> Sizes
    ensures { AreSizes (variable_of v) shift (leaf (leaf_of op)) result }
{
    Sizes {
        node: leaf_size(op),
        derivative: leaf_derivative(op, v, shift),
    }
}

/// The sizes of a negation.
pub fn negative_sizes(a: Sizes) -> Sizes
    requires node { a.node.negations < 2 ^ 64 - 1 }
    requires derivative { a.derivative.negations < 2 ^ 64 - 1 }
    ensures { (v : Variable) (k : ℤ) (t : Term) → AreSizes v k t a → AreSizes v k (term.negative t) result }
{
    Sizes {
        node: once_more(a.node),
        derivative: negative(a.derivative),
    }
}

/// The sizes of an operator with two operands.
pub fn binary_sizes(op: BinaryOp, a: Sizes, b: Sizes) -> Sizes
    requires { b.derivative.negations < 2 ^ 64 - 1 }
    ensures { (v : Variable) (k : ℤ) (t u : Term) → AreSizes v k t a → AreSizes v k u b → AreSizes v k (binary (binary_of op) t u) result }
{
    Sizes {
        node: over(a.node, b.node),
        derivative: binary_derivative(op, a, b),
    }
}

/// The sizes of a power.
pub fn power_sizes(a: Sizes, n: i8) -> Sizes
    requires { negsuc 16 ≤ℤ n }
    ensures { (v : Variable) (k : ℤ) (t : Term) → AreSizes v k t a → AreSizes v k (power_of t n) result }
{
    Sizes {
        node: operation(total(a.node)),
        derivative: power_derivative(a, n),
    }
}

/// The sizes of a choice among four.
pub fn pick_sizes(a: Sizes, b: Sizes, c: Sizes, d: Sizes) -> Sizes
    ensures { (v : Variable) (k : ℤ) (t u w x : Term) → AreSizes v k t a → AreSizes v k u b → AreSizes v k w c → AreSizes v k x d → AreSizes v k (pick t u w x) result }
{
    Sizes {
        node: over_four(a.node, b.node, c.node, d.node),
        derivative: bare(Core::Zero),
    }
}

/// The sizes of the number 0, to fill a table with before it is written to.
pub fn blank_sizes() -> Sizes
    ensures { (v : Variable) (k : ℤ) → AreSizes v k (whole_term 0) result }
{
    let zero = bare(Core::Zero);
    Sizes {
        node: zero,
        derivative: zero,
    }
}
