// Operations on fractions, with their limits.
ghost use Rattle.std.specs.Prelude.{◌≡◌, ◌≤◌, pos, unsigned_abs, IfOk};
ghost use Rattle.std.specs.Option.{ForSome};
ghost use Rattle.mp_rational.specs.Fraction.{less, whole};
ghost use Rattle.mp_frac.specs.Value.{value_of, outcome_of};
ghost use Rattle.mp_values.specs.Limits.{limited, told};
ghost use Rattle.mp_values.specs.Values.{with_sign, with_sign_if, chosen, exponent_at};
ghost use Rattle.mp_fold.specs.Near.{near_of};
ghost use Rattle.mp_fold.specs.Shown.{shown, and_then};

use crate::fault::{FoldFault, reduced};
use mp_base::{DataKind, DataRefusal, Ratio, Reduced};
use mp_frac::{Frac, FracFault};
use mp_syntax::{Function, Operator, Sign};
use std::cmp::Ordering;

/// A value, or why there is none.
pub type Value<'t> = Result<Frac, FoldFault<'t>>;

// What an operation at this place on these operands answers.
fn told<'t>(at: u32, x: Frac, y: Frac, outcome: Result<Frac, FracFault>) -> Value<'t>
    ensures { shown value_of result ≡ told at (value_of x) (value_of y) (outcome_of outcome) }
{
    let kind = match outcome {
        Ok(z) => return Ok(z),
        Err(FracFault::Overflow) => DataKind::Overflow,
        Err(FracFault::ZeroDivisor) => DataKind::ZeroDivisor,
    };
    Err(FoldFault::Refused(DataRefusal {
        kind,
        at,
        first: reduced(x),
        second: reduced(y),
    }))
}

// What joins two operands at this place.
pub(crate) fn joined<'t>(op: Operator, at: u32, x: Frac, y: Frac) -> Value<'t>
    ensures { shown value_of result ≡ limited.result op at (value_of x) (value_of y) }
{
    let outcome = match op {
        Operator::Plus => x.add(y),
        Operator::Minus => x.sub(y),
        Operator::Times => x.mul(y),
        Operator::Over => x.div(y),
    };
    told(at, x, y, outcome)
}

// The value with the sign before it.
fn with_sign(sign: Sign, x: Frac) -> Frac
    ensures { value_of result ≡ with_sign sign (value_of x) }
{
    match sign {
        Sign::Plus => x,
        Sign::Minus => x.negated(),
    }
}

// The same of a value that may be missing.
pub(crate) fn signed<'t>(sign: Sign, x: Value<'t>) -> Value<'t>
    ensures { shown value_of result ≡ and_then (shown value_of x.entry) (λ a. Ok (with_sign sign a)) }
{
    match x {
        Ok(a) => Ok(with_sign(sign, a)),
        Err(fault) => Err(fault),
    }
}

// What a value gains from period to period, where it has one.
pub(crate) fn unchanging<'t>(x: Value<'t>) -> Value<'t>
    ensures { shown value_of result ≡ and_then (shown value_of x.entry) (λ a. Ok (whole (pos 0))) }
{
    match x {
        Ok(_) => Ok(Frac::ratio(0, 1)),
        Err(fault) => Err(fault),
    }
}

// The lesser or the greater of both.
pub(crate) fn chosen<'t>(function: Function, x: Value<'t>, y: Value<'t>) -> Value<'t>
    ensures { shown value_of result ≡ and_then (shown value_of x.entry) (λ a. and_then (shown value_of y.entry) (λ b. Ok (chosen function a b))) }
{
    match (x, y) {
        (Ok(a), Ok(b)) => Ok(choice(function, a, b)),
        (Err(fault), _) => Err(fault),
        (_, Err(fault)) => Err(fault),
    }
}

fn choice(function: Function, x: Frac, y: Frac) -> Frac
    ensures { value_of result ≡ chosen function (value_of x) (value_of y) }
{
    let first_is_less = is_less(x, y);
    match function {
        Function::Min => if first_is_less { x } else { y },
        Function::Max => if first_is_less { y } else { x },
    }
}

fn is_less(x: Frac, y: Frac) -> bool
    ensures { result ≡ less (value_of x) (value_of y) }
{
    x.cmp(&y) == Ordering::Less
}

// The value of an exponent with the sign before it, if there is one.
fn with_sign_if(sign: Option<Sign>, x: Frac) -> Frac
    ensures { value_of result ≡ with_sign_if sign (value_of x) }
{
    match sign {
        None => x,
        Some(sign) => with_sign(sign, x),
    }
}

// The power at this place, by the value of its exponent before its sign.
pub(crate) fn power<'t>(at: u32, sign: Option<Sign>, x: Value<'t>, y: Value<'t>) -> Value<'t>
    ensures { shown value_of result ≡ and_then (shown value_of x.entry) (λ a. and_then (shown value_of y.entry) (λ b. and_then (exponent_at limited at sign b) (λ k. limited.raised at a k))) }
{
    match (x, y) {
        (Ok(a), Ok(b)) => raised(at, a, with_sign_if(sign, b)),
        (Err(fault), _) => Err(fault),
        (_, Err(fault)) => Err(fault),
    }
}

// The power at this place with this exponent.
fn raised<'t>(at: u32, x: Frac, exponent: Frac) -> Value<'t>
    ensures { shown value_of result ≡ and_then (limited.exponent at (value_of exponent)) (λ k. limited.raised at (value_of x) k) }
{
    match near_whole(at, exponent) {
        Ok(k) => told(at, x, exponent, x.pow(k)),
        Err(fault) => Err(fault),
    }
}

// The exponent of a "^" at this place, by its value before its sign.
pub(crate) fn near_exponent<'t>(
    at: u32,
    sign: Option<Sign>,
    y: Value<'t>,
) -> Result<i8, FoldFault<'t>>
    ensures given { shown (λ k. k) result ≡ and_then (shown value_of y.entry) (λ b. exponent_at limited at sign b) }
    ensures near { IfOk result (λ k. unsigned_abs k ≤ 16) }
{
    match y {
        Ok(b) => near_whole(at, with_sign_if(sign, b)),
        Err(fault) => Err(fault),
    }
}

// The whole number that this exponent is, from -16 to 16.
fn near_whole<'t>(at: u32, exponent: Frac) -> Result<i8, FoldFault<'t>>
    ensures given { shown (λ k. k) result ≡ limited.exponent at (value_of exponent) }
    ensures whole { IfOk result (λ k. value_of exponent ≡ whole k) }
    ensures near { IfOk result (λ k. unsigned_abs k ≤ 16) }
{
    let parts = exponent.parts();
    match near(&parts) {
        Some(k) => Ok(k),
        None => Err(FoldFault::Refused(DataRefusal {
            kind: DataKind::Exponent,
            at,
            first: reduced(exponent),
            second: Reduced::whole(16),
        })),
    }
}

// The whole number that these parts in lowest terms are, from -16 to 16.
fn near(parts: &Ratio) -> Option<i8>
    ensures given { result ≡ near_of parts.now.n parts.now.d }
    ensures near { ForSome result (λ k. unsigned_abs k ≤ 16) }
{
    if parts.d == 1 && -16 <= parts.n && parts.n <= 16 {
        Some(parts.n as i8)
    } else {
        None
    }
}
