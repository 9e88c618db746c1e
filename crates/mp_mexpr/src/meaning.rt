// What each operator makes of its operands.
ghost use Rattle.std.specs.Prelude.{◌≡◌, ◌^◌, pos, false, Ok, neg_ℤ, ◌+ℤ◌, ◌-ℤ◌, ◌*ℤ◌, ◌≤ℤ◌};
ghost use Rattle.std.specs.Option.{option_copied};
ghost use Rattle.mp_base.specs.Answers.{Gives};
ghost use Rattle.mp_mvalue.specs.Environments.{value_in};
ghost use Rattle.mp_mvalue.specs.Made.{made};
ghost use Rattle.mp_mvalue.specs.Shared.{unshared, all_unshared};
ghost use Rattle.mp_mvalue.specs.Told.{told};
ghost use Rattle.mp_mexpr.specs.Meaning.{numbers_value, number, whole_of, truth_of, digits_value, known, negative_value, not_value, numbers_from, count_between, sum_value, strict_value, at_place, element_at, element_value, or_value};
ghost use Rattle.mp_mvalue.specs.declared.value.Value.TheVariants as v;

use crate::operator::Operator;
use mp_base::MacroKind;
use mp_bytes::number_up_to;
use mp_mvalue::{Env, Gathered, MacroFault, SharedValue, copy, is_among, join, join_texts, same};
use std::alloc::Global;

pub(crate) fn refused<T>(kind: MacroKind) -> Result<T, MacroFault>
    ensures { result ≡ Err (MacroFault.Refused kind) }
{
    Err(MacroFault::Refused { kind })
}

// The number of a value.
fn whole_of(value: &SharedValue) -> Result<i64, MacroFault>
    ensures { Gives (λ n. n) told result (whole_of (unshared value.now)) }
{
    match value {
        SharedValue::Whole(n) => Ok(*n),
        _ => refused(MacroKind::WrongKind),
    }
}

/// A truth value, or a number, of which 0 is false; WrongKind for another value.
pub fn truth_of(value: &SharedValue) -> Result<bool, MacroFault>
    ensures { Gives (λ b. b) told result (truth_of (unshared value.now)) }
{
    match value {
        SharedValue::Truth(b) => Ok(*b),
        SharedValue::Whole(n) => Ok(*n != 0),
        _ => refused(MacroKind::WrongKind),
    }
}

// What is true of the value, as a value.
pub(crate) fn truth_value(value: SharedValue) -> Result<SharedValue, MacroFault>
    ensures { Gives unshared told result (or_value (Ok (v.Truth false)) (Ok (unshared value))) }
{
    let truth = truth_of(&value);
    drop(value);
    Ok(SharedValue::Truth(truth?))
}

fn sum(left: i64, right: i64) -> Result<SharedValue, MacroFault>
    ensures { Gives unshared told result (number (left +ℤ right)) }
{
    match left.checked_add(right) {
        Some(n) => Ok(SharedValue::Whole(n)),
        None => refused(MacroKind::Overflow),
    }
}

fn difference(left: i64, right: i64) -> Result<SharedValue, MacroFault>
    ensures { Gives unshared told result (number (left -ℤ right)) }
{
    match left.checked_sub(right) {
        Some(n) => Ok(SharedValue::Whole(n)),
        None => refused(MacroKind::Overflow),
    }
}

fn product(left: i64, right: i64) -> Result<SharedValue, MacroFault>
    ensures { Gives unshared told result (number (left *ℤ right)) }
{
    match left.checked_mul(right) {
        Some(n) => Ok(SharedValue::Whole(n)),
        None => refused(MacroKind::Overflow),
    }
}

fn negative(n: i64) -> Result<SharedValue, MacroFault>
    ensures { Gives unshared told result (number (neg_ℤ n)) }
{
    match n.checked_neg() {
        Some(n) => Ok(SharedValue::Whole(n)),
        None => refused(MacroKind::Overflow),
    }
}

// The number that digits write.
pub(crate) fn digits_value(digits: &[u8]) -> Result<SharedValue, MacroFault>
    ensures { Gives unshared told result (digits_value digits.now) }
{
    match number_up_to(i64::MAX as u64, digits) {
        Some(n) => Ok(SharedValue::Whole(n as i64)),
        None => refused(MacroKind::Overflow),
    }
}

// How many numbers there are from the first to the last.
fn count_between(first: i64, last: i64) -> u128
    ensures { result ≡ count_between first last }
{
    if last < first {
        return 0;
    }
    (last as i128 + 1 - first as i128) as u128
}

// The array of so many numbers from the first on, upwards.
fn numbers_from(alloc: Global, first: i64, count: u32) -> Result<SharedValue, MacroFault>
    requires { (first +ℤ pos count) ≤ℤ pos (2 ^ 63) }
    ensures { Gives unshared told result (made (numbers_from first count)) }
{
    let mut numbers = Gathered::new(alloc);
    for k in 0..count {
        numbers = numbers.with(SharedValue::Whole(first + k as i64))?;
    }
    numbers.finish(alloc)
}

fn range(alloc: Global, first: i64, last: i64) -> Result<SharedValue, MacroFault>
    ensures { Gives unshared told result (made (numbers_from first (count_between first last))) }
{
    let count = count_between(first, last);
    if count > 100_000 {
        return refused(MacroKind::ArrayLimit);
    }
    numbers_from(alloc, first, count as u32)
}

// Two numbers, two texts or two arrays.
#[tactic(auto, using(crate::proofs::Operators::arrays))]
fn add(alloc: Global, left: &SharedValue, right: &SharedValue) -> Result<SharedValue, MacroFault>
    ensures { Gives unshared told result (sum_value (unshared left.now) (unshared right.now)) }
{
    match (left, right) {
        (SharedValue::Whole(m), SharedValue::Whole(n)) => sum(*m, *n),
        (SharedValue::Text(s), SharedValue::Text(t)) => {
            join_texts(alloc, s.as_ref().as_slice(), t.as_ref().as_slice())
        }
        (SharedValue::List(xs), SharedValue::List(ys)) => join(alloc, xs.as_ref(), ys.as_ref()),
        _ => refused(MacroKind::WrongKind),
    }
}

#[tactic(auto, using(crate::proofs::Operators::arrays))]
fn is_in(value: &SharedValue, array: &SharedValue) -> Result<SharedValue, MacroFault>
    ensures { Gives unshared told result (strict_value Operator.In (unshared value.now) (unshared array.now)) }
{
    match array {
        SharedValue::List(items) => Ok(SharedValue::Truth(is_among(
            items.as_ref().as_slice(),
            value,
        ))),
        _ => refused(MacroKind::WrongKind),
    }
}

// The element at this place, from 1, or None where there is none.
fn at_place(elements: &[SharedValue], place: i64) -> Option<&SharedValue>
    ensures { option_copied result ≡ at_place elements.now place }
{
    if place < 1 {
        return None;
    }
    elements.get((place - 1) as usize)
}

#[tactic(auto, using(crate::proofs::Operators::elements))]
fn element_at(elements: &[SharedValue], place: i64) -> Result<SharedValue, MacroFault>
    ensures { Gives unshared told result (element_at (all_unshared elements.now) place) }
{
    match at_place(elements, place) {
        Some(element) => Ok(copy(element)?),
        None => refused(MacroKind::OutOfRange),
    }
}

// The element of an array at the place that a number names.
#[tactic(auto, using(crate::proofs::Operators::arrays))]
pub(crate) fn element_of(
    array: &SharedValue,
    place: &SharedValue,
) -> Result<SharedValue, MacroFault>
    ensures { Gives unshared told result (element_value (unshared array.now) (unshared place.now)) }
{
    match array {
        SharedValue::List(items) => element_at(items.as_ref().as_slice(), whole_of(place)?),
        _ => refused(MacroKind::WrongKind),
    }
}

// The value of a name.
pub(crate) fn name_value(env: &Env, name: &[u8]) -> Result<SharedValue, MacroFault>
    ensures { Gives unshared told result (known (value_in env.now name.now)) }
{
    match env.get(name) {
        Some(value) => Ok(copy(value)?),
        None => refused(MacroKind::Unknown),
    }
}

// The operators that read both sides first.
pub(crate) fn strict_value(
    alloc: Global,
    operator: Operator,
    left: &SharedValue,
    right: &SharedValue,
) -> Result<SharedValue, MacroFault>
    ensures { Gives unshared told result (strict_value operator (unshared left.now) (unshared right.now)) }
{
    match operator {
        Operator::Equal => Ok(SharedValue::Truth(same(left, right))),
        Operator::Different => Ok(SharedValue::Truth(!same(left, right))),
        Operator::In => is_in(left, right),
        Operator::Add => add(alloc, left, right),
        _ => of_numbers(alloc, operator, left, right),
    }
}

// The operators of two numbers.
fn of_numbers(
    alloc: Global,
    operator: Operator,
    left: &SharedValue,
    right: &SharedValue,
) -> Result<SharedValue, MacroFault>
    ensures { Gives unshared told result (numbers_value operator (unshared left.now) (unshared right.now)) }
{
    let m = whole_of(left)?;
    let n = whole_of(right)?;
    match operator {
        Operator::Less => Ok(SharedValue::Truth(m < n)),
        Operator::Greater => Ok(SharedValue::Truth(m > n)),
        Operator::AtMost => Ok(SharedValue::Truth(m <= n)),
        Operator::AtLeast => Ok(SharedValue::Truth(m >= n)),
        Operator::Range => range(alloc, m, n),
        Operator::Subtract => difference(m, n),
        Operator::Multiply => product(m, n),
        _ => refused(MacroKind::WrongKind),
    }
}

pub(crate) fn not_of(operand: SharedValue) -> Result<SharedValue, MacroFault>
    ensures { Gives unshared told result (not_value (Ok (unshared operand))) }
{
    let truth = truth_of(&operand);
    drop(operand);
    Ok(SharedValue::Truth(!truth?))
}

pub(crate) fn negative_of(operand: SharedValue) -> Result<SharedValue, MacroFault>
    ensures { Gives unshared told result (negative_value (Ok (unshared operand))) }
{
    let number = whole_of(&operand);
    drop(operand);
    negative(number?)
}
