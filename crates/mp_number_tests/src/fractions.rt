// The rule of refusal and the answers, against Python's fractions.

use mp_frac::{Frac, FracFault};
use std::cmp::Ordering;
use std::test::Fail;

// 10^37, its neighbours, and what times 11 is 10^37 + 1.
const LIMIT: i128 = 10000000000000000000000000000000000000;

const BELOW: i128 = 9999999999999999999999999999999999999;

const ABOVE: i128 = 10000000000000000000000000000000000001;

const ELEVENTH: i128 = 909090909090909090909090909090909091;

type Parts = (i128, i128);

type Answer = Result<Parts, FracFault>;

#[derive(Clone, Copy)]
enum Operation {
    Add,
    Sub,
    Mul,
    Div,
}

fn apply(operation: Operation, x: Frac, y: Frac) -> Result<Frac, FracFault> {
    match operation {
        Operation::Add => x.add(y),
        Operation::Sub => x.sub(y),
        Operation::Mul => x.mul(y),
        Operation::Div => x.div(y),
    }
}

fn parts_of(answer: Result<Frac, FracFault>) -> Answer {
    match answer {
        Ok(fraction) => {
            let parts = fraction.parts();
            Ok((parts.n, parts.d))
        }
        Err(fault) => Err(fault),
    }
}

const OPERATIONS: &[(Operation, Parts, Parts, Answer)] = &[
    (Operation::Add, (1, 2), (1, 3), Ok((5, 6))),
    (Operation::Add, (1, 6), (1, 3), Ok((1, 2))),
    (Operation::Add, (BELOW, 1), (1, 1), Ok((LIMIT, 1))),
    (Operation::Add, (LIMIT, 1), (1, 1), Err(FracFault::Overflow)),
    (
        Operation::Add,
        (-LIMIT, 1),
        (-1, 1),
        Err(FracFault::Overflow),
    ),
    (Operation::Add, (LIMIT, 1), (-1, 1), Ok((BELOW, 1))),
    (
        Operation::Add,
        (BELOW, 2),
        (BELOW, 2),
        Err(FracFault::Overflow),
    ),
    (Operation::Add, (LIMIT, 3), (-LIMIT, 3), Ok((0, 1))),
    (
        Operation::Add,
        (1, LIMIT),
        (1, BELOW),
        Err(FracFault::Overflow),
    ),
    (Operation::Add, (1, LIMIT), (-1, LIMIT), Ok((0, 1))),
    (Operation::Add, (BELOW, 1), (1, 3), Err(FracFault::Overflow)),
    (
        Operation::Sub,
        (LIMIT, 1),
        (-1, 1),
        Err(FracFault::Overflow),
    ),
    (Operation::Sub, (-LIMIT, 1), (0, 1), Ok((-LIMIT, 1))),
    (Operation::Sub, (1, 2), (1, 2), Ok((0, 1))),
    (Operation::Sub, (1, 3), (1, 2), Ok((-1, 6))),
    (
        Operation::Mul,
        (10000000000000000000, 1),
        (1000000000000000000, 1),
        Ok((LIMIT, 1)),
    ),
    (
        Operation::Mul,
        (10000000000000000000, 1),
        (10000000000000000000, 1),
        Err(FracFault::Overflow),
    ),
    (
        Operation::Mul,
        (-1000000000000000000, 1),
        (10000000000000000000, 1),
        Ok((-LIMIT, 1)),
    ),
    (
        Operation::Mul,
        (11, 1),
        (ELEVENTH, 1),
        Err(FracFault::Overflow),
    ),
    (
        Operation::Mul,
        (-11, 1),
        (ELEVENTH, 1),
        Err(FracFault::Overflow),
    ),
    (
        Operation::Mul,
        (1, 10000000000000000000),
        (-1, 1000000000000000000),
        Ok((-1, LIMIT)),
    ),
    (
        Operation::Mul,
        (1, 11),
        (1, ELEVENTH),
        Err(FracFault::Overflow),
    ),
    (Operation::Mul, (LIMIT, 3), (3, LIMIT), Ok((1, 1))),
    (
        Operation::Mul,
        (LIMIT, 7),
        (7, 2),
        Ok((5000000000000000000000000000000000000, 1)),
    ),
    (Operation::Mul, (0, 1), (LIMIT, 3), Ok((0, 1))),
    (Operation::Div, (1, 1), (0, 1), Err(FracFault::ZeroDivisor)),
    (Operation::Div, (0, 1), (0, 1), Err(FracFault::ZeroDivisor)),
    (Operation::Div, (LIMIT, 1), (1, 2), Err(FracFault::Overflow)),
    (Operation::Div, (1, 1), (-LIMIT, 1), Ok((-1, LIMIT))),
    (Operation::Div, (-1, 1), (-2, 1), Ok((1, 2))),
    (Operation::Div, (11, 1), (11, ELEVENTH), Ok((ELEVENTH, 1))),
];

const POWERS: &[(Parts, i8, Answer)] = &[
    ((10, 1), 37, Ok((LIMIT, 1))),
    ((10, 1), 38, Err(FracFault::Overflow)),
    ((-10, 1), 37, Ok((-LIMIT, 1))),
    ((1, 10), 37, Ok((1, LIMIT))),
    ((10, 1), -37, Ok((1, LIMIT))),
    ((10, 1), -38, Err(FracFault::Overflow)),
    ((2, 1), 122, Ok((5316911983139663491615228241121378304, 1))),
    ((2, 1), 123, Err(FracFault::Overflow)),
    ((-2, 3), -3, Ok((-27, 8))),
    ((0, 1), 0, Ok((1, 1))),
    ((0, 1), 5, Ok((0, 1))),
    ((0, 1), -1, Err(FracFault::ZeroDivisor)),
    ((-1, 1), -128, Ok((1, 1))),
    ((-1, 1), 127, Ok((-1, 1))),
];

const MADE: &[(Parts, Answer)] = &[
    ((6, -4), Ok((-3, 2))),
    ((-6, -4), Ok((3, 2))),
    ((0, -5), Ok((0, 1))),
    ((7, 0), Err(FracFault::ZeroDivisor)),
    ((0, 0), Err(FracFault::ZeroDivisor)),
    ((20000000000000000000000000000000000000, 2), Ok((LIMIT, 1))),
    (
        (-20000000000000000000000000000000000000, 2),
        Ok((-LIMIT, 1)),
    ),
    ((ABOVE, 1), Err(FracFault::Overflow)),
    ((-ABOVE, 1), Err(FracFault::Overflow)),
    (
        (20000000000000000000000000000000000002, 2),
        Err(FracFault::Overflow),
    ),
    ((1, ABOVE), Err(FracFault::Overflow)),
    ((i128::MIN, i128::MIN), Ok((1, 1))),
    ((i128::MIN, 1), Err(FracFault::Overflow)),
    ((1, i128::MIN), Err(FracFault::Overflow)),
    (
        (i128::MIN, 1267650600228229401496703205376),
        Ok((-134217728, 1)),
    ),
    (
        (i128::MIN, -1267650600228229401496703205376),
        Ok((134217728, 1)),
    ),
];

const ORDERS: &[(Parts, Parts, Ordering)] = &[
    ((1, 3), (1, 2), Ordering::Less),
    ((1, 2), (1, 2), Ordering::Equal),
    ((0, 1), (-1, 1), Ordering::Greater),
    ((-1, 1), (1, LIMIT), Ordering::Less),
    (
        (LIMIT, BELOW),
        (BELOW, 9999999999999999999999999999999999998),
        Ordering::Less,
    ),
    (
        (-LIMIT, BELOW),
        (-BELOW, 9999999999999999999999999999999999998),
        Ordering::Greater,
    ),
    ((LIMIT, BELOW), (LIMIT, BELOW), Ordering::Equal),
    (
        (BELOW, LIMIT),
        (9999999999999999999999999999999999998, BELOW),
        Ordering::Greater,
    ),
];

#[test]
fn operations_at_the_limit(rt: HostRuntime) -> Result<(), Fail> {
    for &(operation, (n1, d1), (n2, d2), want) in OPERATIONS {
        let x = Frac::new(n1, d1)?;
        let y = Frac::new(n2, d2)?;
        assert_eq!(rt;
            parts_of(apply(operation, x, y)),
            want,
            "{n1}/{d1} and {n2}/{d2}"
        );
    }
    Ok(())
}

#[test]
fn powers_at_the_limit(rt: HostRuntime) -> Result<(), Fail> {
    for &((n, d), k, want) in POWERS {
        let base = Frac::new(n, d)?;
        assert_eq!(rt; parts_of(base.pow(k)), want, "{n}/{d} ^ {k}");
    }
    Ok(())
}

#[test]
fn new_reduces_first(rt: HostRuntime) {
    for &((n, d), want) in MADE {
        assert_eq!(rt; parts_of(Frac::new(n, d)), want, "{n}/{d}");
    }
}

#[test]
fn order_past_128_bits(rt: HostRuntime) -> Result<(), Fail> {
    for &((n1, d1), (n2, d2), want) in ORDERS {
        let x = Frac::new(n1, d1)?;
        let y = Frac::new(n2, d2)?;
        assert_eq!(rt; x.cmp(&y), want, "{n1}/{d1} and {n2}/{d2}");
    }
    Ok(())
}
