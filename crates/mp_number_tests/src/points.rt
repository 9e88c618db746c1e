// Points and intervals of fixed point at their limits, worked by hand; numbers are in units of 10^-12.
ghost use Rattle.std.specs.Prelude.{◌≡◌, ◌<◌};

use mp_base::{FixFault, Ratio, Steps};
use mp_fix::{Fix, Iv, print_decimal, read_decimal};
use std::marker::Brand;
use std::process::Abort;
use std::sync::ledger::{Blank, Ledger};

type Answer = Result<i128, FixFault>;

type Pair = (i128, i128);

type Ends = Result<Pair, FixFault>;

const ONE: i128 = 1_000_000_000_000;

// The greatest number of units.
const MOST: i128 = 10_000_000_000_000_000_000;

// The greatest part of a fraction.
const PART: i128 = 10_000_000_000_000_000_000_000_000_000_000_000_000;

// A part of which the greatest part is 10^7 times as much.
const LARGE: i128 = 1_000_000_000_000_000_000_000_000_000_000;

const OVER: Answer = Err(FixFault::Overflow);

const ZERO: Answer = Err(FixFault::ZeroDivisor);

#[derive(Clone, Copy)]
enum Operation {
    Add,
    Sub,
    Mul,
    Div,
    Min,
    Max,
}

const POINTS: &[(Operation, i128, i128, Answer)] = &[
    (Operation::Add, MOST - 1, 1, Ok(MOST)),
    (Operation::Add, MOST, 1, OVER),
    (Operation::Sub, MOST, 1, Ok(MOST - 1)),
    (Operation::Sub, -MOST, 1, OVER),
    (Operation::Min, 3, -5, Ok(-5)),
    (Operation::Max, 3, -5, Ok(3)),
    (Operation::Mul, -1, 3, Ok(-1)),
    (Operation::Mul, 1_500_000_000_000, -1, Ok(-2)),
    (
        Operation::Mul,
        999_999_999_999,
        999_999_999_999,
        Ok(999_999_999_998),
    ),
    (Operation::Mul, MOST, ONE, Ok(MOST)),
    (Operation::Mul, MOST, ONE + 1, OVER),
    (Operation::Mul, -MOST, -MOST, OVER),
    (Operation::Div, -1, 3, Ok(-333_333_333_334)),
    (Operation::Div, 2, -3, Ok(-666_666_666_667)),
    (Operation::Div, 5, 0, ZERO),
    (Operation::Div, MOST, ONE, Ok(MOST)),
    (Operation::Div, MOST, ONE + 1, Ok(9_999_999_999_990_000_000)),
    (Operation::Div, ONE, -1, OVER),
];

const POWERS: &[(i128, i8, Answer)] = &[
    (2 * ONE, -2, Ok(ONE / 4)),
    (-2 * ONE, -17, Ok(-7_629_395)),
    (3 * ONE, -16, OVER),
    (10 * ONE, 7, Ok(MOST)),
    (700_000_000_000, 16, Ok(3_323_293_056)),
    (100_000, -2, ZERO),
    (0, 0, Ok(ONE)),
];

// Fractions n/d with their points and their intervals.
const FRACTIONS: &[(i128, i128, Answer, Ends)] = &[
    (
        -1,
        3,
        Ok(-333_333_333_334),
        Ok((-333_333_333_334, -333_333_333_333)),
    ),
    (PART, 1, OVER, Err(FixFault::Overflow)),
    (-1, PART, Ok(-1), Ok((-1, 0))),
    (PART, LARGE, Ok(MOST), Ok((MOST, MOST))),
    (PART, LARGE - 1, Ok(MOST), Err(FixFault::Overflow)),
    (PART - 1, LARGE, Ok(MOST - 1), Ok((MOST - 1, MOST))),
];

const INTERVALS: &[(Operation, Pair, Pair, Ends)] = &[
    (Operation::Add, (-1, 2), (3, 5), Ok((2, 7))),
    (Operation::Sub, (-1, 2), (3, 5), Ok((-6, -1))),
    (Operation::Min, (-1, 2), (0, 1), Ok((-1, 1))),
    (Operation::Max, (-1, 2), (0, 1), Ok((0, 2))),
    (Operation::Mul, (-1, 2), (3, 5), Ok((-1, 1))),
    (Operation::Mul, (5, 7), (-3 * ONE, -ONE), Ok((-21, -5))),
    (
        Operation::Mul,
        (-MOST, MOST),
        (ONE, ONE + 1),
        Err(FixFault::Overflow),
    ),
    (
        Operation::Div,
        (-1, 2),
        (3, 5),
        Ok((-333_333_333_334, 666_666_666_667)),
    ),
    (Operation::Div, (5, 7), (-3 * ONE, -ONE), Ok((-7, -1))),
    (
        Operation::Div,
        (-1, 2),
        (0, ONE),
        Err(FixFault::ZeroDivisor),
    ),
    (
        Operation::Div,
        (-1, 2),
        (-ONE, 0),
        Err(FixFault::ZeroDivisor),
    ),
];

const INTERVAL_POWERS: &[(Pair, i8, Ends)] = &[
    ((-2 * ONE, 3 * ONE), 2, Ok((-6 * ONE, 9 * ONE))),
    ((2 * ONE, 3 * ONE), -2, Ok((111_111_111_111, ONE / 4))),
    ((3 * ONE, 3 * ONE), -3, Ok((37_037_037_037, 37_037_037_038))),
    ((-ONE, ONE), -1, Err(FixFault::ZeroDivisor)),
];

// Two intervals, and what is picked of (1, 2) and (5, 6).
const PICKS: &[(Pair, Pair, Pair)] = &[
    ((-1, 2), (3, 5), (1, 2)),
    ((3, 5), (-1, 2), (5, 6)),
    ((-1, 2), (2, 9), (1, 6)),
    ((2, 2), (2, 2), (1, 2)),
];

const PRINTED: &[(i128, &str)] = &[
    (50_000_000_001, "0.050000000001"),
    (-1, "-0.000000000001"),
    (-12_345_678_901_234, "-12.345678901234"),
    (MOST, "10000000.000000000000"),
];

const READ: &[(&str, Option<i128>)] = &[
    ("-0", Some(0)),
    ("007.5", Some(7_500_000_000_000)),
    ("10000000", Some(MOST)),
    ("10000000.000000000001", None),
    ("000000001", None),
    ("1.0000000000000", None),
    ("1.", None),
    (".5", None),
    ("1.2.3", None),
    ("", None),
];

fn point(rt: &impl Abort, units: i128) -> Fix {
    match Fix::of_units(units) {
        Ok(f) => f,
        Err(_) => std::panic!(rt; "past the limit: {units}"),
    }
}

fn interval(rt: &impl Abort, (lo, hi): Pair) -> Iv {
    let (lo, hi) = (point(rt, lo), point(rt, hi));
    assert!(rt; lo.units() <= hi.units());
    Iv { lo, hi }
}

fn units(answer: Result<Fix, FixFault>) -> Answer {
    match answer {
        Ok(f) => Ok(f.units()),
        Err(fault) => Err(fault),
    }
}

fn ends(answer: Result<Iv, FixFault>) -> Ends {
    match answer {
        Ok(i) => Ok((i.lo.units(), i.hi.units())),
        Err(fault) => Err(fault),
    }
}

fn of_points<L: Ledger>(o: Operation, x: Fix, y: Fix, steps: &mut Steps<L>) -> Answer {
    units(match o {
        Operation::Add => x.add(y, steps),
        Operation::Sub => x.sub(y, steps),
        Operation::Mul => x.mul(y, steps),
        Operation::Div => x.div(y, steps),
        Operation::Min => x.min(y, steps),
        Operation::Max => x.max(y, steps),
    })
}

fn of_intervals<L: Ledger>(o: Operation, x: Iv, y: Iv, steps: &mut Steps<L>) -> Ends {
    ends(match o {
        Operation::Add => x.add(y, steps),
        Operation::Sub => x.sub(y, steps),
        Operation::Mul => x.mul(y, steps),
        Operation::Div => x.div(y, steps),
        Operation::Min => x.min(y, steps),
        Operation::Max => x.max(y, steps),
    })
}

fn points<L: Ledger>(rt: &impl Abort, steps: &mut Steps<L>) {
    for &(operation, a, b, want) in POINTS {
        let (x, y) = (point(rt, a), point(rt, b));
        assert!(rt; of_points(operation, x, y, steps) == want, "{a} and {b}");
    }
}

fn powers<L: Ledger>(rt: &impl Abort, steps: &mut Steps<L>) {
    for &(a, k, want) in POWERS {
        assert!(rt; -17 <= k && k <= 16);
        assert!(rt; units(point(rt, a).pow(k, steps)) == want, "{a} to {k}");
    }
}

// What is picked of 7 and 8 by these two.
fn picked<L: Ledger>(rt: &impl Abort, a: i128, b: i128, steps: &mut Steps<L>) -> i128 {
    let (x, y) = (point(rt, a), point(rt, b));
    Fix::pick(x, y, point(rt, 7), point(rt, 8), steps).units()
}

fn choices<L: Ledger>(rt: &impl Abort, steps: &mut Steps<L>) {
    assert_eq!(rt; picked(rt, 1, 1, steps), 7);
    assert_eq!(rt; picked(rt, 2, 1, steps), 8);
    assert_eq!(rt; point(rt, 3).neg(steps).units(), -3);
}

fn intervals<L: Ledger>(rt: &impl Abort, steps: &mut Steps<L>) {
    for &(operation, a, b, want) in INTERVALS {
        let (x, y) = (interval(rt, a), interval(rt, b));
        assert!(rt; of_intervals(operation, x, y, steps) == want);
    }
}

fn interval_powers<L: Ledger>(rt: &impl Abort, steps: &mut Steps<L>) {
    for &(a, k, want) in INTERVAL_POWERS {
        assert!(rt; -17 <= k && k <= 16);
        assert!(rt; ends(interval(rt, a).pow(k, steps)) == want);
    }
}

fn interval_choices<L: Ledger>(rt: &impl Abort, steps: &mut Steps<L>) {
    let (c, d) = (interval(rt, (1, 2)), interval(rt, (5, 6)));
    for &(a, b, picked) in PICKS {
        let (x, y) = (interval(rt, a), interval(rt, b));
        assert!(rt; ends(Ok(Iv::pick(x, y, c, d, steps))) == Ok(picked));
    }
    assert!(rt; ends(Ok(c.neg(steps))) == Ok((-2, -1)));
}

fn fractions<L: Ledger>(rt: &impl Abort, steps: &mut Steps<L>) {
    for &(n, d, down, both) in FRACTIONS {
        assert!(rt; 0 < d && d <= PART && -PART <= n && n <= PART);
        assert!(rt;
            units(Fix::of_frac(Ratio { n, d }, steps)) == down,
            "{n}/{d}"
        );
        assert!(rt; ends(Iv::of_frac(Ratio { n, d }, steps)) == both);
    }
}

fn counted<L: Ledger>(rt: &impl Abort, blank: Blank)
    requires name { blank.name ≡ L.name }
    requires parts { blank.parts ≡ L.parts }
    requires some { 0 < blank.parts }
{
    let mut steps = mp_steps::start::<L>(blank);
    points(rt, &mut steps);
    powers(rt, &mut steps);
    choices(rt, &mut steps);
    intervals(rt, &mut steps);
    interval_powers(rt, &mut steps);
    interval_choices(rt, &mut steps);
    fractions(rt, &mut steps);
}

#[test]
fn operations_round_as_defined(rt: HostRuntime) {
    counted::<Brand>(&rt, Blank::new(1));
    assert!(rt; units(Fix::of_units(MOST + 1)) == OVER);
}

#[test]
fn decimals_are_printed(rt: HostRuntime) {
    for &(units, text) in PRINTED {
        assert_eq!(rt; print_decimal(point(&rt, units)).bytes(), text.as_bytes());
    }
}

#[test]
fn decimals_are_read(rt: HostRuntime) {
    for &(text, want) in READ {
        let got = match read_decimal(text.as_bytes()) {
            Some(f) => Some(f.units()),
            None => None,
        };
        assert!(rt; got == want, "{text}");
    }
}
