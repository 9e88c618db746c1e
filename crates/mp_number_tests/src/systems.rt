// Small systems, with what an independent program gives for each; numbers are in units of 10^-12.
ghost use Rattle.std.specs.Prelude.{◌≡◌, ◌*◌, ◌<◌};
ghost use Rattle.mp_band.specs.Blocks.{count_of, IsInShape};

use mp_band::Band;
use mp_base::{NoMemory, Op, Steps};
use mp_dense::{Column, Matrix, is_square, solve};
use mp_elim::ElimFault;
use mp_fix::Fix;
use std::alloc::Global;
use std::marker::Brand;
use std::process::Abort;
use std::sync::ledger::{Blank, Ledger};

const ONE: i128 = 1_000_000_000_000;

// The greatest number of units.
const MOST: i128 = 10_000_000_000_000_000_000;

const THRESHOLD: i128 = 1_000;

enum Want {
    Solved(&'static [i128]),
    Pivot(u32, i128),
    Overflow(u32, Op),
}

// A system of so many periods, with its rows and its right sides.
struct Case {
    periods: u32,
    size: u32,
    rows: &'static [&'static [i128]],
    right: &'static [i128],
    want: Want,
}

const CASES: &[Case] = &[
    Case {
        periods: 1,
        size: 2,
        rows: &[&[2 * ONE, ONE], &[ONE, -ONE]],
        right: &[3 * ONE, 0],
        want: Want::Solved(&[ONE, ONE]),
    },
    // the rows change places
    Case {
        periods: 2,
        size: 1,
        rows: &[&[0, ONE], &[ONE, 0]],
        right: &[3, 4],
        want: Want::Solved(&[4, 3]),
    },
    Case {
        periods: 1,
        size: 2,
        rows: &[&[ONE, ONE], &[ONE, ONE]],
        right: &[3, 4],
        want: Want::Pivot(2, 0),
    },
    // a pivot at the threshold, and one below it
    Case {
        periods: 1,
        size: 1,
        rows: &[&[1_000]],
        right: &[7],
        want: Want::Solved(&[7_000_000_000]),
    },
    Case {
        periods: 1,
        size: 1,
        rows: &[&[999]],
        right: &[1],
        want: Want::Pivot(1, 999),
    },
    Case {
        periods: 1,
        size: 1,
        rows: &[&[1_000]],
        right: &[1_000_000_000_000_000_000],
        want: Want::Overflow(1, Op::Div),
    },
    Case {
        periods: 1,
        size: 2,
        rows: &[&[ONE, -MOST], &[ONE, MOST]],
        right: &[ONE, ONE],
        want: Want::Overflow(1, Op::Sub),
    },
    Case {
        periods: 2,
        size: 1,
        rows: &[&[ONE, MOST], &[0, ONE]],
        right: &[ONE, 10 * ONE],
        want: Want::Overflow(1, Op::Mul),
    },
    // the first of two greatest pivots, and quotients rounded down
    Case {
        periods: 3,
        size: 1,
        rows: &[
            &[3 * ONE, ONE, 0],
            &[-3 * ONE, ONE, ONE],
            &[0, 3 * ONE, 2 * ONE],
        ],
        right: &[ONE, 2 * ONE, 3 * ONE],
        want: Want::Solved(&[-666_666_666_671, 3_000_000_000_012, -3_000_000_000_019]),
    },
    Case {
        periods: 2,
        size: 2,
        rows: &[
            &[ONE, 2 * ONE, 3 * ONE, 0],
            &[4 * ONE, ONE, 0, -ONE],
            &[0, ONE, 2 * ONE, ONE],
            &[ONE, 0, -ONE, 5 * ONE],
        ],
        right: &[ONE, 2 * ONE, 3 * ONE, 4 * ONE],
        want: Want::Solved(&[
            3_214_285_714_269,
            -9_571_428_571_371,
            5_642_857_142_824,
            1_285_714_285_708,
        ]),
    },
];

fn fix(rt: &impl Abort, units: i128) -> Fix {
    match Fix::of_units(units) {
        Ok(value) => value,
        Err(_) => std::panic!(rt; "past the limit: {units}"),
    }
}

fn column_of(rt: &impl Abort, alloc: Global, units: &[i128]) -> Result<Column, NoMemory> {
    let mut column = Column::new(alloc);
    for &unit in units {
        column.add(fix(rt, unit))?;
    }
    Ok(column)
}

fn matrix_of(rt: &impl Abort, alloc: Global, rows: &[&[i128]]) -> Result<Matrix, NoMemory> {
    let mut matrix = Matrix::new(alloc);
    for row in rows {
        matrix.add(column_of(rt, alloc, row)?)?;
    }
    Ok(matrix)
}

fn refused(rt: &impl Abort, want: &Want, fault: ElimFault) {
    match (want, fault) {
        (Want::Pivot(at, least), ElimFault::Pivot { column, value }) => {
            assert!(rt; *at == column);
            assert!(rt; *least == value.units());
        }
        (Want::Overflow(at, sign), ElimFault::Overflow { column, op }) => {
            assert!(rt; *at == column);
            assert!(rt; *sign == op);
        }
        _ => std::panic!(rt; "another refusal"),
    }
}

fn solution_of<'a>(rt: &impl Abort, want: &'a Want) -> &'a [i128] {
    match want {
        Want::Solved(answers) => answers,
        _ => std::panic!(rt; "not refused"),
    }
}

fn dense<L: Ledger>(
    rt: &impl Abort,
    alloc: Global,
    case: &Case,
    steps: &mut Steps<L>,
) -> Result<(), NoMemory> {
    let matrix = matrix_of(rt, alloc, case.rows)?;
    let right = column_of(rt, alloc, case.right)?;
    assert!(rt; is_square(&matrix, &right));
    assert!(rt; matrix.len() < 100);
    match solve(alloc, &matrix, &right, fix(rt, THRESHOLD), steps) {
        Ok(x) => {
            let want = solution_of(rt, &case.want);
            assert!(rt; x.len() == want.len());
            for i in 0..want.len() {
                assert!(rt; x.get(i).units() == want[i]);
            }
        }
        Err(fault) => refused(rt, &case.want, fault),
    }
    Ok(())
}

fn put(rt: &impl Abort, band: &mut Band, row: u32, column: u32, units: i128)
    requires shape { IsInShape band.old }
    ensures shape { IsInShape band.new }
    ensures count { count_of band.new ≡ count_of band.old }
{
    if band.has_place(row, column) {
        band.put(row, column, fix(rt, units));
    } else {
        assert!(rt; units == 0);
    }
}

fn fill_row(rt: &impl Abort, band: &mut Band, row: u32, units: &[i128])
    requires shape { IsInShape band.old }
    ensures shape { IsInShape band.new }
    ensures count { count_of band.new ≡ count_of band.old }
{
    assert!(rt; units.len() == band.count() as usize);
    for k in 0..band.count() {
        put(rt, band, row, k + 1, units[k as usize]);
    }
}

fn fill(rt: &impl Abort, band: &mut Band, case: &Case)
    requires shape { IsInShape band.old }
    ensures shape { IsInShape band.new }
    ensures count { count_of band.new ≡ count_of band.old }
{
    assert!(rt; case.rows.len() == band.count() as usize);
    assert!(rt; case.right.len() == band.count() as usize);
    for i in 0..band.count() {
        fill_row(rt, band, i + 1, case.rows[i as usize]);
        band.put_right(i + 1, fix(rt, case.right[i as usize]));
    }
}

fn banded<L: Ledger>(
    rt: &impl Abort,
    alloc: Global,
    case: &Case,
    steps: &mut Steps<L>,
) -> Result<(), NoMemory> {
    assert!(rt; case.periods < 100);
    assert!(rt; case.size < 100);
    let mut band = Band::with_shape(alloc, case.periods, case.size)?;
    fill(rt, &mut band, case);
    match band.eliminate(fix(rt, THRESHOLD), steps) {
        Ok(()) => {
            let want = solution_of(rt, &case.want);
            assert!(rt; want.len() == band.count() as usize);
            for i in 0..band.count() {
                assert!(rt; band.answer(i + 1).units() == want[i as usize]);
            }
        }
        Err(fault) => refused(rt, &case.want, fault),
    }
    Ok(())
}

fn all<L: Ledger>(rt: &impl Abort, alloc: Global, blank: Blank) -> Result<(), NoMemory>
    requires name { blank.name ≡ L.name }
    requires parts { blank.parts ≡ L.parts }
    requires some { 0 < blank.parts }
{
    let mut steps = mp_steps::start::<L>(blank);
    for case in CASES {
        dense(rt, alloc, case, &mut steps)?;
        banded(rt, alloc, case, &mut steps)?;
    }
    Ok(())
}

#[test]
fn small_systems(rt: HostRuntime) -> Result<(), NoMemory> {
    all::<Brand>(&rt, rt.alloc(), Blank::new(1))
}
