// Large bands.
ghost use Rattle.std.specs.Prelude.{IfOk};
ghost use Rattle.mp_band.specs.Blocks.{IsInShape};

use anyhow::{Result, bail};
use mp_band::Band;
use mp_base::Steps;
use mp_fix::Fix;
use std::alloc::Global;
use std::sync::ledger::Ledger;

const THRESHOLD: i128 = 1_000;

/// Which entries a row has: all places of the band, or four to six.
#[derive(Clone, Copy)]
pub(crate) enum Pattern {
    Full,
    Near,
}

// An empty band of so many periods of so many rows.
fn empty(alloc: Global, periods: u32, size: u32) -> Result<Band>
    ensures { IfOk result IsInShape }
{
    if periods.checked_mul(size).is_none() {
        bail!("too many rows");
    }
    let Ok(band) = Band::with_shape(alloc, periods, size) else {
        bail!("no memory");
    };
    Ok(band)
}

// Puts an entry where the band has its place.
fn put(band: &mut Band, row: u32, column: u32, units: i128)
    requires { IsInShape band.old }
    ensures { IsInShape band.new }
{
    let Ok(value) = Fix::of_units(units) else {
        return;
    };
    if band.has_place(row, column) {
        band.put(row, column, value);
    }
}

// Puts a right side where the band has the row.
fn put_right(band: &mut Band, row: u32, units: i128)
    requires { IsInShape band.old }
    ensures { IsInShape band.new }
{
    let Ok(value) = Fix::of_units(units) else {
        return;
    };
    if row >= 1 && row <= band.count() {
        band.put_right(row, value);
    }
}

fn value_at(row: u32, column: u32) -> i128 {
    if row == column {
        return 40_000_000_000_000;
    }
    ((row as i128 * 31 + column as i128 * 17) % 97 - 48) * 10_000_000_000
}

fn fill_row(band: &mut Band, row: u32, size: u32)
    requires { IsInShape band.old }
    ensures { IsInShape band.new }
{
    let reach = size.saturating_mul(2);
    for column in row.saturating_sub(reach)..row.saturating_add(reach) {
        put(band, row, column, value_at(row, column));
    }
}

fn fill_near(band: &mut Band, row: u32, size: u32)
    requires { IsInShape band.old }
    ensures { IsInShape band.new }
{
    put(band, row, row, 1_000_000_000_000);
    put(band, row, row.saturating_add(1), -50_000_000_000);
    put(band, row, row.saturating_sub(size), -400_000_000_000);
    put(band, row, row.saturating_add(size), -5_000_000_000);
    if row % 3 == 0 {
        put(band, row, row.saturating_sub(1), -20_000_000_000);
    }
    if row % 5 == 0 {
        let column = row.saturating_sub(size).saturating_add(1);
        put(band, row, column, -30_000_000_000);
    }
}

fn fill(band: &mut Band, pattern: Pattern, size: u32)
    requires { IsInShape band.old }
    ensures { IsInShape band.new }
{
    for at in 0..band.count() {
        let row = at + 1;
        match pattern {
            Pattern::Full => fill_row(band, row, size),
            Pattern::Near => fill_near(band, row, size),
        }
        put_right(band, row, row as i128 % 7 * 1_000_000_000_000);
    }
}

/// Fills a band of so many periods, and prints its first and its last answer.
pub(crate) fn large<L: Ledger>(
    rt: &(impl Print + AllocGlobal),
    pattern: Pattern,
    periods: u32,
    size: u32,
    steps: &mut Steps<L>,
) -> Result<()> {
    let mut band = empty(rt.alloc(), periods, size)?;
    fill(&mut band, pattern, size);
    eliminate(&mut band, steps)?;
    ends(rt, &band)
}

fn eliminate<L: Ledger>(band: &mut Band, steps: &mut Steps<L>) -> Result<()>
    requires { IsInShape band.old }
{
    let Ok(threshold) = Fix::of_units(THRESHOLD) else {
        bail!("no threshold");
    };
    band.eliminate(threshold, steps)?;
    Ok(())
}

// The first and the last answer.
fn ends(rt: &impl Print, band: &Band) -> Result<()> {
    let count = band.count();
    if count > 0 {
        println!(rt; "{} {}", band.answer(1).units(), band.answer(count).units())?;
    }
    Ok(())
}
