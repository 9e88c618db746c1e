// Two systems of 2,000 periods of 20 rows, one after the other in one band.
ghost use Rattle.std.specs.Prelude.{◌≡◌, ◌*◌, ◌<◌, ◌≤◌};
ghost use Rattle.mp_band.specs.Blocks.{count_of, IsInShape};

use mp_band::Band;
use mp_base::NoMemory;
use mp_fix::Fix;
use std::alloc::Global;
use std::marker::Brand;
use std::process::Abort;
use std::sync::ledger::{Blank, Ledger};

const ONE: i128 = 1_000_000_000_000;

fn fix(rt: &impl Abort, units: i128) -> Fix {
    match Fix::of_units(units) {
        Ok(value) => value,
        Err(_) => std::panic!(rt; "past the limit: {units}"),
    }
}

fn put(rt: &impl Abort, band: &mut Band, row: u32, column: u32, units: i128)
    requires shape { IsInShape band.old }
    ensures shape { IsInShape band.new }
    ensures count { count_of band.new ≡ count_of band.old }
{
    assert!(rt; band.has_place(row, column));
    band.put(row, column, fix(rt, units));
}

/// A row with 2 in its own column, and behind the first period 1 in the one of the period before.
fn chain_row(rt: &impl Abort, band: &mut Band, row: u32)
    requires shape { IsInShape band.old }
    requires from { 1 ≤ row }
    requires row { row ≤ count_of band.old }
    ensures shape { IsInShape band.new }
    ensures count { count_of band.new ≡ count_of band.old }
{
    put(rt, band, row, row, 2 * ONE);
    if row > 20 {
        put(rt, band, row, row - 20, ONE);
        band.put_right(row, fix(rt, 3 * ONE));
    } else {
        band.put_right(row, fix(rt, 2 * ONE));
    }
}

fn fill_chain(rt: &impl Abort, band: &mut Band)
    requires shape { IsInShape band.old }
    ensures shape { IsInShape band.new }
    ensures count { count_of band.new ≡ count_of band.old }
{
    for at in 0..band.count() {
        chain_row(rt, band, at + 1);
    }
}

fn fill_apart(rt: &impl Abort, band: &mut Band)
    requires shape { IsInShape band.old }
    ensures shape { IsInShape band.new }
    ensures count { count_of band.new ≡ count_of band.old }
{
    for at in 0..band.count() {
        put(rt, band, at + 1, at + 1, 2 * ONE);
        band.put_right(at + 1, fix(rt, 4 * ONE));
    }
}

fn all_are(rt: &impl Abort, band: &Band, want: i128) {
    assert!(rt; band.count() == 40_000);
    for at in 0..band.count() {
        assert!(rt; band.answer(at + 1).units() == want);
    }
}

fn twice<L: Ledger>(rt: &impl Abort, alloc: Global, blank: Blank) -> Result<(), NoMemory>
    requires name { blank.name ≡ L.name }
    requires parts { blank.parts ≡ L.parts }
    requires some { 0 < blank.parts }
{
    let mut steps = mp_steps::start::<L>(blank);
    let mut band = Band::with_shape(alloc, 2_000, 20)?;
    fill_chain(rt, &mut band);
    assert!(rt; band.eliminate(fix(rt, 1_000), &mut steps).is_ok());
    all_are(rt, &band, ONE);
    band.clear();
    fill_apart(rt, &mut band);
    assert!(rt; band.eliminate(fix(rt, 1_000), &mut steps).is_ok());
    all_are(rt, &band, 2 * ONE);
    Ok(())
}

#[test]
fn two_large_systems(rt: HostRuntime) -> Result<(), NoMemory> {
    twice::<Brand>(&rt, rt.alloc(), Blank::new(1))
}
