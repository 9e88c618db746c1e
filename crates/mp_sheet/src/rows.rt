// One row less a multiple of another.
ghost use Rattle.std.specs.Prelude.{◌≡◌, ℕ, ◌+◌, ◌-◌, ◌*◌, ◌^◌, ◌<◌, ◌≤◌};
ghost use Rattle.mp_turns.specs.Turns.{each};
ghost use Rattle.mp_elim.specs.Elimination.{lessened, less_row, cleared};
ghost use Rattle.mp_sheet.specs.Layout.{IsKept, place_of, system_of};
ghost use Rattle.mp_sheet.specs.Walks.{Leads};

use crate::Sheet;
use crate::operations::{is_zero, less_product, over, zero};
use mp_base::Steps;
use mp_elim::ElimFault;
use mp_fix::Fix;
use std::sync::ledger::Ledger;

/// A row and the pivot row of a column, with the places of their entries in it.
#[derive(Drop)]
struct Rows {
    column: usize,
    row: usize,
    source: usize,
    target: usize,
}

/// The entry of the row in column `k` less `f` times that of the pivot row.
#[inline]
fn lessen_entry<L: Ledger>(
    s: &mut Sheet,
    rows: &Rows,
    f: Fix,
    k: usize,
    steps: &mut Steps<L>,
) -> Result<(), ElimFault>
    requires column { rows.now.column + 1 < 2 ^ 32 }
    requires source { rows.now.source ≡ place_of s.old.form rows.now.column rows.now.column }
    requires target { rows.now.target ≡ place_of s.old.form rows.now.row rows.now.column }
    requires behind { rows.now.column ≤ k }
    requires first { IsKept s.old.form rows.now.column rows.now.column × IsKept s.old.form rows.now.row rows.now.column }
    requires kept { IsKept s.old.form rows.now.column k × IsKept s.old.form rows.now.row k }
    ensures value { Leads result (lessened rows.now.column rows.now.row f k (system_of s.old)) (system_of s.new) }
    ensures form { s.new.form ≡ s.old.form }
    ensures cost { steps.new ≤ steps.old + 2 }
{
    let j = rows.column;
    let x = s.get_from(rows.source, j, j, k);
    let z = s.get_from(rows.target, rows.row, j, k);
    if is_zero(x) {
        let _limited = z.units();
        return Ok(());
    }
    match less_product(j, z, f, x, steps) {
        Ok(y) => {
            s.set_from(rows.target, rows.row, j, k, y);
            Ok(())
        }
        Err(e) => Err(e),
    }
}

/// Row `i` less `f` times row `j`, behind column `j` and before column `past`.
fn lessen<L: Ledger>(
    s: &mut Sheet,
    j: usize,
    i: usize,
    f: Fix,
    past: usize,
    steps: &mut Steps<L>,
) -> Result<(), ElimFault>
    requires column { j + 1 < 2 ^ 32 }
    requires some { j < past }
    requires target { (k : ℕ) → j ≤ k → k < past → IsKept s.old.form i k }
    requires source { (k : ℕ) → j ≤ k → k < past → IsKept s.old.form j k }
    ensures value { Leads result (each (lessened j i f) (j + 1) (past - (j + 1)) (system_of s.old)) (system_of s.new) }
    ensures form { s.new.form ≡ s.old.form }
    ensures cost { steps.new ≤ steps.old + 2 * (past - (j + 1)) }
{
    let rows = Rows {
        column: j,
        row: i,
        source: s.place(j, j),
        target: s.place(i, j),
    };
    for k in j + 1..past {
        match lessen_entry(s, &rows, f, k, steps) {
            Ok(()) => {}
            Err(e) => return Err(e),
        }
    }
    Ok(())
}

/// The same with the right side, and 0 in column `j`.
fn take_away<L: Ledger>(
    s: &mut Sheet,
    j: usize,
    i: usize,
    f: Fix,
    past: usize,
    steps: &mut Steps<L>,
) -> Result<(), ElimFault>
    requires column { j + 1 < 2 ^ 32 }
    requires rows { (i < s.old.form.count) × (j < s.old.form.count) }
    requires some { j < past }
    requires target { (k : ℕ) → j ≤ k → k < past → IsKept s.old.form i k }
    requires source { (k : ℕ) → j ≤ k → k < past → IsKept s.old.form j k }
    ensures value { Leads result (less_row past j i f (system_of s.old)) (system_of s.new) }
    ensures form { s.new.form ≡ s.old.form }
    ensures cost { steps.new ≤ steps.old + 2 * (past - j) }
{
    match lessen(s, j, i, f, past, steps) {
        Ok(()) => {}
        Err(e) => return Err(e),
    }
    match less_product(j, s.right(i), f, s.right(j), steps) {
        Ok(x) => {
            s.set_right(i, x);
            s.set(i, j, zero());
            Ok(())
        }
        Err(e) => Err(e),
    }
}

/// Row `i` loses its entry in column `j`.
pub(crate) fn clear_row<L: Ledger>(
    s: &mut Sheet,
    j: usize,
    i: usize,
    past: usize,
    steps: &mut Steps<L>,
) -> Result<(), ElimFault>
    requires column { j + 1 < 2 ^ 32 }
    requires rows { (i < s.old.form.count) × (j < s.old.form.count) }
    requires some { j < past }
    requires target { (k : ℕ) → j ≤ k → k < past → IsKept s.old.form i k }
    requires source { (k : ℕ) → j ≤ k → k < past → IsKept s.old.form j k }
    ensures value { Leads result (cleared past j i (system_of s.old)) (system_of s.new) }
    ensures form { s.new.form ≡ s.old.form }
    ensures cost { steps.new ≤ steps.old + 2 * (past - j) + 1 }
{
    let head = s.get(i, j);
    if is_zero(head) {
        return Ok(());
    }
    match over(j, head, s.get(j, j), steps) {
        Ok(f) => take_away(s, j, i, f, past, steps),
        Err(e) => Err(e),
    }
}
