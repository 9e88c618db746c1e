// One column: its pivot row, its place, and the rows below it.
ghost use Rattle.std.specs.Prelude.{◌≡◌, ℕ, ◌+◌, ◌-◌, ◌*◌, ◌^◌, ◌<◌, ◌≤◌, pos, int_lt};
ghost use Rattle.std.specs.Int.RustNames.{unsigned_abs};
ghost use Rattle.mp_turns.specs.Turns.{each};
ghost use Rattle.mp_elim.specs.Elimination.{cleared, pivot_of, swapped, column as column_of};
ghost use Rattle.mp_sheet.specs.Layout.{IsKept, system_of};
ghost use Rattle.mp_sheet.specs.Walks.{Leads, IsWindow};

use crate::Sheet;
use crate::operations::is_zero;
use crate::rows::clear_row;
use mp_base::Steps;
use mp_elim::ElimFault;
use mp_fix::Fix;
use std::sync::ledger::Ledger;

/// How many units a number is from 0.
fn size(x: Fix) -> u128
    ensures { result ≡ unsigned_abs x }
{
    x.units().unsigned_abs()
}

/// The magnitude of a number.
fn magnitude(x: Fix) -> Fix
    ensures { result ≡ pos (unsigned_abs x) }
{
    if x.units() >= 0 {
        return x;
    }
    match Fix::of_units(-x.units()) {
        Ok(size) => size,
        Err(_) => unreachable!(),
    }
}

/// a < b.
fn is_below(a: Fix, b: Fix) -> bool
    ensures { result ≡ int_lt a b }
{
    a.units() < b.units()
}

/// The row that column `j` takes.
fn pivot(s: &Sheet, j: usize, low: usize) -> usize
    requires rows { low ≤ s.now.form.count }
    requires some { j < low }
    requires kept { (i : ℕ) → j ≤ i → i < low → IsKept s.now.form i j }
    ensures { result ≡ pivot_of low j (system_of s.now) }
{
    let mut best = j;
    let mut greatest = size(s.get(j, j));
    for i in j + 1..low {
        let next = size(s.get(i, j));
        if greatest < next {
            best = i;
            greatest = next;
        }
    }
    best
}

/// Rows `j` and `p` change places.
fn exchange(s: &mut Sheet, j: usize, p: usize, past: usize)
    requires rows { (j < s.old.form.count) × (p < s.old.form.count) }
    requires some { j < past }
    requires first { (k : ℕ) → j ≤ k → k < past → IsKept s.old.form j k }
    requires second { (k : ℕ) → j ≤ k → k < past → IsKept s.old.form p k }
    requires before { (k : ℕ) → k < j → ((system_of s.old).at j k ≡ pos 0) × ((system_of s.old).at p k ≡ pos 0) }
    requires behind { (k : ℕ) → past ≤ k → ((system_of s.old).at j k ≡ pos 0) × ((system_of s.old).at p k ≡ pos 0) }
    ensures system { system_of s.new ≡ swapped (system_of s.old) j p }
    ensures form { s.new.form ≡ s.old.form }
{
    if p == j {
        return;
    }
    let upper = s.place(j, j);
    let lower = s.place(p, j);
    for k in j..past {
        let first = s.get_from(upper, j, j, k);
        let other = s.get_from(lower, p, j, k);
        s.set_from(upper, j, j, k, other);
        s.set_from(lower, p, j, k, first);
    }
    let first = s.right(j);
    let second = s.right(p);
    s.set_right(j, second);
    s.set_right(p, first);
}

/// The rows below row `j` lose their entries in column `j`.
fn clear_below<L: Ledger>(
    s: &mut Sheet,
    j: usize,
    low: usize,
    past: usize,
    steps: &mut Steps<L>,
) -> Result<(), ElimFault>
    requires column { j + 1 < 2 ^ 32 }
    requires some { (j < low) × (j < past) }
    requires rows { low ≤ s.old.form.count }
    requires kept { (i k : ℕ) → j ≤ i → i < low → j ≤ k → k < past → IsKept s.old.form i k }
    ensures value { Leads result (each (cleared past j) (j + 1) (low - (j + 1)) (system_of s.old)) (system_of s.new) }
    ensures form { s.new.form ≡ s.old.form }
    ensures cost { steps.new ≤ steps.old + (low - (j + 1)) * (2 * (past - j) + 1) }
{
    for i in j + 1..low {
        match clear_row(s, j, i, past, steps) {
            Ok(()) => {}
            Err(e) => return Err(e),
        }
    }
    Ok(())
}

/// The column after the last entry of row `j` that is not 0, of those behind column `j` and before `past`.
fn end_of(s: &Sheet, j: usize, past: usize) -> usize
    requires some { j < past }
    requires kept { (k : ℕ) → j ≤ k → k < past → IsKept s.now.form j k }
    ensures behind { j < result }
    ensures within { result ≤ past }
    ensures zero { (k : ℕ) → result ≤ k → k < past → (system_of s.now).at j k ≡ pos 0 }
{
    let row = s.place(j, j);
    let mut end = past;
    while end > j + 1 {
        if !is_zero(s.get_from(row, j, j, end - 1)) {
            return end;
        }
        end -= 1;
    }
    end
}

/// Column `j`, over the rows before `low` and the columns before `past`.
pub(crate) fn column<L: Ledger>(
    s: &mut Sheet,
    j: usize,
    low: usize,
    past: usize,
    threshold: Fix,
    steps: &mut Steps<L>,
) -> Result<(), ElimFault>
    requires column { j + 1 < 2 ^ 32 }
    requires some { (j < low) × (j < past) }
    requires window { IsWindow s.old.form (system_of s.old) j low past }
    ensures value { Leads result (column_of threshold low past j (system_of s.old)) (system_of s.new) }
    ensures form { s.new.form ≡ s.old.form }
    ensures cost { steps.new ≤ steps.old + (low - (j + 1)) * (2 * (past - j) + 1) }
{
    let p = pivot(s, j, low);
    let value = magnitude(s.get(p, j));
    if is_below(value, threshold) {
        return Err(ElimFault::Pivot {
            column: (j + 1) as u32,
            value,
        });
    }
    exchange(s, j, p, past);
    let end = end_of(s, j, past);
    s.limited();
    clear_below(s, j, low, end, steps)
}
