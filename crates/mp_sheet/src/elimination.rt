// All columns, and then all answers.
ghost use Rattle.std.specs.Prelude.{◌≡◌, ◌+◌, ◌-◌, ◌*◌, ◌^◌, ◌<◌, ◌≤◌, min};
ghost use Rattle.mp_turns.specs.Turns.{each, each_down};
ghost use Rattle.mp_elim.specs.Elimination.{column as column_of, answered, whole};
ghost use Rattle.mp_elim.specs.Shape.{IsTridiagonal, IsSmall, low_of, past_of};
ghost use Rattle.mp_sheet.specs.Layout.{IsRoomy, system_of};
ghost use Rattle.mp_sheet.specs.Walks.{Leads};

use crate::Sheet;
use crate::answers::answer_row;
use crate::columns::column;
use mp_base::Steps;
use mp_elim::ElimFault;
use mp_fix::Fix;
use std::sync::ledger::Ledger;

fn lesser(a: usize, b: usize) -> usize
    ensures { result ≡ min a b }
{
    if a < b { a } else { b }
}

/// The row after the last one that column `j` works on.
fn low(n: usize, m: usize, j: usize) -> usize
    requires some { 0 < n }
    requires column { j < m }
    requires block { n < 2 ^ 32 }
    requires small { m < 2 ^ 32 }
    ensures { result ≡ low_of n m j }
{
    lesser(j / n * n + 2 * n, m)
}

/// The column after the last one that column `j` works on.
fn past(n: usize, m: usize, j: usize) -> usize
    requires some { 0 < n }
    requires column { j < m }
    requires block { n < 2 ^ 32 }
    requires small { m < 2 ^ 32 }
    ensures { result ≡ past_of n m j }
{
    lesser(j / n * n + 3 * n, m)
}

/// Each column in turn.
fn forward<L: Ledger>(s: &mut Sheet, threshold: Fix, steps: &mut Steps<L>) -> Result<(), ElimFault>
    requires some { 0 < s.old.form.block }
    requires block { s.old.form.block < 2 ^ 32 }
    requires small { s.old.form.count < 2 ^ 32 }
    requires right { IsSmall (system_of s.old) }
    requires roomy { IsRoomy s.old.form }
    requires shape { IsTridiagonal s.old.form.block (system_of s.old) }
    ensures value { Leads result (each (λ j. column_of threshold (low_of s.old.form.block s.old.form.count j) (past_of s.old.form.block s.old.form.count j) j) 0 s.old.form.count (system_of s.old)) (system_of s.new) }
    ensures form { s.new.form ≡ s.old.form }
    ensures cost { steps.new ≤ steps.old + s.old.form.count * (12 * s.old.form.block * s.old.form.block) }
{
    let n = s.block();
    let m = s.count();
    for j in 0..m {
        match column(s, j, low(n, m, j), past(n, m, j), threshold, steps) {
            Ok(()) => {}
            Err(e) => return Err(e),
        }
    }
    Ok(())
}

/// Each answer, from the last.
fn backward<L: Ledger>(s: &mut Sheet, steps: &mut Steps<L>) -> Result<(), ElimFault>
    requires some { 0 < s.old.form.block }
    requires block { s.old.form.block < 2 ^ 32 }
    requires small { s.old.form.count < 2 ^ 32 }
    requires roomy { IsRoomy s.old.form }
    ensures value { Leads result (each_down (λ j. answered (past_of s.old.form.block s.old.form.count j) j) s.old.form.count (system_of s.old)) (system_of s.new) }
    ensures form { s.new.form ≡ s.old.form }
    ensures cost { steps.new ≤ steps.old + s.old.form.count * (6 * s.old.form.block) }
{
    let n = s.block();
    let m = s.count();
    let mut j = m;
    while j > 0 {
        j -= 1;
        match answer_row(s, j, past(n, m, j), steps) {
            Ok(()) => {}
            Err(e) => return Err(e),
        }
    }
    Ok(())
}

/// The answers take the places of the right sides.
pub fn eliminate<L: Ledger>(
    s: &mut Sheet,
    threshold: Fix,
    steps: &mut Steps<L>,
) -> Result<(), ElimFault>
    requires block { s.old.form.block < 2 ^ 32 }
    requires small { s.old.form.count < 2 ^ 32 }
    requires roomy { IsRoomy s.old.form }
    requires shape { IsTridiagonal s.old.form.block (system_of s.old) }
    ensures value { Leads result (whole s.old.form.count threshold (system_of s.old)) (system_of s.new) }
    ensures form { s.new.form ≡ s.old.form }
    ensures cost { steps.new ≤ steps.old + s.old.form.count * (12 * s.old.form.block * s.old.form.block + 6 * s.old.form.block) }
{
    let _some = s.block();
    let _right = s.count();
    match forward(s, threshold, steps) {
        Ok(()) => backward(s, steps),
        Err(e) => Err(e),
    }
}
