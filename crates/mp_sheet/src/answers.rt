// The answers, from the last row to the first.
ghost use Rattle.std.specs.Prelude.{◌≡◌, ℕ, ◌+◌, ◌-◌, ◌*◌, ◌^◌, ◌<◌, ◌≤◌};
ghost use Rattle.mp_turns.specs.Turns.{each};
ghost use Rattle.mp_elim.specs.Elimination.{less_product as less_product_of, answered};
ghost use Rattle.mp_sheet.specs.Layout.{IsKept, system_of};
ghost use Rattle.mp_sheet.specs.Walks.{Leads};

use crate::Sheet;
use crate::operations::{less_product, over};
use mp_base::Steps;
use mp_elim::ElimFault;
use mp_fix::Fix;
use std::sync::ledger::Ledger;

/// The right side of row `j` less its products with the answers behind it.
fn rest_of<L: Ledger>(
    s: &Sheet,
    j: usize,
    past: usize,
    steps: &mut Steps<L>,
) -> Result<Fix, ElimFault>
    requires column { j + 1 < 2 ^ 32 }
    requires some { j < past }
    requires rows { past ≤ s.now.form.count }
    requires kept { (k : ℕ) → j ≤ k → k < past → IsKept s.now.form j k }
    ensures value { result ≡ each (λ k z. less_product_of j z ((system_of s.now).at j k) ((system_of s.now).right k)) (j + 1) (past - (j + 1)) ((system_of s.now).right j) }
    ensures cost { steps.new ≤ steps.old + 2 * (past - (j + 1)) }
{
    let row = s.place(j, j);
    let mut z = s.right(j);
    for k in j + 1..past {
        match less_product(j, z, s.get_from(row, j, j, k), s.right(k), steps) {
            Ok(y) => z = y,
            Err(e) => return Err(e),
        }
    }
    Ok(z)
}

/// The right side of row `j` gives way to its answer.
pub(crate) fn answer_row<L: Ledger>(
    s: &mut Sheet,
    j: usize,
    past: usize,
    steps: &mut Steps<L>,
) -> Result<(), ElimFault>
    requires column { j + 1 < 2 ^ 32 }
    requires some { j < past }
    requires rows { past ≤ s.old.form.count }
    requires kept { (k : ℕ) → j ≤ k → k < past → IsKept s.old.form j k }
    ensures value { Leads result (answered past j (system_of s.old)) (system_of s.new) }
    ensures form { s.new.form ≡ s.old.form }
    ensures cost { steps.new ≤ steps.old + 2 * (past - j) }
{
    let z = match rest_of(s, j, past, steps) {
        Ok(z) => z,
        Err(e) => return Err(e),
    };
    match over(j, z, s.get(j, j), steps) {
        Ok(x) => {
            s.set_right(j, x);
            Ok(())
        }
        Err(e) => Err(e),
    }
}
