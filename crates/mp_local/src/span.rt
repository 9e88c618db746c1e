// Shifts together, and in differences.
ghost use Rattle.std.specs.Prelude.{◌≡◌, ◌≤◌, ◌^◌, ◌++◌, ℕ, ℤ, List, Some, min, unsigned_abs};
ghost use Rattle.mp_values.specs.Shifts.{differenced};
ghost use Rattle.mp_local.specs.Ends.{Spans, Tells, Leads};

use crate::ends::{Ends, FAR};

// A shift alone.
pub(crate) fn alone(shift: i128) -> Ends
    requires { unsigned_abs shift ≤ 2 ^ 124 }
    ensures least { result.least ≡ shift }
    ensures greatest { result.greatest ≡ shift }
{
    Ends {
        least: shift,
        greatest: shift,
    }
}

// The ends of two lists of shifts together.
pub(crate) fn joined(x: Option<Ends>, y: Option<Ends>) -> Option<Ends>
    ensures { (ks js : List ℤ) → Spans x ks → Spans y js → Spans result (ks ++ js) }
{
    let Some(a) = x else {
        return y;
    };
    let Some(b) = y else {
        return x;
    };
    Some(both(a, b))
}

fn both(a: Ends, b: Ends) -> Ends
    ensures { (ks js : List ℤ) → Spans (Some a) ks → Spans (Some b) js → Spans (Some result) (ks ++ js) }
{
    Ends {
        least: a.least.min(b.least),
        greatest: a.greatest.max(b.greatest),
    }
}

// The ends in so many differences; or, where that is beyond the limit, the greatest shift either way, but at most 2^124.
pub(crate) fn in_differences(ends: Ends, depth: u128, limit: u32) -> Result<Ends, u128>
    requires { depth ≤ 2 ^ 125 }
    ensures { (d : ℕ) (ks : List ℤ) → depth ≡ min d (2 ^ 125) → Tells (Some ends) ks → Leads limit result (differenced d ks) }
{
    let least = ends.least - depth as i128;
    let most = least.unsigned_abs().max(ends.greatest.unsigned_abs());
    if most > limit as u128 {
        return Err(most.min(FAR));
    }
    Ok(Ends {
        least,
        greatest: ends.greatest,
    })
}
