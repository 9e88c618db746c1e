// How many operations derivatives have at most.
ghost use Rattle.std.specs.Prelude.{◌≤◌, ℕ};
ghost use Rattle.mp_semantics.specs.Term.{Term};
ghost use Rattle.mp_derivatives.specs.Bound.{bound_of};
ghost use Rattle.mp_derivatives.specs.Derivatives.{derivatives_of, operations};

/// The derivatives of a residual, by all places that occur in it, have together at most as many operations as its bound,
/// whatever the number of its equation.
pub fn bound_law()
    ensures { (i : ℕ) (F : Term) → operations (derivatives_of i F) ≤ bound_of F }
{
    mp_slopes::places_law();
}
