//! Derivatives of expressions: dual numbers, the derivative as an expression, and the places by which there is one. The
//! definitions stand in specs/; the functions here state laws, and do nothing.
#![tactic(auto)]

ghost use Rattle.std.specs.Prelude.{◌≡◌, ◌↔◌, ℤ, List, Some};
ghost use Rattle.std.specs.List.{Contains};
ghost use Rattle.std.specs.List.Sorted.{IsStrictlySortedBy};
ghost use Rattle.mp_semantics.specs.Term.{Term, Variable};
ghost use Rattle.mp_semantics.specs.Value.{Environment, val};
ghost use Rattle.mp_slopes.specs.Derivative.{derivative_of};
ghost use Rattle.mp_slopes.specs.Dual.{Dual, dual};
ghost use Rattle.mp_slopes.specs.Places.{Place, Occurs, place_cmp, places};

/// Where an expression has a dual number, that holds its value, and its derivative has the slope as its value.
pub fn derivative_law()
    ensures real { (e : Term) (v : Variable) (k : ℤ) (env : Environment) (t : ℤ) (d : Dual) → dual e v k env t ≡ Some d → val e env t ≡ Some d.real }
    ensures slope { (e : Term) (v : Variable) (k : ℤ) (env : Environment) (t : ℤ) (d : Dual) → dual e v k env t ≡ Some d → val (derivative_of e v k) env t ≡ Some d.slope }
{
    mp_rational::ring_laws();
    mp_rational::field_laws();
    mp_rational::order_laws();
    mp_rational::ratio_laws();
}

/// The places of an expression are those that occur in it and no others, in order, each once; no other list is.
pub fn places_law()
    ensures rising { (t : Term) → IsStrictlySortedBy place_cmp (places t) }
    ensures exact { (t : Term) (p : Place) → Contains (places t) p ↔ Occurs p t }
    ensures only { (t : Term) (ps : List Place) → IsStrictlySortedBy place_cmp ps → ((p : Place) → Contains ps p ↔ Occurs p t) → ps ≡ places t }
{}
