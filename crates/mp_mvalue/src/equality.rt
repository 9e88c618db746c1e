// Whether values are the same.
ghost use Rattle.std.specs.Prelude.{◌≡◌};
ghost use Rattle.std.specs.List.{list_any};
ghost use Rattle.mp_mvalue.specs.Shared.{unshared, all_unshared};
ghost use Rattle.mp_mvalue.specs.Values.{same, same_all};

use crate::sharing::SharedValue;

/// Whether both are of the same kind with the same content.
#[cycle(same)]
#[tactic(auto, using(crate::proofs::Rows::lists))]
pub fn same(a: &SharedValue, b: &SharedValue) -> bool
    ensures { result ≡ same (unshared a.now) (unshared b.now) }
{
    match (a, b) {
        (SharedValue::Whole(m), SharedValue::Whole(n)) => *m == *n,
        (SharedValue::Truth(s), SharedValue::Truth(t)) => *s == *t,
        (SharedValue::Text(s), SharedValue::Text(t)) => s.as_ref().as_slice()
            == t.as_ref().as_slice(),
        (SharedValue::List(xs), SharedValue::List(ys)) => {
            same_all(xs.as_ref().as_slice(), ys.as_ref().as_slice())
        }
        _ => false,
    }
}

#[cycle(same)]
fn same_all(xs: &[SharedValue], ys: &[SharedValue]) -> bool
    ensures { result ≡ same_all (all_unshared xs.now) (all_unshared ys.now) }
{
    if xs.len() != ys.len() {
        return false;
    }
    for (x, y) in xs.iter().zip(ys) {
        if !same(x, y) {
            return false;
        }
    }
    true
}

/// Whether one of these is the same as the value.
pub fn is_among(values: &[SharedValue], value: &SharedValue) -> bool
    ensures { result ≡ list_any (λ x. same (unshared value.now) (unshared x)) values.now }
{
    values.iter().any(|x| same(value, x))
}
