// Fractions in lowest terms.
ghost use Rattle.std.specs.Prelude.{◌<◌, ◌≤◌};
ghost use Rattle.std.specs.Int.{IsGcd};
ghost use Rattle.std.specs.Int.RustNames.{unsigned_abs};
ghost use Rattle.mp_frac.specs.Limit.{limit};

/// A fraction in lowest terms, with a positive denominator and both parts at most 10^37 in magnitude.
#[derive(Clone, Copy, Debug, PartialEq, Eq)]
pub struct Frac {
    pub(crate) num: i128,
    pub(crate) den: u128,
    ghost positive: { 0 < den },
    ghost num_small: { unsigned_abs num ≤ limit },
    ghost den_small: { den ≤ limit },
    ghost coprime: { IsGcd (unsigned_abs num) den 1 },
}
