// Fractions as they are reported.

/// The fraction n/d, as outcomes report it.
#[derive(Clone, Copy, Debug, PartialEq, Eq)]
pub struct Ratio {
    pub n: i128,
    pub d: i128,
}
