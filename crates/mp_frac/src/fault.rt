// Why an operation on fractions has no result.

/// Why an operation on fractions is refused.
#[derive(Clone, Copy, Debug, PartialEq, Eq)]
pub enum FracFault {
    /// A stated part has a magnitude above 10^37.
    Overflow,
    /// The divisor is 0, or a zero base has a negative exponent.
    ZeroDivisor,
}
