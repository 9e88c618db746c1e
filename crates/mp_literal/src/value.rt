// A number with places.

/// The number m / 10^s, with s least.
#[derive(Clone, Copy, Debug, PartialEq, Eq)]
pub struct Decimal {
    pub m: u128,
    pub s: u8,
}
