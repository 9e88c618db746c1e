// The least and the greatest of several shifts.
ghost use Rattle.std.specs.Prelude.{◌≤◌, ◌^◌, unsigned_abs};

// Shifts are told up to 2^124 periods either way, and depths up to twice that, so that no sum of both is too large.
pub(crate) const FAR: u128 = 21267647932558653966460912964485513216;

pub(crate) const DEEP: u128 = 42535295865117307932921825928971026432;

/// The least and the greatest of several shifts. Each is at most 2^124 periods either way.
#[derive(Clone, Copy, Debug)]
pub(crate) struct Ends {
    pub(crate) least: i128,
    pub(crate) greatest: i128,
    ghost least_near: { unsigned_abs least ≤ 2 ^ 124 },
    ghost greatest_near: { unsigned_abs greatest ≤ 2 ^ 124 },
}
