// Auxiliary variables.

/// Towards later periods, or earlier ones.
#[derive(Clone, Copy)]
pub enum Direction {
    Lead,
    Lag,
}

/// An auxiliary variable: it stands for the endogenous variable at this place, from 0, `index` + 1 periods that way.
#[derive(Clone, Copy)]
pub struct Auxiliary {
    pub place: u32,
    pub direction: Direction,
    pub index: u16,
}
