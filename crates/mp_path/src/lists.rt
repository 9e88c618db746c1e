// What is in force in each period, and the options of a solver.
ghost use Rattle.std.specs.Prelude.{◌≡◌, ◌-◌, ◌≤◌, [], ◌∷◌, ◌++◌, length, slice_get, Some, OnOk, OnErr};

use mp_base::NoMemory;
use mp_fix::Fix;
use std::alloc::Global;
use std::marker::Model;

/// A bound of a pair of an equation and a variable (Dynare manual, "Perfect foresight", on mixed complementarity).
#[derive(Clone, Copy, Debug, PartialEq, Eq, PartialOrd, Ord)]
pub enum Side {
    Lower,
    Upper,
}

/// A side of an equation, by the equation's number from 1.
#[derive(Clone, Copy, Debug, PartialEq, Eq)]
pub struct Tagged {
    pub equation: u32,
    pub side: Side,
}

/// A side of an equation with its multiplier.
#[derive(Clone, Copy, Debug, PartialEq, Eq)]
pub struct Mult {
    pub place: Tagged,
    pub units: Fix,
}

/// A list for each period from 1 on.
#[derive(Drop)]
pub struct ByPeriod<T: Drop> {
    periods: Vec<Vec<T>>,
}

/// The numbers of the constraints that bind, from 1, in rising order (Dynare manual, "Occasionally binding constraints").
pub type Regimes = ByPeriod<u32>;

/// The sides at which variables stand, in rising order.
pub type Active = ByPeriod<Tagged>;

/// The multipliers of sides, in rising order.
pub type Mults = ByPeriod<Mult>;

impl<T: Drop> Model for ByPeriod<T> {
    ghost use Rattle.std.specs.Prelude.{List, map};

    ghost Value = { List (List T) };

    ghost view = { λ l. map (λ p. p.items) l.periods.items };
}

impl<T: Drop> ByPeriod<T> {
    /// No periods.
    pub fn new(alloc: Global) -> ByPeriod<T>
        ensures { result ≡ [] }
    {
        ByPeriod {
            periods: Vec::new(alloc),
        }
    }

    /// Appends the list of the next period, or changes nothing.
    pub fn add(&mut self, period: Vec<T>) -> Result<(), NoMemory>
        ensures ok { OnOk result (self.new ≡ self.old ++ period.items ∷ []) }
        ensures err { OnErr result (self.new ≡ self.old) }
    {
        match self.periods.push(period) {
            Ok(()) => Ok(()),
            Err(_) => Err(NoMemory),
        }
    }

    /// How many periods there are.
    pub fn periods(&self) -> usize
        ensures { result ≡ length self.now }
    {
        self.periods.len()
    }

    /// The list of a period, lent.
    pub fn period(&self, t: u32) -> &[T]
        requires first { 1 ≤ t }
        requires last { t ≤ length self.now }
        ensures { slice_get self.now (t - 1) ≡ Some result.now }
    {
        self.periods[t as usize - 1].as_slice()
    }
}

/// The options of a solver (Dynare manual, "Perfect foresight"): the greatest residual, the least pivot, and how many
/// steps and guesses are allowed.
#[derive(Clone, Copy, Debug)]
pub struct Options {
    pub tolerance: Fix,
    pub pivot: Fix,
    pub steps: u32,
    pub guesses: u32,
}
