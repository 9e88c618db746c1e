// The values of a path.
ghost use Rattle.std.specs.Prelude.{◌≡◌, ◌+◌, ◌-◌, ◌*◌, ◌≤◌, ◌<◌, ℤ, pos, option_map, length, Some, IsSome, IfOk};
ghost use Rattle.mp_expr.specs.Shown.{place_of, variable_of};
ghost use Rattle.mp_semantics.specs.Term.{Variable, endogenous};
ghost use Rattle.mp_semantics.specs.Solves.{is_inside};
ghost use Rattle.mp_walk.specs.Cells.{units, exact};
ghost use Rattle.mp_path.specs.Edges.{edge_of, parameter_of};
ghost use Rattle.mp_path.specs.Points.{point_of, slot_place, cell_of, ratio_value, AllSlots, IsFilled, IsCell, IsPart};

use crate::boundary::{Boundary, place_of};
use mp_base::{NoMemory, Ratio};
use mp_expr::VarId;
use mp_fix::Fix;
use std::alloc::Global;
use std::marker::Model;

/// A number of units of 10^-12, or a fraction that is still to be rounded.
#[derive(Clone, Copy, Debug)]
pub enum Cell {
    Units(Fix),
    Exact(Ratio),
}

/// The numbers of a path: those of its slots, which are the endogenous variables, in the periods of the horizon, and
/// the boundary beside them.
#[derive(Drop)]
pub struct Grid {
    boundary: Boundary,
    slots: u32,
    units: Vec<Fix>,
}

impl Model for Grid {
    ghost use Rattle.std.specs.Prelude.{◌≡◌, ◌*◌, length};
    ghost use Rattle.mp_path.specs.Points.{Points, points_code};

    ghost Value = { Points };

    ghost coded = { points_code };

    ghost view = { λ g. record { edges = g.boundary; slots = g.slots; units = g.units.items } };

    ghost invariant = { λ g. length g.units.items ≡ g.boundary.periods * g.slots };
}

impl Grid {
    /// So many slots in each of the periods for which the boundary was made, with 0 in each, and a copy of the boundary.
    /// All its memory is taken here.
    pub fn with_shape(
        alloc: Global,
        periods: u32,
        slots: u32,
        boundary: &Boundary,
    ) -> Result<Grid, NoMemory>
        requires { periods ≡ boundary.now.periods }
        ensures edges { IfOk result (λ g. g.edges ≡ boundary.now) }
        ensures slots { IfOk result (λ g. g.slots ≡ slots) }
        ensures zero { IfOk result (AllSlots (λ q. q ≡ Some (units (pos 0)))) }
    {
        let units = vec![in alloc; zero(); periods as usize * slots as usize]?;
        Ok(Grid {
            boundary: boundary.copy()?,
            slots,
            units,
        })
    }

    /// The number of a variable in a period: that of its slot inside the horizon, and a fraction elsewhere.
    pub fn get(&self, t: i32, v: VarId) -> Cell
        requires { IsSome (point_of self.now (variable_of v) t) }
        ensures value { point_of self.now (variable_of v) t ≡ Some (cell_of result) }
        ensures within { IsCell result }
    {
        match v {
            VarId::Endo(n) if self.is_inside(t) => {
                Cell::Units(self.units[self.place(t as u32, place_of(n))])
            }
            VarId::Endo(_) => self.exact(t, v),
            VarId::Exo(_) => self.exact(t, v),
        }
    }

    // The fraction that stands for a variable in a period.
    fn exact(&self, t: i32, v: VarId) -> Cell
        requires { IsSome (edge_of self.now.edges (variable_of v) t) }
        ensures value { option_map exact (edge_of self.now.edges (variable_of v) t) ≡ Some (cell_of result) }
        ensures within { IsCell result }
    {
        Cell::Exact(self.boundary.value(t, v).parts())
    }

    /// Puts a number into a slot, from 1, of a period of the horizon.
    pub fn set(&mut self, t: u32, slot: u32, value: Fix)
        requires period { (1 ≤ t) × (t ≤ self.old.edges.periods) }
        requires slot { (1 ≤ slot) × (slot ≤ self.old.slots) }
        ensures place { point_of self.new (endogenous (slot - 1)) (pos t) ≡ Some (units value) }
        ensures others { (x : Variable) (u : ℤ) → (x ≡ endogenous (slot - 1) → u ≡ pos t → ⊥) → point_of self.new x u ≡ point_of self.old x u }
        ensures edges { self.new.edges ≡ self.old.edges }
        ensures slots { self.new.slots ≡ self.old.slots }
    {
        let at = self.place(t, slot - 1);
        self.units[at] = value;
    }

    /// The value of a parameter, by its number from 1.
    pub fn param(&self, p: u32) -> Ratio
        requires { IsSome (parameter_of self.now.edges (place_of p)) }
        ensures value { parameter_of self.now.edges (place_of p) ≡ Some (ratio_value result) }
        ensures within { IsPart result }
    {
        self.boundary.param(p).parts()
    }

    /// The last period of the horizon, in each of whose periods each slot has a number.
    pub fn periods(&self) -> u32
        ensures value { result ≡ self.now.edges.periods }
        ensures filled { IsFilled self.now }
    {
        self.boundary.periods()
    }

    // Whether a period is one of the horizon.
    fn is_inside(&self, t: i32) -> bool
        ensures { result ≡ is_inside self.now.edges.periods t }
    {
        t >= 1 && t as i64 <= self.boundary.periods() as i64
    }

    // Where a slot, from 0, of a period stands.
    fn place(&self, t: u32, slot: u32) -> usize
        requires period { (1 ≤ t) × (t ≤ self.now.edges.periods) }
        requires slot { slot < self.now.slots }
        ensures value { result ≡ slot_place self.now.slots t slot }
        ensures inside { result < length self.now.units }
    {
        (t - 1) as usize * self.slots as usize + slot as usize
    }
}

fn zero() -> Fix
    ensures { result ≡ pos 0 }
{
    match Fix::of_units(0) {
        Ok(x) => x,
        Err(_) => unreachable!(),
    }
}
