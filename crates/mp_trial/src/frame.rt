// A grid that can be asked what it has.
ghost use Rattle.std.specs.Prelude.{◌≡◌, ◌≤◌, ◌<◌, ◌^◌, pos, true, IsSome, IsTrue, IfOk};
ghost use Rattle.mp_expr.specs.Shown.{variable_of};
ghost use Rattle.mp_semantics.specs.Solves.{is_inside, is_near};
ghost use Rattle.mp_walk.specs.Cells.{cell_at};
ghost use Rattle.mp_path.specs.Points.{cells_of, point_of, IsFilled};
ghost use Rattle.mp_graph.specs.Op.{leaf_of};

use mp_base::NoMemory;
use mp_expr::VarId;
use mp_fix::Fix;
use mp_frac::Frac;
use mp_graph::LeafOp;
use mp_path::{Boundary, Grid};
use std::alloc::Global;
use std::marker::Model;

/// A grid, and for how many names it has values.
#[derive(Drop)]
pub struct Frame {
    grid: Grid,
    slots: u32,
    parameters: usize,
    endogenous: usize,
    exogenous: usize,
}

impl Model for Frame {
    ghost use Rattle.std.specs.Prelude.{◌≡◌};
    ghost use Rattle.mp_path.specs.Points.{Points, points_code};
    ghost use Rattle.mp_trial.specs.Full.{IsFull};

    ghost Value = { Points };

    ghost coded = { points_code };

    ghost view = { λ f. f.grid };

    ghost invariant = { λ f. (f.slots ≡ f.grid.slots) × IsFull f.grid.edges f.parameters f.endogenous f.exogenous };
}

impl Frame {
    /// A grid with 0 in its slots over a boundary of these values.
    pub fn new(
        alloc: Global,
        periods: u32,
        slots: u32,
        parameters: Vec<Frac>,
        endogenous: Vec<Frac>,
        exogenous: Vec<Frac>,
    ) -> Result<Frame, NoMemory>
        ensures periods { IfOk result (λ f. f.edges.periods ≡ periods) }
        ensures slots { IfOk result (λ f. f.slots ≡ slots) }
    {
        let parameter_count = parameters.len();
        let endogenous_count = endogenous.len() / 49;
        let exogenous_count = exogenous.len() / (periods as usize + 49);
        let boundary = Boundary::new(periods, parameters, endogenous, exogenous);
        let grid = Grid::with_shape(alloc, periods, slots, &boundary)?;
        Ok(Frame {
            grid,
            slots,
            parameters: parameter_count,
            endogenous: endogenous_count,
            exogenous: exogenous_count,
        })
    }

    /// The grid, lent.
    pub fn grid(&self) -> &Grid
        ensures { result.now ≡ self.now }
    {
        &self.grid
    }

    /// Puts a number into a slot of a period.
    pub fn set(&mut self, t: u32, slot: u32, value: Fix)
        requires period { (1 ≤ t) × (t ≤ self.old.edges.periods) }
        requires slot { (1 ≤ slot) × (slot ≤ self.old.slots) }
        ensures edges { self.new.edges ≡ self.old.edges }
        ensures slots { self.new.slots ≡ self.old.slots }
    {
        self.grid.set(t, slot, value);
    }

    /// Whether something stands for a leaf in a period.
    pub fn has(&self, leaf: LeafOp, t: u32) -> bool
        requires period { t < 2 ^ 30 }
        requires horizon { self.now.edges.periods < 2 ^ 30 }
        ensures { IsTrue result → IsSome (cell_at (cells_of self.now) (pos t) (leaf_of leaf)) }
    {
        match leaf {
            LeafOp::Num { .. } => true,
            LeafOp::Param(p) => p >= 1 && (p as usize) <= self.parameters,
            LeafOp::Var { v, shift } => self.has_value(t as i32 + shift as i32, v),
            LeafOp::Anchor(v) => { self.has_value(self.grid.periods() as i32 + 1, VarId::Endo(v)) }
        }
    }

    // Whether something stands for a variable.
    fn has_value(&self, t: i32, v: VarId) -> bool
        ensures { IsTrue result → IsSome (point_of self.now (variable_of v) t) }
    {
        match v {
            VarId::Endo(n) if self.is_inside(t) => self.has_slot(t, n),
            VarId::Endo(n) => n >= 1 && n as usize <= self.endogenous && self.is_near(t),
            VarId::Exo(n) => n >= 1 && n as usize <= self.exogenous && self.is_near(t),
        }
    }

    // Whether a variable has a slot.
    #[tactic(auto, using(crate::proofs::Slots::slot_there))]
    fn has_slot(&self, t: i32, n: u32) -> bool
        requires filled { IsFilled self.now }
        requires inside { is_inside self.now.edges.periods t ≡ true }
        ensures { IsTrue result → IsSome (point_of self.now (variable_of (VarId.Endo n)) t) }
    {
        n >= 1 && n <= self.slots
    }

    fn is_inside(&self, t: i32) -> bool
        ensures value { result ≡ is_inside self.now.edges.periods t }
        ensures filled { IsFilled self.now }
    {
        let periods = self.grid.periods();
        t >= 1 && t as i64 <= periods as i64
    }

    fn is_near(&self, t: i32) -> bool
        ensures { result ≡ is_near self.now.edges.periods t }
    {
        t >= -24 && t as i64 <= self.grid.periods() as i64 + 24
    }
}
