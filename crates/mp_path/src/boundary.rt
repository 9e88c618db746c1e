// What stands beside a path.
ghost use Rattle.std.specs.Prelude.{◌≡◌, ◌+◌, ◌*◌, ◌^◌, ◌<◌, ◌≤ℤ◌, ℕ, ℤ, negsuc, map, slice_get, Some, IsSome, IfOk};
ghost use Rattle.mp_expr.specs.Shown.{place_of, variable_of};
ghost use Rattle.mp_frac.specs.Value.{value_of};
ghost use Rattle.mp_semantics.specs.Term.{Variable};
ghost use Rattle.mp_path.specs.Edges.{edge_of, listed_edge, parameter_of, periods_to, outside_to};

use mp_base::NoMemory;
use mp_expr::VarId;
use mp_frac::Frac;
use std::marker::Model;

/// How many periods beside the horizon have values of an endogenous variable: 25 up to period 0 and 24 behind the last.
const BESIDE: usize = 49;

/// The values that a model has beside a path over the periods 1 to `periods`: those of its parameters, of its
/// endogenous variables before and behind these periods, and of its exogenous variables.
#[derive(Drop)]
pub struct Boundary {
    periods: u32,
    parameters: Vec<Frac>,
    endogenous: Vec<Frac>,
    exogenous: Vec<Frac>,
}

impl Model for Boundary {
    ghost use Rattle.std.specs.Prelude.{map};
    ghost use Rattle.mp_frac.specs.Value.{value_of};
    ghost use Rattle.mp_path.specs.Edges.{Edges, edges_code};

    ghost Value = { Edges };

    ghost coded = { edges_code };

    ghost view = { λ b. record {
      periods = b.periods;
      parameters = map value_of b.parameters.items;
      endogenous = map value_of b.endogenous.items;
      exogenous = map value_of b.exogenous.items;
    } };
}

impl Boundary {
    /// Of each endogenous variable in turn the values in the periods from -24 to 0 and in the 24 behind the last one, and
    /// of each exogenous variable in turn those in all periods from -24 to 24 behind the last one.
    pub fn new(
        periods: u32,
        parameters: Vec<Frac>,
        endogenous: Vec<Frac>,
        exogenous: Vec<Frac>,
    ) -> Boundary
        ensures periods { result.periods ≡ periods }
        ensures parameters { (p : ℕ) → parameter_of result p ≡ slice_get (map value_of parameters.items) p }
        ensures values { (x : Variable) (t : ℤ) → edge_of result x t ≡ listed_edge periods (map value_of endogenous.items) (map value_of exogenous.items) x t }
    {
        Boundary {
            periods,
            parameters,
            endogenous,
            exogenous,
        }
    }

    /// The last period of the horizon.
    pub fn periods(&self) -> u32
        ensures { result ≡ self.now.periods }
    {
        self.periods
    }

    /// The value of a parameter, by its number from 1.
    pub fn param(&self, p: u32) -> Frac
        requires { IsSome (parameter_of self.now (place_of p)) }
        ensures { parameter_of self.now (place_of p) ≡ Some (value_of result) }
    {
        self.parameters[place_of(p) as usize]
    }

    /// The value of a variable in a period from -24 to 24 behind the last one; of an endogenous one outside the horizon.
    pub fn value(&self, t: i32, v: VarId) -> Frac
        requires { IsSome (edge_of self.now (variable_of v) t) }
        ensures { edge_of self.now (variable_of v) t ≡ Some (value_of result) }
    {
        match v {
            VarId::Endo(n) => self.endogenous[place(n, BESIDE, outside_to(self.periods, t))],
            VarId::Exo(n) => {
                self.exogenous[place(n, self.periods as usize + BESIDE, periods_to(t))]
            }
        }
    }

    /// A copy.
    pub(crate) fn copy(&self) -> Result<Boundary, NoMemory>
        ensures { IfOk result (λ b. b ≡ self.now) }
    {
        Ok(Boundary {
            periods: self.periods,
            parameters: self.parameters.clone()?,
            endogenous: self.endogenous.clone()?,
            exogenous: self.exogenous.clone()?,
        })
    }
}

/// The place of the value after `before` others of the variable `n`, from 1, of `width` values each.
fn place(n: u32, width: usize, before: usize) -> usize
    requires { place_of n * width + before < 2 ^ 64 }
    ensures { result ≡ place_of n * width + before }
{
    place_of(n) as usize * width + before
}

/// The place, from 0, of a name by its number from 1.
pub(crate) fn place_of(n: u32) -> u32
    ensures { result ≡ place_of n }
{
    if n == 0 { u32::MAX } else { n - 1 }
}

/// How many periods stand from -24 on before period `t`.
fn periods_to(t: i32) -> usize
    requires { negsuc 23 ≤ℤ t }
    ensures { result ≡ periods_to t }
{
    (t as i64 + 24) as usize
}

/// The same without those of the horizon.
fn outside_to(periods: u32, t: i32) -> usize
    requires { negsuc 23 ≤ℤ t }
    ensures { result ≡ outside_to periods t }
{
    let all = periods_to(t);
    if all <= 24 {
        all
    } else {
        all.saturating_sub(periods as usize)
    }
}
