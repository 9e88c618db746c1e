// How high and how large the equations of a model are.
ghost use Rattle.std.specs.Prelude.{◌≡◌, ◌<◌, ◌≤◌, ◌^◌, map, min, sum, length, IfOk};
ghost use Rattle.std.specs.List.{All, AllByRecursion};
ghost use Rattle.mp_model_data.specs.Shown.{sides_of, model_data};
ghost use Rattle.mp_local.specs.Sizes.{greatest, greatest_height, operations, side_rows};

use mp_base::NoMemory;
use mp_graph::{all_counts, all_heights, row_at};
use mp_model_data::{Equation, Model};
use std::alloc::Global;

// Where a sum of counts stops.
const COUNT_LIMIT: u128 = 10000000000000000000000000000000000000;

/// The greatest height of a side of an equation: how many nodes its longest way down has. Each node is asked once.
pub fn greatest_height(alloc: Global, model: &Model<'_>) -> Result<u64, NoMemory>
    ensures { IfOk result (λ n. n ≡ greatest_height (model_data model.now)) }
{
    let heights = all_heights(alloc, model.graph())?;
    Ok(greatest_row(&heights, model.equations()))
}

/// How many operations stand in all sides of the equations, as in their trees: a shared operand counts wherever it stands.
/// Stops at 10^37. Each node is asked once.
pub fn operations(alloc: Global, model: &Model<'_>) -> Result<u128, NoMemory>
    ensures { IfOk result (λ n. n ≡ min (operations (model_data model.now)) (10 ^ 37)) }
{
    let counts = all_counts(alloc, model.graph())?;
    Ok(sum_of_rows(&counts, model.equations()))
}

// The greatest row of a side.
fn greatest_row(rows: &[u64], equations: &[Equation]) -> u64
    requires { AllByRecursion (λ x. (x.left < length rows.now) × (x.right < length rows.now)) (map sides_of equations.now) }
    ensures { result ≡ greatest (side_rows rows.now (map sides_of equations.now)) }
{
    let mut most = 0;
    'turns: for equation in equations {
        let higher = row_at(rows, equation.left).max(row_at(rows, equation.right));
        most = higher.max(most);
    }
    most
}

// The sum of the rows of all sides, which stops at 10^37.
fn sum_of_rows(rows: &[u128], equations: &[Equation]) -> u128
    requires within { AllByRecursion (λ x. (x.left < length rows.now) × (x.right < length rows.now)) (map sides_of equations.now) }
    requires stopped { All (λ r. r ≤ 10 ^ 37) rows.now }
    ensures { result ≡ min (sum (side_rows rows.now (map sides_of equations.now))) (10 ^ 37) }
{
    let mut total = 0;
    'turns: for equation in equations {
        let both = row_at(rows, equation.left) + row_at(rows, equation.right);
        total = (total + both).min(COUNT_LIMIT);
    }
    total
}
