// The first matching of a model's equations and variables, and its blocks.
ghost use Rattle.std.specs.Prelude.{◌≡◌, ◌<◌, ◌+◌, ◌^◌, ℕ, List, suc, length, map, slice_index, IfOk};
ghost use Rattle.mp_pairing.specs.Blocks.{block};
ghost use Rattle.mp_model_data.specs.Shown.{source_data};
ghost use Rattle.mp_pairing.specs.Pairing.{IsMatching};
ghost use Rattle.mp_blocks.specs.Paired.{IsLeastIn, IsMatchedIn, IsOrderIn};
ghost use Rattle.mp_blocks.specs.Rows.{AreRows, IsSquare};

use crate::rows::square_rows;
use mp_base::NoMemory;
use mp_incidence::Numbers;
use mp_match::Matched;
use mp_model_data::Model;
use mp_order::BlockList;
use std::alloc::Global;

/// The first matching of the equations of a model's static form and its endogenous variables, in the order that compares
/// the variable of equation 1, then of equation 2, and so on; or, where there is none, the short set: the least set of
/// equations, among the first that have no matching, with fewer variables than members, and these variables. Shifts count
/// for nothing, and a steady state is its variable. Equations and variables are numbered from 1 (modpath's own).
pub fn match_all(alloc: Global, model: &Model) -> Result<Matched, NoMemory>
    requires square { IsSquare (source_data model.now) }
    ensures matched { IfOk result (λ m. IsMatchedIn (source_data model.now) m) }
{
    let rows = square_rows(alloc, model)?;
    match mp_match::match_all(alloc, &rows)? {
        Matched::Pairs { variables } => Ok(Matched::Pairs {
            variables: counted(alloc, &variables)?,
        }),
        Matched::Short {
            equations,
            variables,
        } => Ok(Matched::Short {
            equations: counted(alloc, &equations)?,
            variables: counted(alloc, &variables)?,
        }),
    }
}

/// The blocks of equations that need each other, each after those that it needs, and of those that may come next the one
/// with the smallest equation first. An equation needs the one whose variable occurs in it; the variable of each is given
/// by the first matching. Equations and variables are numbered from 1 (modpath's own).
pub fn order(alloc: Global, model: &Model, variables: &Numbers) -> Result<BlockList, NoMemory>
    requires square { IsSquare (source_data model.now) }
    requires least { IsLeastIn (source_data model.now) variables.now }
    ensures order { IfOk result (λ blocks. IsOrderIn (source_data model.now) variables.now blocks) }
{
    let rows = square_rows(alloc, model)?;
    let places = places(alloc, variables)?;
    let blocks = mp_order::order(alloc, &rows, &places)?;
    all_counted(alloc, &blocks)
}

// The same numbers from 1.
fn counted(alloc: Global, places: &Numbers) -> Result<Numbers, NoMemory>
    requires { (k : ℕ) → k < length places.now → slice_index places.now k + 1 < 2 ^ 32 }
    ensures { IfOk result (λ xs. xs ≡ map suc places.now) }
{
    let mut numbers = Numbers::new(alloc);
    'places: for i in 0..places.len() {
        numbers.add(places.get(i) + 1)?;
    }
    Ok(numbers)
}

// The same numbers from 0.
fn places(alloc: Global, numbers: &Numbers) -> Result<Numbers, NoMemory>
    requires { (places : List ℕ) × (numbers.now ≡ map suc places) }
    ensures { IfOk result (λ xs. numbers.now ≡ map suc xs) }
{
    let mut places = Numbers::new(alloc);
    'numbers: for i in 0..numbers.len() {
        places.add(numbers.get(i).saturating_sub(1))?;
    }
    Ok(places)
}

// The same lists, counted from 1.
fn all_counted(alloc: Global, blocks: &BlockList) -> Result<BlockList, NoMemory>
    requires { (p k : ℕ) → p < length blocks.now → k < length (block blocks.now p) → slice_index (block blocks.now p) k + 1 < 2 ^ 32 }
    ensures { IfOk result (λ bs. bs ≡ map (map suc) blocks.now) }
{
    let mut list = BlockList::new(alloc);
    'lists: for p in 0..blocks.len() {
        list.add(counted(alloc, blocks.block(p))?)?;
    }
    Ok(list)
}
