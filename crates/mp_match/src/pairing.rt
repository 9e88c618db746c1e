// The least matching, or the short set.
ghost use Rattle.std.specs.Prelude.{◌≡◌, ◌↔◌, ◌<◌, ◌≤◌, ◌+◌, ◌^◌, ℕ, true, length, slice_index, MatchOption, IsTrue, IfOk, OnOk};
ghost use Rattle.mp_pairing.specs.Lists.{Has};
ghost use Rattle.mp_pairing.specs.Pairing.{Occurs, IsWithin};
ghost use Rattle.mp_incidence.specs.Tables.{cell, IsSquare, IsRowFor, IsTableFor};
ghost use Rattle.mp_match.specs.Held.{IsAll, IsPaired, IsStuckAt, IsLeastUpto, IsNumbered, Touches};
ghost use Rattle.mp_match.specs.Matched.{IsMatched};

use crate::exchange::settle;
use mp_base::NoMemory;
use mp_incidence::{
    Numbers, Table, copied, exchanges, marked, marks_of, occurrences, search, turned,
};
use std::alloc::Global;

/// What a matching of all equations comes to.
#[derive(Drop)]
pub enum Matched {
    /// The variable of each equation.
    Pairs {
        variables: Numbers,
    },
    /// Equations with fewer variables than there are of them, and these variables.
    Short {
        equations: Numbers,
        variables: Numbers,
    },
}

fn numbered(alloc: Global, n: usize) -> Result<Vec<usize>, NoMemory>
    ensures { IfOk result (λ xs. IsNumbered n xs.items) }
{
    let mut xs = Vec::new(alloc);
    'numbers: for i in 0..n {
        xs.push(i)?;
    }
    Ok(xs)
}

// Gives each equation in turn a variable, up to the first that can have none.
fn pair(alloc: Global, table: &Table, held: &mut [usize]) -> Result<Option<usize>, NoMemory>
    requires square { IsSquare table.now (length table.now) }
    requires all { IsAll held.old (length table.now) }
    ensures { IfOk result (λ r. MatchOption r (IsPaired table.now (length table.now) held.new) (λ i. IsStuckAt table.now i held.new)) }
{
    'equations: for i in 0..table.len() {
        if !settle(alloc, table, held, 0, i + 1, i)? {
            return Ok(Some(i));
        }
    }
    Ok(None)
}

// Gives each equation in turn the least variable that it can have.
fn lessen(alloc: Global, table: &Table, held: &mut [usize]) -> Result<(), NoMemory>
    requires square { IsSquare table.now (length table.now) }
    requires paired { IsPaired table.now (length table.now) held.old }
    ensures { OnOk result (IsLeastUpto table.now (length table.now) held.new) }
{
    'equations: for k in 0..table.len() {
        let _taken = settle(alloc, table, held, k, table.len(), k)?;
    }
    Ok(())
}

fn touches(table: &Table, nodes: &[usize], v: usize) -> bool
    requires square { IsSquare table.now (length table.now) }
    requires nodes { (i : ℕ) → i < length nodes.now → slice_index nodes.now i < length table.now }
    requires within { v < length table.now }
    ensures { IsTrue result ↔ Touches table.now nodes.now v }
{
    'nodes: for i in 0..nodes.len() {
        if table.at(nodes[i], v) {
            return true;
        }
    }
    false
}

fn touched(alloc: Global, table: &Table, nodes: &[usize]) -> Result<Vec<bool>, NoMemory>
    requires square { IsSquare table.now (length table.now) }
    requires nodes { (i : ℕ) → i < length nodes.now → slice_index nodes.now i < length table.now }
    ensures { IfOk result (λ marks. IsRowFor (Touches table.now nodes.now) (length table.now) marks.items) }
{
    let mut marks = Vec::new(alloc);
    'marks: for v in 0..table.len() {
        marks.push(touches(table, nodes, v))?;
    }
    Ok(marks)
}

// All equations that i needs.
fn short(
    alloc: Global,
    rows: &[Numbers],
    table: &Table,
    held: &[usize],
    i: usize,
) -> Result<Matched, NoMemory>
    requires small { length rows.now < 2 ^ 32 }
    requires within { IsWithin rows.now }
    requires table { IsTableFor (Occurs rows.now) (length rows.now) (length rows.now) table.now }
    requires stuck { IsStuckAt table.now i held.now }
    ensures { IfOk result (λ m. IsMatched rows.now m) }
{
    let links = exchanges(alloc, table, held, 0, i + 1)?;
    let needed = turned(alloc, &links)?;
    let found = search(alloc, &needed, i)?;
    let members = marks_of(alloc, &found.nodes, rows.len())?;
    let read = touched(alloc, table, &found.nodes)?;
    let equations = marked(alloc, &members)?;
    let variables = marked(alloc, &read)?;
    Ok(Matched::Short {
        equations,
        variables,
    })
}

/// The least matching of these equations, given by the variables of each, and as many variables, or the short set.
pub fn match_all(alloc: Global, rows: &[Numbers]) -> Result<Matched, NoMemory>
    requires small { length rows.now < 2 ^ 32 }
    requires within { IsWithin rows.now }
    ensures { IfOk result (λ m. IsMatched rows.now m) }
{
    let table = occurrences(alloc, rows)?;
    let mut held = numbered(alloc, rows.len())?;
    match pair(alloc, &table, &mut held)? {
        Some(i) => short(alloc, rows, &table, &held, i),
        None => {
            lessen(alloc, &table, &mut held)?;
            let variables = copied(alloc, &held)?;
            Ok(Matched::Pairs { variables })
        }
    }
}
