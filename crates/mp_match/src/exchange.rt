// One equation takes the least variable that an exchange can give it.
ghost use Rattle.std.specs.Prelude.{◌≡◌, ◌≢◌, ◌<◌, ◌≤◌, ◌+◌, ℕ, true, length, slice_index, MatchOption, MatchBool, IfOk, OnOk};
ghost use Rattle.mp_incidence.specs.Tables.{cell, IsSquare};
ghost use Rattle.mp_match.specs.Held.{IsAll, IsTree, IsRotated, IsChosen, HoldsButOne, IsSettled, IsStuck};

use mp_base::NoMemory;
use mp_incidence::{Table, exchanges, search};
use std::alloc::Global;

// The one at place `last` goes to the first place, and each on its way takes what the next one held.
fn rotate(held: &mut [usize], nodes: &[usize], via: &[usize], last: usize)
    requires all { IsAll held.old (length held.old) }
    requires tree { IsTree (length held.old) nodes.now via.now }
    requires within { last < length nodes.now }
    ensures all { IsAll held.new (length held.old) }
    ensures rotated { IsRotated nodes.now via.now last held.old held.new }
{
    let mut at = last;
    'path: while at > 0 {
        let up = via[at];
        held.swap(nodes[at], nodes[up]);
        at = up;
    }
}

// The better of two places.
fn better(
    table: &Table,
    held: &[usize],
    nodes: &[usize],
    k: usize,
    best: Option<usize>,
    j: usize,
) -> Option<usize>
    requires square { IsSquare table.now (length table.now) }
    requires k_within { k < length table.now }
    requires held { (b : ℕ) → b < length held.now → slice_index held.now b < length table.now }
    requires nodes { (i : ℕ) → i < length nodes.now → slice_index nodes.now i < length held.now }
    requires j_within { j < length nodes.now }
    requires chosen { IsChosen table.now held.now nodes.now k j best }
    ensures { IsChosen table.now held.now nodes.now k (j + 1) result }
{
    let variable = held[nodes[j]];
    if !table.at(k, variable) {
        return best;
    }
    match best {
        None => Some(j),
        Some(b) => {
            if held[nodes[b]] <= variable {
                Some(b)
            } else {
                Some(j)
            }
        }
    }
}

// The place of a node whose variable occurs in equation k, and is the least such.
fn choose(table: &Table, held: &[usize], nodes: &[usize], k: usize) -> Option<usize>
    requires square { IsSquare table.now (length table.now) }
    requires k_within { k < length table.now }
    requires held { (b : ℕ) → b < length held.now → slice_index held.now b < length table.now }
    requires nodes { (i : ℕ) → i < length nodes.now → slice_index nodes.now i < length held.now }
    ensures { IsChosen table.now held.now nodes.now k (length nodes.now) result }
{
    let mut best = None;
    'nodes: for j in 0..nodes.len() {
        best = better(table, held, nodes, k, best, j);
    }
    best
}

/// Gives equation k the least variable that it can have, where equations before `low` keep theirs, and those from
/// `high` on take any.
pub fn settle(
    alloc: Global,
    table: &Table,
    held: &mut [usize],
    low: usize,
    high: usize,
    k: usize,
) -> Result<bool, NoMemory>
    requires square { IsSquare table.now (length table.now) }
    requires all { IsAll held.old (length table.now) }
    requires low { low ≤ k }
    requires high { k < high }
    requires within { high ≤ length table.now }
    requires holds { HoldsButOne table.now high k held.old }
    ensures { IfOk result (λ b. MatchBool b (IsSettled table.now low high k held.old held.new) ((held.new ≡ held.old) × IsStuck table.now low high k held.old)) }
{
    let links = exchanges(alloc, table, held, low, high)?;
    let found = search(alloc, &links, k)?;
    match choose(table, held, &found.nodes, k) {
        None => Ok(false),
        Some(last) => {
            rotate(held, &found.nodes, &found.via, last);
            Ok(true)
        }
    }
}
