// The blocks, and their order.
ghost use Rattle.std.specs.Prelude.{◌≡◌, ◌↔◌, ◌<◌, ◌≤◌, ◌+◌, ◌^◌, ℕ, true, length, slice_index, slice_index_or, MatchBool, MatchOption, IsTrue, IfOk, OnOk};
ghost use Rattle.mp_pairing.specs.Lists.{Has, IsMarked};
ghost use Rattle.mp_pairing.specs.Blocks.{Reaches, NeedEachOther, IsOrder, ReadsPlaced};
ghost use Rattle.mp_pairing.specs.Pairing.{Occurs, IsWithin, IsMatching};
ghost use Rattle.mp_incidence.specs.Links.{MayTake};
ghost use Rattle.mp_incidence.specs.Tables.{cell, IsSquare, IsRowFor, IsTableFor};
ghost use Rattle.mp_order.specs.Placing.{ReachesBack, EachOther, IsReady, IsHeld, IsNext, IsPreorder, IsWhole, AddsMarked};

use crate::lists::BlockList;
use mp_base::NoMemory;
use mp_incidence::{Numbers, Table, exchanges, marked, marks_of, occurrences, search};
use std::alloc::Global;

fn places_of(alloc: Global, numbers: &Numbers) -> Result<Vec<usize>, NoMemory>
    ensures { IfOk result (λ xs. xs.items ≡ numbers.now) }
{
    let mut xs = Vec::new(alloc);
    'numbers: for i in 0..numbers.len() {
        xs.push(numbers.get(i) as usize)?;
    }
    Ok(xs)
}

fn reaching(alloc: Global, links: &Table, b: usize) -> Result<Vec<bool>, NoMemory>
    requires square { IsSquare links.now (length links.now) }
    requires within { b < length links.now }
    ensures { IfOk result (λ marks. IsRowFor (ReachesBack links.now b) (length links.now) marks.items) }
{
    let found = search(alloc, links, b)?;
    marks_of(alloc, &found.nodes, links.len())
}

// Row b has all that reach b.
fn reaches(alloc: Global, links: &Table) -> Result<Table, NoMemory>
    requires { IsSquare links.now (length links.now) }
    ensures { IfOk result (λ t. IsTableFor (ReachesBack links.now) (length links.now) (length links.now) t) }
{
    let mut table = Table::new(alloc);
    'rows: for b in 0..links.len() {
        let marks = reaching(alloc, links, b)?;
        table.add(marks)?;
    }
    Ok(table)
}

// Whether all that e reaches is placed or reaches e.
fn is_ready(reach: &Table, placed: &[bool], e: usize) -> bool
    requires square { IsSquare reach.now (length reach.now) }
    requires count { length placed.now ≡ length reach.now }
    requires within { e < length reach.now }
    ensures { MatchBool result (IsReady reach.now placed.now (length reach.now) e) (IsHeld reach.now placed.now (length reach.now) e) }
{
    'others: for b in 0..reach.len() {
        if reach.at(b, e) && !placed[b] && !reach.at(e, b) {
            return false;
        }
    }
    true
}

// The first equation that is not placed and is ready.
fn next(reach: &Table, placed: &[bool]) -> Option<usize>
    requires square { IsSquare reach.now (length reach.now) }
    requires count { length placed.now ≡ length reach.now }
    ensures { IsNext reach.now placed.now (length reach.now) result }
{
    'others: for e in 0..reach.len() {
        if !placed[e] && is_ready(reach, placed, e) {
            return Some(e);
        }
    }
    None
}

// Those that e needs and that need it, e among them.
fn class_of(alloc: Global, reach: &Table, e: usize) -> Result<Vec<bool>, NoMemory>
    requires square { IsSquare reach.now (length reach.now) }
    requires within { e < length reach.now }
    ensures { IfOk result (λ marks. IsRowFor (EachOther reach.now e) (length reach.now) marks.items) }
{
    let mut marks = Vec::new(alloc);
    'others: for d in 0..reach.len() {
        marks.push(reach.at(d, e) && reach.at(e, d))?;
    }
    Ok(marks)
}

// Marks all that the class has.
fn place(placed: &mut [bool], class: &[bool])
    requires { length placed.old ≡ length class.now }
    ensures { AddsMarked class.now (length class.now) placed.old placed.new }
{
    'others: for d in 0..placed.len() {
        if class[d] {
            placed[d] = true;
        }
    }
}

fn arranged(alloc: Global, reach: &Table) -> Result<BlockList, NoMemory>
    requires square { IsSquare reach.now (length reach.now) }
    requires small { length reach.now < 2 ^ 32 }
    requires preorder { IsPreorder reach.now }
    ensures { IfOk result (λ bs. IsWhole reach.now (length reach.now) bs) }
{
    let mut placed = vec![in alloc; false; reach.len()]?;
    let mut blocks = BlockList::new(alloc);
    'turns: for _turn in 0..reach.len() {
        match next(reach, &placed) {
            None => return Ok(blocks),
            Some(e) => {
                let class = class_of(alloc, reach, e)?;
                let block = marked(alloc, &class)?;
                place(&mut placed, &class);
                blocks.add(block)?;
            }
        }
    }
    Ok(blocks)
}

/// The blocks of these equations, each after those that it needs. The numbers are a matching.
pub fn order(alloc: Global, rows: &[Numbers], variables: &Numbers) -> Result<BlockList, NoMemory>
    requires small { length rows.now < 2 ^ 32 }
    requires within { IsWithin rows.now }
    requires matching { IsMatching rows.now (length rows.now) variables.now }
    ensures order { IfOk result (λ bs. IsOrder rows.now variables.now bs) }
    ensures reads { IfOk result (λ bs. ReadsPlaced rows.now variables.now bs) }
{
    let table = occurrences(alloc, rows)?;
    let held = places_of(alloc, variables)?;
    let links = exchanges(alloc, &table, &held, 0, rows.len())?;
    let reach = reaches(alloc, &links)?;
    arranged(alloc, &reach)
}
