// Tables of occurrences and of links, and rows of marks.
ghost use Rattle.std.specs.Prelude.{◌≡◌, ◌↔◌, ◌<◌, ◌≤◌, ◌⊎◌, ℕ, true, length, slice_index, slice_index_or, IsTrue, IfOk};
ghost use Rattle.mp_pairing.specs.Lists.{Has};
ghost use Rattle.mp_incidence.specs.Links.{MayTake};
ghost use Rattle.mp_pairing.specs.Pairing.{Occurs};
ghost use Rattle.mp_incidence.specs.Tables.{cell, IsSquare, IsRowFor, IsTableFor};

use crate::numbers::Numbers;
use crate::tables::Table;
use mp_base::NoMemory;
use std::alloc::Global;

/// Whether x stands among these.
pub fn has(items: &[usize], x: usize) -> bool
    ensures { IsTrue result ↔ Has items.now x }
{
    'items: for i in 0..items.len() {
        if items[i] == x {
            return true;
        }
    }
    false
}

/// Whether x stands among these numbers.
pub fn lists(items: &Numbers, x: usize) -> bool
    ensures { IsTrue result ↔ Has items.now x }
{
    'items: for i in 0..items.len() {
        if items.get(i) as usize == x {
            return true;
        }
    }
    false
}

/// Which of the numbers below `n` stand among these.
pub fn marks_of(alloc: Global, items: &[usize], n: usize) -> Result<Vec<bool>, NoMemory>
    ensures { IfOk result (λ marks. IsRowFor (Has items.now) n marks.items) }
{
    let mut marks = Vec::new(alloc);
    'marks: for b in 0..n {
        marks.push(has(items, b))?;
    }
    Ok(marks)
}

fn occurring(alloc: Global, row: &Numbers, n: usize) -> Result<Vec<bool>, NoMemory>
    ensures { IfOk result (λ marks. IsRowFor (Has row.now) n marks.items) }
{
    let mut marks = Vec::new(alloc);
    'marks: for b in 0..n {
        marks.push(lists(row, b))?;
    }
    Ok(marks)
}

/// Which variables occur in which equations.
pub fn occurrences(alloc: Global, rows: &[Numbers]) -> Result<Table, NoMemory>
    ensures { IfOk result (λ t. IsTableFor (Occurs rows.now) (length rows.now) (length rows.now) t) }
{
    let mut table = Table::new(alloc);
    'rows: for a in 0..rows.len() {
        let marks = occurring(alloc, &rows[a], rows.len())?;
        table.add(marks)?;
    }
    Ok(table)
}

fn may_take(table: &Table, held: &[usize], low: usize, high: usize, a: usize, b: usize) -> bool
    requires square { IsSquare table.now (length table.now) }
    requires a_within { a < length table.now }
    requires b_within { b < length held.now }
    requires held { slice_index held.now b < length table.now }
    ensures { IsTrue result ↔ MayTake table.now held.now low high a b }
{
    if a < low {
        return false;
    }
    if a >= high {
        return true;
    }
    table.at(a, held[b])
}

fn takers(
    alloc: Global,
    table: &Table,
    held: &[usize],
    low: usize,
    high: usize,
    a: usize,
) -> Result<Vec<bool>, NoMemory>
    requires square { IsSquare table.now (length table.now) }
    requires within { a < length table.now }
    requires held { (b : ℕ) → b < length held.now → slice_index held.now b < length table.now }
    ensures { IfOk result (λ marks. IsRowFor (MayTake table.now held.now low high a) (length held.now) marks.items) }
{
    let mut marks = Vec::new(alloc);
    'marks: for b in 0..held.len() {
        marks.push(may_take(table, held, low, high, a, b))?;
    }
    Ok(marks)
}

/// Which equations may take whose variables.
pub fn exchanges(
    alloc: Global,
    table: &Table,
    held: &[usize],
    low: usize,
    high: usize,
) -> Result<Table, NoMemory>
    requires square { IsSquare table.now (length table.now) }
    requires count { length held.now ≡ length table.now }
    requires held { (b : ℕ) → b < length held.now → slice_index held.now b < length table.now }
    ensures { IfOk result (λ t. IsTableFor (MayTake table.now held.now low high) (length table.now) (length table.now) t) }
{
    let mut links = Table::new(alloc);
    'rows: for a in 0..table.len() {
        let marks = takers(alloc, table, held, low, high, a)?;
        links.add(marks)?;
    }
    Ok(links)
}

fn column(alloc: Global, links: &Table, a: usize) -> Result<Vec<bool>, NoMemory>
    requires square { IsSquare links.now (length links.now) }
    requires within { a < length links.now }
    ensures { IfOk result (λ marks. IsRowFor (λ b. cell links.now b a ≡ true) (length links.now) marks.items) }
{
    let mut marks = Vec::new(alloc);
    'marks: for b in 0..links.len() {
        marks.push(links.at(b, a))?;
    }
    Ok(marks)
}

/// The links the other way.
pub fn turned(alloc: Global, links: &Table) -> Result<Table, NoMemory>
    requires { IsSquare links.now (length links.now) }
    ensures { IfOk result (λ t. IsTableFor (λ a b. cell links.now b a ≡ true) (length links.now) (length links.now) t) }
{
    let mut table = Table::new(alloc);
    'rows: for a in 0..links.len() {
        let marks = column(alloc, links, a)?;
        table.add(marks)?;
    }
    Ok(table)
}
