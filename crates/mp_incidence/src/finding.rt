// What leads to one place by links.
ghost use Rattle.std.specs.Prelude.{◌≡◌, ◌<◌, ◌+◌, ◌∷◌, [], ◌++◌, ℕ, true, length, slice_set, IfOk, OnOk};
ghost use Rattle.mp_incidence.specs.Tables.{IsSquare};
ghost use Rattle.mp_incidence.specs.Search.{LeadTo, IsSearched};

use crate::tables::Table;
use mp_base::NoMemory;
use std::alloc::Global;

/// Places in the order in which they were found, and of each the place in this list of one that it links to.
#[derive(Drop)]
pub struct Found {
    pub nodes: Vec<usize>,
    pub via: Vec<usize>,
}

#[derive(Drop)]
struct Walk {
    seen: Vec<bool>,
    nodes: Vec<usize>,
    via: Vec<usize>,
}

/// All that leads to `start` by links, `start` first.
pub fn search(alloc: Global, links: &Table, start: usize) -> Result<Found, NoMemory>
    requires square { IsSquare links.now (length links.now) }
    requires within { start < length links.now }
    ensures { IfOk result (λ f. LeadTo links.now start f.nodes.items f.via.items) }
{
    let mut walk = begin(alloc, links, start)?;
    'turns: for at in 0..links.len() {
        if at < walk.nodes.len() {
            sweep(links, at, &mut walk, start)?;
        }
    }
    let Walk { seen, nodes, via } = walk;
    drop(seen);
    Ok(Found { nodes, via })
}

fn begin(alloc: Global, links: &Table, start: usize) -> Result<Walk, NoMemory>
    requires { start < length links.now }
    ensures { IfOk result (λ w. IsSearched links.now start 0 0 w.seen.items w.nodes.items w.via.items) }
{
    let mut seen = vec![in alloc; false; links.len()]?;
    seen[start] = true;
    let mut nodes = Vec::new(alloc);
    nodes.push(start)?;
    let mut via = Vec::new(alloc);
    via.push(0)?;
    Ok(Walk { seen, nodes, via })
}

// Adds all that link to the one at this place and were not seen yet.
fn sweep(links: &Table, at: usize, walk: &mut Walk, start: usize) -> Result<(), NoMemory>
    requires square { IsSquare links.now (length links.now) }
    requires within { at < length walk.old.nodes.items }
    requires searched { IsSearched links.now start at 0 walk.old.seen.items walk.old.nodes.items walk.old.via.items }
    ensures { OnOk result (IsSearched links.now start (at + 1) 0 walk.new.seen.items walk.new.nodes.items walk.new.via.items) }
{
    let to = walk.nodes[at];
    'marks: for a in 0..links.len() {
        if !walk.seen[a] && links.at(a, to) {
            reach(walk, a, at)?;
        }
    }
    Ok(())
}

fn reach(walk: &mut Walk, a: usize, at: usize) -> Result<(), NoMemory>
    requires { a < length walk.old.seen.items }
    ensures seen { OnOk result (walk.new.seen.items ≡ slice_set walk.old.seen.items a true) }
    ensures nodes { OnOk result (walk.new.nodes.items ≡ walk.old.nodes.items ++ a ∷ []) }
    ensures via { OnOk result (walk.new.via.items ≡ walk.old.via.items ++ at ∷ []) }
{
    walk.seen[a] = true;
    walk.nodes.push(a)?;
    walk.via.push(at)?;
    Ok(())
}
