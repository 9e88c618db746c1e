// Systems of any size.

use anyhow::{Result, bail};
use mp_base::NoMemory;
use mp_incidence::Numbers;
use std::alloc::Global;

/// So many equations: each has all variables, its own and the next (in a ring the first comes after the last), or, in a
/// triangle, one less than the equation before.
pub(crate) fn build(alloc: Global, shape: &str, count: u32) -> Result<Vec<Numbers>> {
    let mut rows = Vec::new(alloc);
    for e in 0..count {
        let row = match shape {
            "dense" => between(alloc, 0, count),
            "chain" => between(alloc, e, count.min(e.saturating_add(2))),
            "ring" if e + 1 == count => ends(alloc, e),
            "ring" => between(alloc, e, e.saturating_add(2)),
            "triangle" => between(alloc, 0, count - e),
            _ => bail!("no such shape"),
        };
        let Ok(row) = row else {
            bail!("no memory");
        };
        rows.push(row)?;
    }
    Ok(rows)
}

fn between(alloc: Global, from: u32, to: u32) -> Result<Numbers, NoMemory> {
    let mut row = Numbers::new(alloc);
    for variable in from..to {
        row.add(variable)?;
    }
    Ok(row)
}

fn ends(alloc: Global, last: u32) -> Result<Numbers, NoMemory> {
    let mut row = Numbers::new(alloc);
    row.add(0)?;
    row.add(last)?;
    Ok(row)
}
