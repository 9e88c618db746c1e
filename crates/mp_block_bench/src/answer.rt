// The matching and the blocks of a system.
ghost use Rattle.std.specs.Prelude.{◌<◌, ℕ, MatchBool, ⊤};
ghost use Rattle.mp_pairing.specs.Lists.{Has};
ghost use Rattle.mp_pairing.specs.Pairing.{IsWithin};

use anyhow::{Result, bail};
use mp_incidence::Numbers;
use mp_match::{Matched, match_all};
use mp_order::{BlockList, order};
use std::alloc::Global;

/// What a system comes to.
#[derive(Drop)]
pub(crate) enum Answer {
    Paired(Numbers, BlockList),
    Short(Numbers, Numbers),
}

pub(crate) fn answer_of(alloc: Global, rows: &[Numbers]) -> Result<Answer> {
    if rows.len() > u32::MAX as usize {
        bail!("too many equations");
    }
    if !are_within(rows) {
        bail!("a variable that is not below the number of equations");
    }
    match match_all(alloc, rows) {
        Ok(Matched::Pairs { variables }) => match order(alloc, rows, &variables) {
            Ok(blocks) => Ok(Answer::Paired(variables, blocks)),
            Err(_) => bail!("no memory"),
        },
        Ok(
            Matched::Short {
                equations,
                variables,
            },
        ) => Ok(Answer::Short(equations, variables)),
        Err(_) => bail!("no memory"),
    }
}

fn are_within(rows: &[Numbers]) -> bool
    ensures { MatchBool result (IsWithin rows.now) ⊤ }
{
    'rows: for e in 0..rows.len() {
        if !are_below(&rows[e], rows.len()) {
            return false;
        }
    }
    true
}

fn are_below(row: &Numbers, count: usize) -> bool
    ensures { MatchBool result ((v : ℕ) → Has row.now v → v < count) ⊤ }
{
    'row: for i in 0..row.len() {
        if row.get(i) as usize >= count {
            return false;
        }
    }
    true
}

impl Answer {
    /// Prints the pairs and blocks, or the short set and its variables.
    pub(crate) fn tell(&self, rt: &impl Print) -> Result<()> {
        match self {
            Answer::Paired(variables, blocks) => {
                tell_list(rt, "pairs ", variables)?;
                for p in 0..blocks.len() {
                    tell_list(rt, if p == 0 { " blocks " } else { "/" }, blocks.block(p))?;
                }
            }
            Answer::Short(equations, variables) => {
                tell_list(rt, "short ", equations)?;
                tell_list(rt, " of ", variables)?;
            }
        }
        println!(rt; "")?;
        Ok(())
    }

    pub(crate) fn tell_counts(&self, rt: &impl Print) -> Result<()> {
        match self {
            Answer::Paired(variables, blocks) => {
                println!(rt; "pairs {} blocks {}", variables.len(), blocks.len())?
            }
            Answer::Short(equations, _) => println!(rt; "short {}", equations.len())?,
        }
        Ok(())
    }
}

fn tell_list(rt: &impl Print, before: &str, numbers: &Numbers) -> Result<()> {
    print!(rt; "{before}{}", if numbers.len() == 0 { "-" } else { "" })?;
    for i in 0..numbers.len() {
        print!(rt; "{}{}", if i == 0 { "" } else { "," }, numbers.get(i))?;
    }
    Ok(())
}
