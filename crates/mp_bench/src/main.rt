//! Does the jobs that the words name, one after the other, so that their time can be measured.
//!
//! | Words | Job |
//! |---|---|
//! | `full T N`, `near T N` | eliminates a band of T periods of N rows that are full, or have four to six entries |
//! | `points TURNS`, `intervals TURNS` | evaluates a graph of some 2,000 nodes so many times, and once more |
//! | `squares` | evaluates 31 squares in one another |
#![tactic(auto)]

ghost use Rattle.std.specs.Prelude.{◌≡◌, ◌≤◌, ◌<◌};
ghost use Rattle.std.specs.Vec.Iter.{into_iter_len};

mod bands;
mod evaluations;

use crate::bands::Pattern;
use anyhow::{Context, Result, bail};
use mp_base::Steps;
use mp_fix::{Fix, Iv};
use std::env;
use std::env::Args;
use std::marker::Brand;
use std::sync::ledger::{Blank, Ledger};

fn main(rt: HostRuntime) -> Result<()> {
    jobs::<Brand>(&rt, Blank::new(1))
}

fn jobs<L: Ledger>(rt: &HostRuntime, blank: Blank) -> Result<()>
    requires name { blank.name ≡ L.name }
    requires parts { blank.parts ≡ L.parts }
    requires some { 0 < blank.parts }
{
    let mut steps = mp_steps::start::<L>(blank);
    let mut words = env::args(rt)?;
    let _program = words.next();
    'jobs: while let Some(name) = words.next() {
        run(rt, name.as_str(), &mut words, &mut steps)?;
    }
    Ok(())
}

// Does the job of this name, whose own words come next.
fn run<L: Ledger>(
    rt: &HostRuntime,
    name: &str,
    words: &mut Args,
    steps: &mut Steps<L>,
) -> Result<()>
    ensures { into_iter_len words.new ≤ into_iter_len words.old }
{
    match name {
        "full" => bands::large(rt, Pattern::Full, number(words)?, number(words)?, steps),
        "near" => bands::large(rt, Pattern::Near, number(words)?, number(words)?, steps),
        "points" => evaluations::links::<Fix, L>(rt, number(words)?, steps),
        "intervals" => evaluations::links::<Iv, L>(rt, number(words)?, steps),
        "squares" => evaluations::squares(rt, steps),
        _ => bail!("no such job"),
    }
}

fn number(words: &mut Args) -> Result<u32>
    ensures { into_iter_len words.new ≤ into_iter_len words.old }
{
    Ok(words.next().context("no number")?.parse::<u32>()?)
}
