//! Pairs the equations and variables of systems, and puts their blocks in order, to be compared and timed.
//!
//! | Words | Job |
//! |---|---|
//! | `system SYSTEM..` | prints the pairs and blocks of each system, or its short set |
//! | `time SHAPE N` | prints how many pairs and blocks N equations have that are `dense`, a `chain`, a `ring` or a `triangle` |
//!
//! All numbers are from 0. A system is as `0,1/0/1,2`: the variables of each equation. `-` is none.
#![tactic(auto)]

mod answer;
mod shape;
mod system;

use crate::answer::answer_of;
use anyhow::{Context, Result, bail};
use std::env::{Args, args};

fn main(rt: HostRuntime) -> Result<()> {
    let mut words = args(&rt)?;
    let _program = words.next();
    match words.next().context("no job")?.as_str() {
        "system" => systems(&rt, &mut words),
        "time" => time(&rt, &mut words),
        _ => bail!("no such job"),
    }
}

fn systems(rt: &HostRuntime, words: &mut Args) -> Result<()> {
    'systems: while let Some(word) = words.next() {
        let rows = system::read(rt.alloc(), word.as_str())?;
        answer_of(rt.alloc(), &rows)?.tell(rt)?;
    }
    Ok(())
}

fn time(rt: &HostRuntime, words: &mut Args) -> Result<()> {
    let shape = words.next().context("no shape")?;
    let count = words.next().context("no number")?.parse::<u32>()?;
    let rows = shape::build(rt.alloc(), shape.as_str(), count)?;
    answer_of(rt.alloc(), &rows)?.tell_counts(rt)
}
