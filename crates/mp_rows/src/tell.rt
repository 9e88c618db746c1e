// The lines of outcomes that no job reaches yet, as they are read by a person.

use mp_base::{GuessFault, Label, LooseKind, NoMemory, NotSolved, Outcome, Refusal, Stage};
use mp_outside::{Calls, MemSink};
use mp_tell::tell;
use std::alloc::Global;
use std::process::Abort;
use std::test::Fail;

// The refusal is told in this line.
fn is_told(rt: &impl Abort, alloc: Global, refusal: Refusal, line: &str) -> Result<(), NoMemory> {
    let mut err = MemSink::with_room(alloc, 512, Calls::new(alloc))?;
    tell(&mut err, &Outcome::Refused(refusal));
    assert_eq!(rt; err.taken(), line.as_bytes());
    Ok(())
}

#[test]
fn a_path_that_is_not_found_is_told(rt: HostRuntime) -> Result<(), Fail> {
    let refusal = Refusal::NotSolved(NotSolved::StepLimit {
        stage: Stage::Path,
        steps: 2,
        equation: 1,
        period: 1,
        bound: 1_085_069_444_445,
    });
    let line = "modpath: 1 StepLimit stage=path steps=2 equation=1 period=1 bound=1.085069444445\n";
    Ok(is_told(&rt, rt.alloc(), refusal, line)?)
}

#[test]
fn a_guess_whose_sign_is_not_known_is_told(rt: HostRuntime) -> Result<(), Fail> {
    let refusal = Refusal::Guess(GuessFault::SignUnknown {
        period: 1,
        name: Label::of(b"Z"),
        low: -1,
        high: 1,
    });
    let line = "modpath: 9 SignUnknown period=1 name=Z low=-0.000000000001 high=0.000000000001\n";
    Ok(is_told(&rt, rt.alloc(), refusal, line)?)
}

#[test]
fn a_path_that_is_loose_is_told(rt: HostRuntime) -> Result<(), Fail> {
    let refusal = Refusal::Loose {
        kind: LooseKind::Bound,
        equation: 1,
        period: 1,
        value: 250_000_000_000,
    };
    let line = "modpath: 10 Loose kind=Bound equation=1 period=1 value=0.250000000000\n";
    Ok(is_told(&rt, rt.alloc(), refusal, line)?)
}
