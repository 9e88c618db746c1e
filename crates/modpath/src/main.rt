//! The program: real files and streams, and the words of the command line.
#![tactic(auto)]

ghost use Rattle.std.specs.Prelude.{◌≡◌, ◌<◌};

use mp_base::Outcome;
use mp_outside::{RealFiles, RealSink};
use std::marker::Brand;
use std::process::ExitCode;
use std::sync::ledger::{Blank, Ledger};

mod words;

use words::words_of;

fn main(rt: HostRuntime) -> ExitCode {
    let outcome = outcome_of::<Brand>(rt, Blank::new(1));
    ExitCode::from(outcome.code())
}

// Runs the words of the command line, over a ledger for the count of steps.
fn outcome_of<L: Ledger>(rt: HostRuntime, blank: Blank) -> Outcome
    requires name { blank.name ≡ L.name }
    requires parts { blank.parts ≡ L.parts }
    requires some { 0 < blank.parts }
{
    let mut err = RealSink::new(rt.stderr());
    let words = match words_of(&rt) {
        Ok(words) => words,
        Err(refusal) => {
            let outcome = Outcome::Refused(refusal);
            mp_run::tell(&mut err, &outcome);
            return outcome;
        }
    };
    let mut files = RealFiles::new(rt);
    let mut out = RealSink::new(rt.stdout());
    let mut steps = mp_steps::start::<L>(blank);
    mp_run::run(
        rt.alloc(),
        &words,
        &mut files,
        &mut out,
        &mut err,
        &mut steps,
    )
}
