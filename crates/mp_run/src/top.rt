// The top call.
ghost use Rattle.std.specs.Prelude.{◌≡◌, ◌≤◌, ℕ, length, Err, IfOk, IfSome, MatchResult};
ghost use Rattle.mp_outside.specs.Outside.{Later, Tells};
ghost use Rattle.mp_words.specs.Words.{IsBuilt, request_of};
ghost use Rattle.mp_tell.specs.Lines.{line};
ghost use Rattle.mp_transform.specs.Steps.{Says, TextShows};
ghost use Rattle.mp_run.specs.Verdict.{job_gives, run_gives};
ghost use Rattle.mp_run.specs.Answers.{SaysFiles, ShowsCause, EndsEarly, RefusalShows, AsVerdict, Complete, ShowsSink, IsDone, Writes, WritesResult};
ghost use Rattle.mp_run.specs.Headline.{WritesSameSolutions};
ghost use Rattle.mp_run.specs.Slopes.{WritesDerivatives};
ghost use Rattle.mp_run.specs.Wrong.{TellsWrongToken};

use crate::expanding::expanded;
use mp_base::{Bytes, Job, Outcome, Refusal, Steps, WordList};
use mp_outside::{Files, Sink};
use mp_words::WordFault;
use std::alloc::Global;
use std::sync::ledger::Ledger;

/// Does what the words say: makes the whole result in memory, writes it to `out`, and tells a refusal on `err`.
/// `steps` counts the operations of fixed point.
pub fn run<F: Files, O: Sink, E: Sink, L: Ledger>(
    alloc: Global,
    words: &WordList,
    files: &mut F,
    out: &mut O,
    err: &mut E,
    steps: &mut Steps<L>,
) -> Outcome
    // What is answered where the files tell their contents.
    ensures verdict { AsVerdict (F.outside files.old).listing words.now (O.held out.old) (O.held out.new) result }
    ensures complete { Complete words.now (F.outside files.old) (F.outside files.new) (O.held out.old) (O.held out.new) result }
    ensures result { WritesResult (F.outside files.old).listing words.now (O.held out.old) (O.held out.new) result }
    // The first wrong token is told exactly.
    ensures wrong_token { TellsWrongToken (F.outside files.old).listing words.now result }
    // A path solves what is written exactly when it solves what was read.
    ensures headline { WritesSameSolutions (F.outside files.old).listing words.now (O.held out.old) (O.held out.new) result }
    // Written derivatives are those that dual numbers give, one for each place that occurs.
    ensures derivatives { WritesDerivatives (F.outside files.old).listing words.now (O.held out.old) (O.held out.new) result }

    // What is answered in any case.
    ensures wrong_words { (w : ℕ) → request_of words.now ≡ Err w → result ≡ Outcome.Refused (Refusal.Words w) }
    ensures cause { ShowsCause words.now (F.outside files.old) (F.outside files.new) result }
    ensures sink { ShowsSink (O.held out.old) (O.held out.new) result }
    ensures told { Tells (E.held err.old) (E.held err.new) (line result) }
    ensures later { Later (F.outside files.old) (F.outside files.new) }
    ensures counted { steps.new ≡ steps.old }
{
    let _ = steps;
    let outcome = written(alloc, words, files, out);
    mp_tell::tell(err, &outcome);
    outcome
}

// Writes the result, if there is one.
fn written<F: Files, O: Sink>(
    alloc: Global,
    words: &WordList,
    files: &mut F,
    out: &mut O,
) -> Outcome
    ensures verdict { AsVerdict (F.outside files.old).listing words.now (O.held out.old) (O.held out.new) result }
    ensures result { WritesResult (F.outside files.old).listing words.now (O.held out.old) (O.held out.new) result }
    ensures wrong_words { (w : ℕ) → request_of words.now ≡ Err w → result ≡ Outcome.Refused (Refusal.Words w) }
    ensures cause { ShowsCause words.now (F.outside files.old) (F.outside files.new) result }
    ensures sink { ShowsSink (O.held out.old) (O.held out.new) result }
    ensures later { Later (F.outside files.old) (F.outside files.new) }
{
    let bytes = match result_of(alloc, words, files) {
        Ok(bytes) => bytes,
        Err(refusal) => return Outcome::Refused(refusal),
    };
    match mp_outside::write_whole(out, bytes.as_slice()) {
        Ok(()) => Outcome::Done,
        Err(_) => Outcome::Refused(Refusal::WriteFault {
            count: out.faults(),
        }),
    }
}

// The bytes that the words ask for, or the refusal that ends the run before anything is written.
fn result_of<F: Files>(alloc: Global, words: &WordList, files: &mut F) -> Result<Bytes, Refusal>
    ensures says { SaysFiles (λ bytes. bytes) (F.outside files.old).listing (run_gives words.now) result }
    ensures writes { IfOk result (λ bytes. IfSome (F.outside files.old).listing (λ l. Writes words.now l bytes)) }
    ensures wrong_words { (w : ℕ) → request_of words.now ≡ Err w → result ≡ Err (Refusal.Words w) }
    ensures cause { MatchResult result (λ _. Unit {0}) (RefusalShows words.now (F.outside files.old) (F.outside files.new)) }
    ensures early { MatchResult result (λ _. Unit {0}) EndsEarly }
    ensures later { Later (F.outside files.old) (F.outside files.new) }
{
    let request = match mp_words::read_words(alloc, words) {
        Ok(request) => request,
        Err(WordFault::Refused { word }) => return Err(Refusal::Words { word }),
        Err(WordFault::NoMemory) => return Err(Refusal::NoMemory),
    };
    match expanded(alloc, files, &request) {
        Ok(text) => done(alloc, request.job, text),
        Err(refusal) => Err(refusal),
    }
}

// What a job makes of the expanded text.
fn done(alloc: Global, job: Job, text: Bytes) -> Result<Bytes, Refusal>
    requires built { IsBuilt job }
    requires short { length text ≤ 8388608 }
    ensures says { Says (λ bytes. bytes) (job_gives job text) result }
    ensures done { IfOk result (λ bytes. IsDone job text bytes) }
    ensures shows { MatchResult result (λ _. Unit {0}) TextShows }
{
    match job {
        Job::Expand => Ok(text),
        Job::Transform => mp_transform::transformed(alloc, text.as_slice()),
        Job::Derive => mp_transform::derived(alloc, text.as_slice()),
        Job::Solve | Job::Occbin | Job::Check | Job::Sample => Err(Refusal::Words { word: 1 }),
    }
}
