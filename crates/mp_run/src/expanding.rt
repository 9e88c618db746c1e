// The text that a job works on.
ghost use Rattle.std.specs.Prelude.{◌≤◌, length, IfOk, MatchResult};
ghost use Rattle.mp_outside.specs.Outside.{Later};
ghost use Rattle.mp_macro.specs.Expansion.{expands};
ghost use Rattle.mp_run.specs.Verdict.{expansion_step};
ghost use Rattle.mp_run.specs.Answers.{SaysFiles, EndsEarly, FilesShow};

use mp_base::{Bytes, Refusal};
use mp_macro::ExpandFault;
use mp_outside::Files;
use mp_words::Words;
use std::alloc::Global;

/// The text of the file that the words name, with all macros carried out; or the first refusal in the order of expansion.
pub fn expanded<F: Files>(alloc: Global, files: &mut F, words: &Words) -> Result<Bytes, Refusal>
    requires { length words.now.file ≤ 128 }
    ensures says { SaysFiles (λ text. text) (F.outside files.old).listing (λ l. expansion_step (expands l words.now.file words.now.defines)) result }
    ensures shows { MatchResult result (λ _. Unit {0}) (FilesShow (F.outside files.old) (F.outside files.new)) }
    ensures short { IfOk result (λ text. length text ≤ 8388608) }
    ensures early { MatchResult result (λ _. Unit {0}) EndsEarly }
    ensures later { Later (F.outside files.old) (F.outside files.new) }
{
    match mp_macro::expand(alloc, files, words.file.as_slice(), &words.defines) {
        Ok(text) => Ok(text),
        Err(ExpandFault::Macro { kind, file, line }) => Err(Refusal::Macro { kind, file, line }),
        Err(ExpandFault::Absent { name }) => Err(Refusal::Absent { name }),
        Err(ExpandFault::ReadFault { count }) => Err(Refusal::ReadFault { count }),
        Err(ExpandFault::NoMemory) => Err(Refusal::NoMemory),
    }
}
