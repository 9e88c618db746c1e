// The words as clap reads them.
ghost use Rattle.std.specs.Prelude.{◌≡◌, None, Ok, IfOk, IfErr};
ghost use Rattle.clap.specs.Walk.{texts};
ghost use Rattle.clap.specs.Words.{app_of, kind_of};
ghost use Rattle.mp_words.specs.Command.{command_app, word_in, words_in};
ghost use Rattle.mp_words.specs.Words.{defines_of, request_of};
ghost use Rattle.mp_words.specs.Shown.{request_seen, wrong_of};

use crate::define::{copy_of, define_of};
use crate::words::{Words, job_of};
use clap::error::ErrorKind;
use clap::{Arg, ArgMatches, Command, Error};
use mp_base::NoMemory;
use mp_mvalue::Defines;
use std::alloc::{AllocError, Global};

// The command: a job, a file and definitions.
fn command<'a>(alloc: Global) -> Result<Command<'a>, AllocError>
    ensures { IfOk result (λ c. app_of c ≡ command_app) }
{
    let job = Arg::new(alloc, "job").required(true);
    let file = Arg::new(alloc, "file").required(true);
    let defines = Arg::new(alloc, "defines").num_args(0..);
    let bare = Command::new(alloc, "modpath")
        .no_binary_name(true)
        .disable_help_flag(true);
    bare.arg(job)?.arg(file)?.arg(defines)
}

// What clap makes of words of which none is wrong: matches that hold them, unless there was no memory.
pub(crate) fn matches_of<'a>(alloc: Global, words: &'a [&'a str]) -> Result<ArgMatches<'a>, Error>
    requires { wrong_of (request_of (texts words.now)) ≡ None }
    ensures words { IfOk result (λ m. words_in m ≡ texts words.entry.now) }
    ensures memory { IfErr result (λ e. kind_of e ≡ ErrorKind.OutOfMemory) }
{
    command(alloc)?.try_get_matches_from(words)
}

// What matches ask for, where none of the words that they hold is wrong.
pub(crate) fn request_in(alloc: Global, matches: &ArgMatches) -> Result<Words, NoMemory>
    requires { wrong_of (request_of (words_in matches.now)) ≡ None }
    ensures { IfOk result (λ w. request_of (words_in matches.now) ≡ Ok (request_seen w)) }
{
    let job = job_of(word_in(matches, "job")).unwrap();
    let file = copy_of(alloc, word_in(matches, "file"))?;
    let defines = defines_of(alloc, matches.get_strs("defines").unwrap_or(&[]))?;
    Ok(Words::with_defaults(job, file, defines))
}

// The word that matches hold under this name, or an empty one.
fn word_in<'a>(matches: &ArgMatches<'a>, name: &str) -> &'a [u8]
    ensures { result.now ≡ word_in matches.now name.now }
{
    matches.get_str(name).unwrap_or("").as_bytes()
}

// The definitions that words are, where none of them is wrong.
fn defines_of(alloc: Global, words: &[&str]) -> Result<Defines, NoMemory>
    requires { wrong_of (defines_of 3 1000 (texts words.now)) ≡ None }
    ensures { IfOk result (λ ds. defines_of 3 1000 (texts words.now) ≡ Ok ds) }
{
    let mut defines = Defines::new(alloc);
    for word in words {
        defines.push(define_of(alloc, word.as_bytes())?)?;
    }
    Ok(defines)
}
