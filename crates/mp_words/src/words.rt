// The words as a whole.
ghost use Rattle.std.specs.Prelude.{◌≡◌, ◌≤◌, ℕ, length, drop, None, Ok, Err, IfOk};
ghost use Rattle.clap.specs.Walk.{texts};
ghost use Rattle.mp_words.specs.Words.{is_file, IsBuilt, job_of, defines_of, default_request, request_of};
ghost use Rattle.mp_words.specs.Shown.{request_seen, Reads, wrong_of};

use crate::command::{matches_of, request_in};
use crate::define::is_define;
use mp_base::{Bytes, Job, NoMemory, WordList};
use mp_mvalue::Defines;
use std::alloc::{AllocError, Global};
use thiserror::Error;

/// How many definitions may stand.
const MOST: u32 = 1_000;

/// The pivot threshold where the words give none, in units.
const DEFAULT_PIVOT: i128 = 1_000;

/// How many guesses may be tried where the words give no number.
const DEFAULT_GUESSES: u32 = 100;

/// What the words ask for: a job, the name of a file, macro names with values, and settings of numerical work (modpath's
/// own). A unit is 10^-12.
#[derive(Drop)]
pub struct Words {
    /// What is to be done.
    pub job: Job,
    /// The name of the file that it is done on, 1 to 128 bytes.
    pub file: Bytes,
    /// The name of the file with the path that is to be checked.
    pub path: Option<Bytes>,
    /// The number from which a sample is made.
    pub seed: u32,
    /// In units: residual bounds above it are refused. With None it is the text's, or its default.
    pub tolerance: Option<i128>,
    /// In units: elimination refuses a pivot of smaller magnitude.
    pub pivot: i128,
    /// How many Newton steps may be taken. With None it is the text's number, or its default.
    pub steps: Option<u32>,
    /// How many guesses of active pairs or regimes may be tried.
    pub guesses: u32,
    /// Macro names with values, in the order of the words.
    pub defines: Defines,
}

impl Words {
    // A request in which no word gives a setting.
    pub(crate) fn with_defaults(job: Job, file: Bytes, defines: Defines) -> Words
        ensures { request_seen result ≡ default_request job file defines }
    {
        Words {
            job,
            file,
            path: None,
            seed: 0,
            tolerance: None,
            pivot: DEFAULT_PIVOT,
            steps: None,
            guesses: DEFAULT_GUESSES,
            defines,
        }
    }
}

/// Why the words ask for nothing: the number of the first one with which no accepted list begins, from 1, or one more
/// than their number where a word is missing; or there was no memory.
#[derive(Debug, Drop, Error)]
pub enum WordFault {
    #[error("word {word} is wrong")]
    Refused { word: u32 },
    #[error("there was no memory")]
    NoMemory,
}

impl From<NoMemory> for WordFault {
    ghost use Rattle.std.specs.Prelude.{◌≡◌};
    ghost use Rattle.mp_words.specs.declared.words.WordFault.TheVariants.{NoMemory};

    ghost from_gives = { λ _ e. e ≡ NoMemory };

    fn from(_: NoMemory) -> Self {
        WordFault::NoMemory
    }
}

/// What the words ask for: `expand`, `transform` or `derive`, then `FILE {NAME=VALUE}`, with at most 1,000 definitions
/// (modpath's own). The words are tested before they are read, so a wrong word is named whether or not there is memory.
pub fn read_words(alloc: Global, words: &WordList) -> Result<Words, WordFault>
    ensures reads { Reads request_seen result (request_of words.now) }
    ensures refused { (w : ℕ) → request_of words.now ≡ Err w → result ≡ Err (WordFault.Refused w) }
    ensures built { IfOk result (λ w. IsBuilt w.job) }
    ensures short { IfOk result (λ w. length w.file ≤ 128) }
{
    if let Some(word) = wrong_word(words) {
        return Err(WordFault::Refused { word });
    }
    Ok(request(alloc, words)?)
}

// The number of the first word with which no accepted list begins.
fn wrong_word(words: &WordList) -> Option<u32>
    ensures { result ≡ wrong_of (request_of words.now) }
{
    if words.count() < 1 || job_of(words.word(1).as_bytes()).is_none() {
        return Some(1);
    }
    if words.count() < 2 || !is_file(words.word(2).as_bytes()) {
        return Some(2);
    }
    wrong_define(words)
}

// The number of the first word from the third on that is no definition, or one too many.
fn wrong_define(words: &WordList) -> Option<u32>
    requires { 2 ≤ length words.now }
    ensures { result ≡ wrong_of (defines_of 3 1000 (drop 2 words.now)) }
{
    for before in 2..words.count() {
        let at = before + 1;
        if at > MOST + 2 || !is_define(words.word(at).as_bytes()) {
            return Some(at);
        }
    }
    None
}

// What words ask for of which none is wrong.
fn request(alloc: Global, words: &WordList) -> Result<Words, NoMemory>
    requires { wrong_of (request_of words.now) ≡ None }
    ensures { IfOk result (λ w. request_of words.now ≡ Ok (request_seen w)) }
{
    let texts = texts_of(alloc, words)?;
    match matches_of(alloc, texts.as_slice()) {
        Ok(matches) => request_in(alloc, &matches),
        // Right words fail for want of memory alone.
        Err(_) => Err(NoMemory),
    }
}

// The words as texts.
fn texts_of<'a>(alloc: Global, words: &'a WordList) -> Result<Vec<&'a str>, AllocError>
    ensures { IfOk result (λ ts. texts ts.items ≡ words.now) }
{
    let mut texts = Vec::new(alloc);
    for before in 0..words.count() {
        texts.push(words.word(before + 1))?;
    }
    Ok(texts)
}

// The job of a word.
pub(crate) fn job_of(word: &[u8]) -> Option<Job>
    ensures { result ≡ job_of word.now }
{
    if word == b"expand".as_slice() {
        return Some(Job::Expand);
    }
    if word == b"transform".as_slice() {
        return Some(Job::Transform);
    }
    if word == b"derive".as_slice() {
        return Some(Job::Derive);
    }
    None
}

// Whether a word is a file's name.
fn is_file(word: &[u8]) -> bool
    ensures { result ≡ is_file word.now }
{
    !word.is_empty() && word[0] != b'-' && word.len() <= 128
}
