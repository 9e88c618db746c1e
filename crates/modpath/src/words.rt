// The words of the command line.
ghost use Rattle.std.specs.Prelude.{◌≡◌, ◌+◌, ◌^◌, ◌<◌, ◌∷◌, ◌++◌, [], length, vec_len, OnOk};
ghost use Rattle.modpath.specs.Words.{RefusesWord, FitsIn};

use mp_base::{Refusal, WordList};
use std::env::FillError;
use std::rt::Env;

// How many bytes a word is expected to have at most; the buffer grows for a longer one.
const FIRST_ROOM: usize = 4_096;

// What stands at a place of the command line: a word of so many bytes, or nothing more.
enum Filled {
    Word(usize),
    End,
    NoMemory,
}

// The words after the program's name. The first one that isn't text is refused with its number, from 1.
pub fn words_of(rt: &HostRuntime) -> Result<WordList, Refusal> {
    let mut words = WordList::new(rt.alloc());
    let Ok(mut buffer) = vec![in rt.alloc(); 0u8; FIRST_ROOM] else {
        return Err(Refusal::NoMemory);
    };
    'words: for number in 1..u32::MAX {
        match fill(rt, number as usize, &mut buffer) {
            Filled::Word(length) => add_word(&mut words, &buffer[..length], number)?,
            Filled::End => return Ok(words),
            Filled::NoMemory => return Err(Refusal::NoMemory),
        }
    }
    Err(Refusal::NoMemory)
}

// Adds a word, or refuses it where it isn't text.
fn add_word(words: &mut WordList, bytes: &[u8], number: u32) -> Result<(), Refusal>
    requires { length words.old + 1 < 2 ^ 32 }
    ensures added { OnOk result (words.new ≡ words.old ++ (bytes.now ∷ [])) }
    ensures refused { RefusesWord bytes.now number result }
{
    let Ok(word) = std::str::from_utf8(bytes) else {
        return Err(Refusal::Words { word: number });
    };
    match words.add(word) {
        Ok(()) => Ok(()),
        Err(_) => Err(Refusal::NoMemory),
    }
}

// Puts the word of this number to the start of the buffer, which grows as it needs.
fn fill<R: Env>(rt: &R, number: usize, buffer: &mut Vec<u8>) -> Filled
    ensures { FitsIn result (vec_len buffer.new) }
{
    'rooms: for _ in 0..usize::BITS {
        match rt.arg(number, buffer.as_mut_slice()) {
            Ok(length) => return Filled::Word(length),
            Err(FillError::NotPresent) => return Filled::End,
            Err(FillError::TooLong) => {
                let more = buffer.len().saturating_mul(2);
                if buffer.resize(more, 0).is_err() {
                    return Filled::NoMemory;
                }
            }
        }
    }
    Filled::NoMemory
}
