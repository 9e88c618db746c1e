// A word NAME=VALUE.
ghost use Rattle.std.specs.Prelude.{◌≡◌, ◌<◌, Some, None, length, position, IfOk, IsTrue, IfSome, MatchOption, is_some};
ghost use Rattle.std.specs.Char.{is_ascii_digit};
ghost use Rattle.std.specs.List.{list_all, list_any};
ghost use Rattle.mp_tokens.specs.Tokens.{is_first, is_word};
ghost use Rattle.mp_mvalue.specs.declared.value.Value.{Whole, Text};
ghost use Rattle.mp_words.specs.Words.{is_name, is_taken, is_definable, is_barred, is_value, are_digits, number_within, number_value, value_of, is_equals, define_of};

use mp_base::{Bytes, NoMemory};
use mp_bytes::{is_first, is_word, number_up_to};
use mp_mvalue::{Define, Value};
use std::alloc::Global;

/// Whether a word is NAME=VALUE: a macro name that is not reserved, and at most 128 bytes without a quote or a newline.
pub(crate) fn is_define(word: &[u8]) -> bool
    ensures { result ≡ is_some (define_of word.now) }
{
    match equals(word) {
        None => false,
        Some(at) => is_definable(&word[..at]) && is_value(&word[at + 1..]),
    }
}

/// The definition that a word NAME=VALUE is. The value is a truth value, a whole number of 64 bits or else a text.
pub(crate) fn define_of(alloc: Global, word: &[u8]) -> Result<Define, NoMemory>
    requires { IsTrue (is_some (define_of word.now)) }
    ensures { IfOk result (λ d. define_of word.now ≡ Some d) }
{
    let at = equals(word).unwrap();
    Ok(Define {
        name: copy_of(alloc, &word[..at])?,
        value: value_of(alloc, &word[at + 1..])?,
    })
}

// Where the first '=' stands.
fn equals(word: &[u8]) -> Option<usize>
    ensures place { result ≡ position is_equals word.now }
    ensures within { IfSome result (λ n. n < length word.now) }
{
    word.iter().position(|b| *b == b'=')
}

// A copy of the bytes.
pub(crate) fn copy_of(alloc: Global, bytes: &[u8]) -> Result<Bytes, NoMemory>
    ensures { IfOk result (λ b. b ≡ bytes.now) }
{
    let mut copy = Bytes::new(alloc);
    copy.add(bytes)?;
    Ok(copy)
}

fn is_name(name: &[u8]) -> bool
    ensures { result ≡ is_name name.now }
{
    let Some((first, more)) = name.split_first() else {
        return false;
    };
    is_first(*first) && all_words(more) && more.len() < 128
}

fn all_words(bytes: &[u8]) -> bool
    ensures { result ≡ list_all is_word bytes.now }
{
    bytes.iter().all(|b| is_word(*b))
}

fn is_taken(name: &[u8]) -> bool
    ensures { result ≡ is_taken name.now }
{
    name == b"true".as_slice() || name == b"false".as_slice() || name == b"in".as_slice()
}

fn is_definable(name: &[u8]) -> bool
    ensures { result ≡ is_definable name.now }
{
    is_name(name) && !mp_lex::is_reserved(name) && !is_taken(name)
}

fn is_value(text: &[u8]) -> bool
    ensures { result ≡ is_value text.now }
{
    text.len() <= 128 && !has_barred(text)
}

// Whether a quote or a newline is there.
fn has_barred(text: &[u8]) -> bool
    ensures { result ≡ list_any is_barred text.now }
{
    text.iter().any(|b| *b == b'"' || *b == b'\n')
}

// Digits, one at least.
fn are_digits(digits: &[u8]) -> bool
    ensures { result ≡ are_digits digits.now }
{
    !digits.is_empty() && all_digits(digits)
}

fn all_digits(digits: &[u8]) -> bool
    ensures { result ≡ list_all is_ascii_digit digits.now }
{
    digits.iter().all(|d| d.is_ascii_digit())
}

// The number that digits write, where it is at most this one.
fn number_within(most: u64, digits: &[u8]) -> Option<u64>
    ensures { result ≡ number_within most digits.now }
{
    if !are_digits(digits) {
        return None;
    }
    number_up_to(most, digits)
}

// A whole number of 64 bits, or None.
fn number_of(text: &[u8]) -> Option<i64>
    ensures { MatchOption result (number_value text.now ≡ Text text.now) (λ n. number_value text.now ≡ Whole n) }
{
    let (first, digits) = text.split_first()?;
    if *first == b'-' {
        let number = number_within(1 << 63, digits)?;
        return Some(-(number as i128) as i64);
    }
    let number = number_within((1 << 63) - 1, text)?;
    Some(number as i64)
}

// A truth value, a whole number of 64 bits, or else a text.
fn value_of(alloc: Global, text: &[u8]) -> Result<Value, NoMemory>
    ensures { IfOk result (λ v. v ≡ value_of text.now) }
{
    if text == b"true".as_slice() {
        return Ok(Value::Truth(true));
    }
    if text == b"false".as_slice() {
        return Ok(Value::Truth(false));
    }
    match number_of(text) {
        Some(number) => Ok(Value::Whole(number)),
        None => Ok(Value::Text(copy_of(alloc, text)?)),
    }
}
