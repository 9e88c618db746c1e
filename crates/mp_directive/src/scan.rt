// Parts of a line.
ghost use Rattle.std.specs.Prelude.{◌≡◌, ◌≤◌, ◌∷◌, ◌<◌, length, false, option_map};
ghost use Rattle.mp_directive.specs.Lines.{lines};
ghost use Rattle.mp_directive.specs.Directives.{is_name, trimmed, word, after_word, code_length, code, quoted_after, begins_comment, past, past_mark};

use mp_bytes::{Run, is_first, run_length};

// Without the blanks in front.
pub(crate) fn trimmed(bytes: &[u8]) -> &[u8]
    ensures { result.now ≡ trimmed bytes.now }
{
    &bytes[run_length(Run::Blanks, bytes)..]
}

// The letters, digits and `_` in front, and what follows them past blanks.
pub(crate) fn split_word(bytes: &[u8]) -> (&[u8], &[u8])
    ensures word { result.0.now ≡ word bytes.now }
    ensures rest { result.1.now ≡ after_word bytes.now }
{
    let (word, rest) = bytes.split_at(run_length(Run::Word, bytes));
    (word, trimmed(rest))
}

// A macro name: no digit first, and none of three words.
pub(crate) fn is_name(word: &[u8]) -> bool
    ensures { result ≡ is_name word.now }
{
    let Some(first) = word.first() else {
        return false;
    };
    is_first(*first)
        && word != b"true".as_slice()
        && word != b"false".as_slice()
        && word != b"in".as_slice()
}

/// Whether `//` begins here, with this byte.
pub fn begins_comment(b: u8, more: &[u8]) -> bool
    ensures { result ≡ begins_comment b more.now }
{
    let Some(next) = more.first() else {
        return false;
    };
    b == b'/' && *next == b'/'
}

/// Whether a text is open after this byte.
pub fn quoted_after(quoted: bool, b: u8) -> bool
    ensures { result ≡ quoted_after quoted b }
{
    if b == b'"' {
        return !quoted;
    }
    quoted
}

// How many bytes stand before the first `//` outside a text.
#[tactic(auto, unfolding(crate::specs::Directives::code_length))]
fn code_length(bytes: &[u8]) -> usize
    ensures value { result ≡ code_length false bytes.now }
    ensures within { result ≤ length bytes.now }
{
    let (_, mut rest) = bytes.split_at(0);
    let mut length: usize = 0;
    let mut quoted = false;
    'bytes: while let Some((b, more)) = rest.split_first() {
        if !quoted && begins_comment(*b, more) {
            return length;
        }
        quoted = quoted_after(quoted, *b);
        rest = more;
        length += 1;
    }
    length
}

// Without the comment.
pub(crate) fn code(bytes: &[u8]) -> &[u8]
    ensures { result.now ≡ code bytes.now }
{
    &bytes[..code_length(bytes)]
}

// What follows this byte, where it begins.
fn past(byte: u8, bytes: &[u8]) -> Option<&[u8]>
    ensures { option_map (λ r. r.now) result ≡ past byte bytes.now }
{
    let (first, more) = bytes.split_first()?;
    if *first == byte {
        return Some(more);
    }
    None
}

// What follows `@#`, where it begins.
pub(crate) fn past_mark(bytes: &[u8]) -> Option<&[u8]>
    ensures { option_map (λ r. r.now) result ≡ past_mark bytes.now }
{
    past(b'#', past(b'@', bytes)?)
}

/// The first line, and what stands after its newline.
pub fn first_line(text: &[u8]) -> (&[u8], &[u8])
    requires { 0 < length text.now }
    ensures value { lines text.now ≡ result.0.now ∷ lines result.1.now }
    ensures fewer { length result.1.now < length text.now }
{
    let (line, rest) = text.split_at(run_length(Run::Line, text));
    match rest.split_first() {
        Some((_, more)) => (line, more),
        None => (line, rest),
    }
}
