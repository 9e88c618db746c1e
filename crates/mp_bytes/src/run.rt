// How far a run of bytes of one sort reaches.
ghost use Rattle.std.specs.Prelude.{◌≡◌, ◌≤◌, length};
ghost use Rattle.std.specs.List.{prefix_len};
ghost use Rattle.mp_bytes.specs.Runs.{goes_on};

use crate::class::{is_blank, is_word};

/// The sorts of runs: blanks; the letters, digits and underscores of a word; digits; what stands on a line; and what
/// stands there before the next quote of this kind (modpath's own).
#[derive(Clone, Copy, Debug)]
pub enum Run {
    Blanks,
    Word,
    Digits,
    Line,
    Inside(u8),
}

/// How many bytes at the front are of this sort.
pub fn run_length(run: Run, bytes: &[u8]) -> usize
    ensures value { result ≡ prefix_len (goes_on run) bytes.now }
    ensures within { result ≤ length bytes.now }
{
    for (i, b) in bytes.iter().enumerate() {
        if !goes_on(run, *b) {
            return i;
        }
    }
    bytes.len()
}

// Whether this byte goes on with a run of this sort.
fn goes_on(run: Run, b: u8) -> bool
    ensures { result ≡ goes_on run b }
{
    match run {
        Run::Blanks => is_blank(b),
        Run::Word => is_word(b),
        Run::Digits => b.is_ascii_digit(),
        Run::Line => b != b'\n',
        Run::Inside(quote) => b != quote && b != b'\n',
    }
}
