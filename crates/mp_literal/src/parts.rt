// The parts of a literal.
ghost use Rattle.std.specs.Prelude.{◌≡◌, ◌+◌, ◌<◌, ◌≤◌, ◌^◌, ◌++◌, suc, pos, neg_ℤ, drop, length, if◌then◌else◌};
ghost use Rattle.mp_tokens.specs.Tokens.{digits_length, fraction_length, mantissa_length};
ghost use Rattle.mp_tokens.specs.Literals.{fraction_digits, number_of, signed_number, whole_digits, without_end_zeros};

// The digits before and after the point, and what stands after the letter of the exponent.
#[derive(Clone, Copy)]
pub(crate) struct Parts<'t> {
    pub(crate) whole: &'t [u8],
    pub(crate) fraction: &'t [u8],
    pub(crate) exponent: &'t [u8],
}

// Digits before and after the point.
#[derive(Clone, Copy)]
pub(crate) struct Kept<'t> {
    pub(crate) whole: &'t [u8],
    pub(crate) fraction: &'t [u8],
}

// The parts of a literal.
pub(crate) fn parts_of<'t>(literal: &'t [u8]) -> Parts<'t>
    ensures whole { result.whole.now ≡ whole_digits literal.now }
    ensures fraction { result.fraction.now ≡ fraction_digits literal.now }
    ensures exponent { result.exponent.now ≡ drop (suc (mantissa_length literal.now)) literal.now }
{
    let (whole, rest) = literal.split_at(digits_length(literal));
    let (fraction, rest) = rest.split_at(fraction_length(whole.len(), rest));
    Parts {
        whole,
        fraction: past_first(fraction),
        exponent: past_first(rest),
    }
}

// What follows the first byte.
fn past_first<'t>(bytes: &'t [u8]) -> &'t [u8]
    ensures { result.now ≡ drop 1 bytes.now }
{
    match bytes.split_first() {
        Some((_, rest)) => rest,
        None => bytes,
    }
}

// How many digits stand at the front.
fn digits_length(bytes: &[u8]) -> usize
    ensures value { result ≡ digits_length bytes.now }
    ensures within { result ≤ length bytes.now }
{
    for (i, b) in bytes.iter().enumerate() {
        if !b.is_ascii_digit() {
            return i;
        }
    }
    bytes.len()
}

// How many bytes a point and its digits have, after so many digits.
fn fraction_length(before: usize, bytes: &[u8]) -> usize
    requires { before + length bytes.now < 2 ^ 64 }
    ensures value { result ≡ fraction_length before bytes.now }
    ensures within { result ≤ length bytes.now }
{
    let Some((point, rest)) = bytes.split_first() else {
        return 0;
    };
    let digits = digits_length(rest);
    if *point == b'.' && before + digits > 0 {
        1 + digits
    } else {
        0
    }
}

// The digits without the zeros at their end.
pub(crate) fn digits_kept<'t>(whole: &'t [u8], fraction: &'t [u8]) -> Kept<'t>
    ensures value { result.whole.now ++ result.fraction.now ≡ without_end_zeros (whole.now ++ fraction.now) }
    ensures whole { length result.whole.now ≤ length whole.now }
    ensures fraction { length result.fraction.now ≤ length fraction.now }
{
    let fraction = without_end_zeros(fraction);
    if fraction.is_empty() {
        let whole = without_end_zeros(whole);
        return Kept { whole, fraction };
    }
    Kept { whole, fraction }
}

// These digits without the zeros at their end.
fn without_end_zeros<'t>(digits: &'t [u8]) -> &'t [u8]
    ensures value { result.now ≡ without_end_zeros digits.now }
    ensures within { length result.now ≤ length digits.now }
{
    let mut count = digits.len();
    while count > 0 && digits[count - 1] == b'0' {
        count -= 1;
    }
    let (kept, _) = digits.split_at(count);
    kept
}

// Whether a whole number is negative, and its digits.
pub(crate) fn signed<'t>(number: &'t [u8]) -> (bool, &'t [u8])
    ensures { signed_number number.now ≡ (if result.0 then neg_ℤ (pos (number_of result.1.now)) else pos (number_of result.1.now)) }
{
    match number.split_first() {
        Some((b'-', digits)) => (true, digits),
        Some((b'+', digits)) => (false, digits),
        _ => (false, number),
    }
}
