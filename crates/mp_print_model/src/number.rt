// The digits of numbers.
ghost use Rattle.std.specs.Prelude.{◌≡◌, ◌+◌, ◌++◌, replicate, OnOk};
ghost use Rattle.mp_frac.specs.Value.{value_of};
ghost use Rattle.mp_canonical.specs.Numbers.{decimal_digits, padded, pointed, number_text};
ghost use Rattle.mp_canonical.specs.Terms.{canonical_shift, canonical_whole, canonical_exponent, canonical_value};
ghost use Rattle.mp_canonical.specs.Spelled.{shift_text, spelled};

use itoa::Buffer;
use mp_base::{Bytes, NoMemory};
use mp_frac::Frac;

#[tactic(auto, using(mp_solutions::proofs::Digits::decimal_of_any_size))]
fn put_digits(out: &mut Bytes, n: u128) -> Result<(), NoMemory>
    ensures { OnOk result (out.new ≡ out.old ++ decimal_digits n) }
{
    out.add(Buffer::new().format(n).as_bytes())
}

fn put_zeros(out: &mut Bytes, n: usize) -> Result<(), NoMemory>
    ensures { OnOk result (out.new ≡ out.old ++ replicate n 48) }
{
    for _written in 0..n {
        out.add(b"0")?;
    }
    Ok(())
}

// The number m / 10^s with s places.
pub(crate) fn put_number(out: &mut Bytes, m: u128, s: u8) -> Result<(), NoMemory>
    ensures { OnOk result (out.new ≡ out.old ++ number_text m s) }
{
    if s == 0 {
        put_digits(out, m)
    } else {
        put_places(out, Buffer::new().format(m).as_bytes(), s as usize)
    }
}

// Digits with a point before the last so many.
fn put_places(out: &mut Bytes, digits: &[u8], places: usize) -> Result<(), NoMemory>
    ensures { OnOk result (out.new ≡ out.old ++ pointed places (padded (places + 1) digits.now)) }
{
    if digits.len() > places {
        let (whole, part) = digits.split_at(digits.len() - places);
        out.add(whole)?;
        out.add(b".")?;
        out.add(part)
    } else {
        out.add(b"0.")?;
        put_zeros(out, places - digits.len())?;
        out.add(digits)
    }
}

// "(+k)" or "(-k)", and nothing for 0.
pub(crate) fn put_shift(out: &mut Bytes, shift: i16) -> Result<(), NoMemory>
    ensures { OnOk result (out.new ≡ out.old ++ shift_text (canonical_shift shift)) }
{
    if shift == 0 {
        return Ok(());
    }
    out.add(if shift < 0 { b"(-" } else { b"(+" })?;
    put_digits(out, shift.unsigned_abs() as u128)?;
    out.add(b")")
}

// "k" or "(-k)".
#[tactic(auto, unfolding(mp_canonical::specs::Spelled::spelled))]
pub(crate) fn put_exponent(out: &mut Bytes, exponent: i8) -> Result<(), NoMemory>
    ensures { OnOk result (out.new ≡ out.old ++ spelled (canonical_exponent exponent)) }
{
    if exponent >= 0 {
        return put_digits(out, exponent as u128);
    }
    out.add(b"(-")?;
    put_digits(out, exponent.unsigned_abs() as u128)?;
    out.add(b")")
}

// "n", or "n/d" in lowest terms, with "-" before it if it is negative.
#[tactic(auto, unfolding(mp_canonical::specs::Spelled::spelled))]
pub(crate) fn put_fraction(out: &mut Bytes, value: &Frac) -> Result<(), NoMemory>
    ensures { OnOk result (out.new ≡ out.old ++ spelled (canonical_value (value_of value.now))) }
{
    let parts = value.parts();
    put_signed(out, parts.n)?;
    if parts.d == 1 {
        return Ok(());
    }
    out.add(b"/")?;
    put_digits(out, parts.d.unsigned_abs())
}

#[tactic(auto, unfolding(mp_canonical::specs::Spelled::spelled))]
fn put_signed(out: &mut Bytes, n: i128) -> Result<(), NoMemory>
    ensures { OnOk result (out.new ≡ out.old ++ spelled (canonical_whole n)) }
{
    if n < 0 {
        out.add(b"-")?;
    }
    put_digits(out, n.unsigned_abs())
}
