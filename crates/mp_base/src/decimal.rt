// Units of 10^-12 as decimals.
ghost use Rattle.std.specs.Prelude.{◌≡◌, ◌+◌, ◌*◌, ◌^◌, ◌≤◌, ◌++◌, length, replicate, unsigned_abs};
ghost use Rattle.mp_base.specs.Decimals.{decimal_text, magnitude_text};

use itoa::Buffer;
use std::marker::Model;

// One, in units.
const ONE: u128 = 1_000_000_000_000;

/// The text of a decimal, at most 54 bytes.
#[derive(Drop)]
pub struct Decimal {
    buffer: [u8; 54],
    len: usize,
}

impl Model for Decimal {
    ghost use Rattle.std.specs.Prelude.{List, ℕ, take, ◌≤◌};

    ghost Value = { List ℕ };

    ghost view = { λ d. take d.len d.buffer };

    ghost invariant = { λ d. d.len ≤ 54 };
}

impl Decimal {
    /// So many units of 10^-12, with 12 places; at most 22 bytes up to a magnitude of 2 * 10^19 units.
    pub fn of_units(units: i128) -> Decimal
        ensures text { result ≡ decimal_text units }
        ensures short { unsigned_abs units ≤ 2 * 10 ^ 19 → length result ≤ 22 }
    {
        let mut text = Decimal {
            buffer: [0; 54],
            len: 0,
        };
        if units < 0 {
            text.append(b"-");
        }
        text.append_magnitude(units.unsigned_abs());
        text
    }

    /// Its bytes, lent.
    pub fn bytes(&self) -> &[u8]
        ensures value { result.now ≡ self.now }
        ensures short { length self.now ≤ 54 }
    {
        &self.buffer[..self.len]
    }

    fn append(&mut self, piece: &[u8])
        requires { length self.old + length piece.now ≤ 54 }
        ensures value { self.new ≡ self.old ++ piece.now }
        ensures grown { length self.new ≡ length self.old + length piece.now }
    {
        let end = self.len + piece.len();
        self.buffer[self.len..end].copy_from_slice(piece);
        self.len = end;
    }

    // A magnitude in units.
    #[tactic(auto, using(crate::proofs::Digits::twelve_digits, crate::proofs::Digits::eight_digits))]
    fn append_magnitude(&mut self, size: u128)
        requires { length self.old ≤ 1 }
        ensures value { self.new ≡ self.old ++ magnitude_text size }
        ensures short { size ≤ 2 * 10 ^ 19 → length self.new ≤ length self.old + 21 }
    {
        let mut whole = Buffer::new();
        let mut part = Buffer::new();
        self.append(whole.format(size / ONE).as_bytes());
        self.append(b".");
        let digits = part.format(size % ONE).as_bytes();
        self.append_zeros(12 - digits.len());
        self.append(digits);
    }

    // So many zeros.
    fn append_zeros(&mut self, count: usize)
        requires few { count ≤ 12 }
        requires room { length self.old + count ≤ 54 }
        ensures value { self.new ≡ self.old ++ replicate count 48 }
        ensures grown { length self.new ≡ length self.old + count }
    {
        let zeros = [b'0'; 12];
        self.append(&zeros[..count]);
    }
}
