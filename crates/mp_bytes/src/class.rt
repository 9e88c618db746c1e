// Sorts of bytes.
ghost use Rattle.std.specs.Prelude.{◌≡◌};
ghost use Rattle.mp_tokens.specs.Tokens.{is_blank, is_first, is_word};

/// A space, a tab, a carriage return, a line feed or a form feed (Dynare manual, "Conventions").
pub fn is_blank(b: u8) -> bool
    ensures { result ≡ is_blank b }
{
    b == b' ' || b == b'\t' || b == b'\r' || b == b'\n' || b == 12
}

/// A letter or an underscore, with which a name begins (Dynare manual, "Conventions").
pub fn is_first(b: u8) -> bool
    ensures { result ≡ is_first b }
{
    b.is_ascii_alphabetic() || b == b'_'
}

/// A letter, a digit or an underscore, with which a name goes on (Dynare manual, "Conventions").
pub fn is_word(b: u8) -> bool
    ensures { result ≡ is_word b }
{
    b.is_ascii_alphanumeric() || b == b'_'
}
