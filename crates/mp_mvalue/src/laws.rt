// A law of the definitions that the contracts cite. The code here does nothing.
ghost use Rattle.std.specs.Prelude.{◌≡◌, true};
ghost use Rattle.mp_mvalue.specs.Values.{same};
ghost use Rattle.mp_mvalue.specs.declared.value.Value.{Value};

/// Two values are the same exactly where they are equal.
pub fn same_law()
    ensures only_equal { (a b : Value) → same a b ≡ true → a ≡ b }
    ensures equal { (a b : Value) → a ≡ b → same a b ≡ true }
{}
