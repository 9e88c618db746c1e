// The options of a model block.
ghost use Rattle.std.specs.Prelude.{◌≡◌};
ghost use Rattle.mp_declared.specs.Declared.{is_known_option};

// Whether a model block may have this option, which is taken and not used (Dynare manual, "The model block").
pub(crate) fn is_known_option(name: &[u8]) -> bool
    ensures { result ≡ is_known_option name.now }
{
    name == b"linear".as_slice()
        || name == b"block".as_slice()
        || name == b"bytecode".as_slice()
        || name == b"use_dll".as_slice()
        || name == b"no_static".as_slice()
}
