// The names of auxiliary variables.
ghost use Rattle.std.specs.Prelude.{◌≡◌, ◌<◌, ◌++◌, length, OnOk};
ghost use Rattle.mp_solutions.specs.Auxiliaries.{decimal_digits, direction_word, auxiliary_name};
ghost use Rattle.mp_shift.specs.Called.{auxiliary_of, direction_of};

use crate::parts::{Auxiliary, Direction};
use itoa::Buffer;
use mp_base::{Bytes, NoMemory};
use mp_names::Names;
use mp_statements::NameKind;

// Writes the name of this one: `AUX_LEAD_x_2` is x two periods later (Dynare manual, "Auxiliary variables"; the names
// are modpath's own).
pub(crate) fn put_name(out: &mut Bytes, names: &Names, auxiliary: Auxiliary) -> Result<(), NoMemory>
    requires { auxiliary.place < length names.now.endogenous }
    ensures { OnOk result (out.new ≡ out.old ++ auxiliary_name names.now.endogenous (auxiliary_of auxiliary)) }
{
    put_direction(out, auxiliary.direction)?;
    out.add(names.of_kind(NameKind::Endogenous).name(auxiliary.place))?;
    out.add(b"_")?;
    put_digits(out, u64::from(auxiliary.index) + 1)
}

fn put_direction(out: &mut Bytes, direction: Direction) -> Result<(), NoMemory>
    ensures { OnOk result (out.new ≡ out.old ++ direction_word (direction_of direction)) }
{
    match direction {
        Direction::Lead => out.add(b"AUX_LEAD_"),
        Direction::Lag => out.add(b"AUX_LAG_"),
    }
}

#[tactic(auto, using(mp_solutions::proofs::Digits::decimal_of_any_size))]
fn put_digits(out: &mut Bytes, n: u64) -> Result<(), NoMemory>
    ensures { OnOk result (out.new ≡ out.old ++ decimal_digits n) }
{
    out.add(Buffer::new().format(n).as_bytes())
}
