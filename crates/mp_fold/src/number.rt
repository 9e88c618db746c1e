// The values of literals and of parameters.
ghost use Rattle.std.specs.Prelude.{◌≡◌, ◌≤◌, ◌^◌, pos};
ghost use Rattle.mp_tokens.specs.Literals.{decimal_of};
ghost use Rattle.mp_rational.specs.Fraction.{ratio_of};
ghost use Rattle.mp_frac.specs.Value.{value_of};
ghost use Rattle.mp_values.specs.Limits.{limited, known};
ghost use Rattle.mp_values.specs.Values.{decimal_value};
ghost use Rattle.mp_values.specs.Table.{value_in};
ghost use Rattle.mp_fold.specs.Shown.{shown, and_then};

use crate::fault::{FoldFault, Name};
use mp_base::{DataKind, DataRefusal, Reduced};
use mp_file::Named;
use mp_frac::Frac;
use mp_literal::{Decimal, decimal};
use mp_names::Table;

// The value of a literal at this place, where it is in range.
pub(crate) fn literal_value<'t>(literal: &[u8], at: u32) -> Result<Frac, FoldFault<'t>>
    ensures { shown value_of result ≡ and_then (limited.literal at (decimal_of literal.now)) (λ n. Ok (decimal_value n)) }
{
    match decimal(literal) {
        Some(number) => Ok(fraction(number)),
        None => Err(FoldFault::Refused(DataRefusal {
            kind: DataKind::Literal,
            at,
            first: Reduced::whole(0),
            second: Reduced::whole(37),
        })),
    }
}

// The fraction of a number with places.
fn fraction(number: Decimal) -> Frac
    requires m_small { number.m ≤ 10 ^ 37 }
    requires s_small { number.s ≤ 37 }
    ensures { value_of result ≡ ratio_of (pos number.m) (10 ^ number.s) }
{
    Frac::ratio(number.m, 10u128.pow(number.s as u32))
}

// The value of a parameter.
pub(crate) fn known_value<'t>(table: &Table<'t>, name: &Named<'t>) -> Result<Frac, FoldFault<'t>>
    ensures { shown value_of result ≡ known name.now.name.now (value_in table.now name.now.name.now) }
{
    match table.get(name.name) {
        Some(value) => Ok(value),
        None => Err(FoldFault::Unvalued {
            name: Name::of(name.name),
        }),
    }
}
