// Where the stand-ins of variables begin.
ghost use Rattle.std.specs.Prelude.{◌≡◌, ◌<◌, ◌-◌, ◌^◌, [], ◌∷◌, ◌++◌, Some, slice_get, length, IfOk, OnOk};
ghost use Rattle.mp_model_data.specs.Shown.{model_data};
ghost use Rattle.mp_shift.specs.Stand.{AreFirst, AreFirstFrom};

use crate::reach::{Reach, reaches};
use mp_base::NoMemory;
use mp_model_data::Model;
use mp_statements::NameKind;
use std::alloc::Global;

/// The places, from 0, of the first auxiliaries of a variable ahead and back. A variable that has none has the places
/// where they would stand.
#[derive(Clone, Copy)]
pub struct First {
    pub lead: u64,
    pub lag: u64,
}

// Where the auxiliaries of each endogenous variable of a model begin.
pub(crate) fn firsts(alloc: Global, model: &Model) -> Result<Vec<First>, NoMemory>
    ensures { IfOk result (λ v. AreFirst (model_data model.now) v.items) }
{
    let count = model.graph().names().count(NameKind::Endogenous);
    let reaches = reaches(alloc, model)?;
    let shifts = reaches.as_slice();
    let found = firsts_from(alloc, count, shifts)?;
    Ok(found)
}

// The same for variables that are shifted so far, where this is the place behind all variables.
fn firsts_from(alloc: Global, start: u32, reaches: &[Reach]) -> Result<Vec<First>, NoMemory>
    requires { length reaches.now < 2 ^ 32 }
    ensures { IfOk result (λ v. AreFirstFrom start reaches.now v.items) }
{
    let mut found = Vec::new(alloc);
    let mut place = u64::from(start);
    'turns: for index in 0..reaches.len() {
        let reach = reach_at(reaches, index);
        let lag = place + needed(reach.lead);
        found.push(First { lead: place, lag })?;
        place = lag + needed(reach.lag);
    }
    Ok(found)
}

fn reach_at(reaches: &[Reach], place: usize) -> Reach
    requires { place < length reaches.now }
    ensures { slice_get reaches.now place ≡ Some result }
{
    reaches[place]
}

// How many auxiliaries there are that way.
fn needed(reach: u16) -> u64
    ensures count { result ≡ reach - 1 }
    ensures small { result < 65536 }
{
    u64::from(reach.saturating_sub(1))
}
