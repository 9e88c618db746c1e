// The list of auxiliary variables with their names.
ghost use Rattle.std.specs.Prelude.{◌≡◌, ◌<◌, ◌+◌, ◌-◌, [], ◌∷◌, ◌++◌, Some, length, map, slice_get, IfOk, OnOk};
ghost use Rattle.mp_solutions.specs.Auxiliaries.{chain, auxiliaries};
ghost use Rattle.mp_shift.specs.Reach.{lengths_of};
ghost use Rattle.mp_shift.specs.Called.{auxiliary_of, direction_of, called_of};

use crate::parts::{Auxiliary, Direction};
use crate::reach::Reach;
use mp_base::NoMemory;
use std::alloc::Global;
use std::marker::Model;

/// An auxiliary variable with its name.
#[derive(Clone, Copy)]
pub struct Called<'n> {
    pub auxiliary: Auxiliary,
    pub name: &'n [u8],
}

/// An auxiliary variable, and where its name stands.
#[derive(Clone, Copy)]
pub struct Entry {
    pub auxiliary: Auxiliary,
    pub start: usize,
    pub end: usize,
}

/// Auxiliary variables with their names, in order. All names stand in one text.
#[derive(Drop)]
pub struct Auxiliaries {
    entries: Vec<Entry>,
    text: Vec<u8>,
}

impl Model for Auxiliaries {
    ghost use Rattle.std.specs.Prelude.{List, map, length};
    ghost use Rattle.std.specs.List.{AllByRecursion};
    ghost use Rattle.mp_shift.specs.Called as c;
    ghost use Rattle.mp_shift.specs.Called.{called_code, called_in, IsInside};
    ghost use Rattle.std.specs.Coded.{coded_list};

    ghost Value = { List c.Called };

    ghost coded = { coded_list called_code };

    ghost view = { λ a. map (called_in a.text.items) a.entries.items };

    ghost invariant = { λ a. AllByRecursion (IsInside (length a.text.items)) a.entries.items };
}

impl Auxiliaries {
    // None. They grow in this allocator.
    pub(crate) fn new(alloc: Global) -> Auxiliaries
        ensures { result ≡ [] }
    {
        Auxiliaries {
            entries: Vec::new(alloc),
            text: Vec::new(alloc),
        }
    }

    // Adds this one as the last one, with this name.
    pub(crate) fn add(&mut self, auxiliary: Auxiliary, name: &[u8]) -> Result<(), NoMemory>
        ensures { OnOk result (self.new ≡ self.old ++ record { auxiliary = auxiliary_of auxiliary; name = name.now } ∷ []) }
    {
        let start = self.text.len();
        self.text.extend_from_slice(name)?;
        let end = self.text.len();
        self.entries.push(Entry {
            auxiliary,
            start,
            end,
        })?;
        Ok(())
    }

    /// How many there are.
    pub fn count(&self) -> usize
        ensures { result ≡ length self.now }
    {
        self.entries.len()
    }

    /// The one at this place, from 0, with its name.
    pub fn get(&self, place: usize) -> Called<'_>
        requires { place < length self.now }
        ensures { slice_get self.now place ≡ Some (called_of result) }
    {
        let entry = self.entries[place];
        Called {
            auxiliary: entry.auxiliary,
            name: &self.text[entry.start..entry.end],
        }
    }
}

// The auxiliaries that variables need which are shifted so far, in order: for each variable its leads and then its lags,
// the nearest first.
pub(crate) fn listed(
    alloc: Global,
    reaches: &[Reach],
    count: u32,
) -> Result<Vec<Auxiliary>, NoMemory>
    requires { length reaches.now ≡ count }
    ensures { IfOk result (λ v. map auxiliary_of v.items ≡ auxiliaries (lengths_of reaches.now) count) }
{
    let mut found = Vec::new(alloc);
    add_chains(&mut found, reaches, count)?;
    Ok(found)
}

// Adds them to a list that has none.
fn add_chains(found: &mut Vec<Auxiliary>, reaches: &[Reach], count: u32) -> Result<(), NoMemory>
    requires none { found.old.items ≡ [] }
    requires all { length reaches.now ≡ count }
    ensures { OnOk result (map auxiliary_of found.new.items ≡ auxiliaries (lengths_of reaches.now) count) }
{
    'turns: for place in 0..count {
        let reach = reaches[place as usize];
        add_chain(found, place, Direction::Lead, reach.lead)?;
        add_chain(found, place, Direction::Lag, reach.lag)?;
    }
    Ok(())
}

// Adds those of a variable that is shifted so far that way.
fn add_chain(
    found: &mut Vec<Auxiliary>,
    place: u32,
    direction: Direction,
    reach: u16,
) -> Result<(), NoMemory>
    ensures { OnOk result (map auxiliary_of found.new.items ≡ map auxiliary_of found.old.items ++ chain place (direction_of direction) (reach - 1)) }
{
    'turns: for index in 0..reach.saturating_sub(1) {
        let auxiliary = Auxiliary {
            place,
            direction,
            index,
        };
        found.push(auxiliary)?;
    }
    Ok(())
}
