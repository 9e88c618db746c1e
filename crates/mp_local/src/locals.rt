// The ends of the shifts of local variables.
ghost use Rattle.std.specs.Prelude.{◌≡◌, ℕ, List, Some, None, if◌then◌else◌, OnOk};
ghost use Rattle.std.specs.Str.{bytes_eq};
ghost use Rattle.mp_local.specs.Locals.{ends_in};

use crate::ends::Ends;
use indexmap::IndexMap;
use mp_base::NoMemory;
use std::alloc::Global;

/// Local variables, each with the ends of the shifts that its expression has, if it has any. A local is found by hash.
#[derive(Drop)]
pub(crate) struct Locals<'t> {
    pub(crate) ends: IndexMap<&'t [u8], Option<Ends>>,
}

impl<'t> Locals<'t> {
    // No locals. They grow in this allocator.
    pub(crate) fn new(alloc: Global) -> Locals<'t>
        ensures { (name : List ℕ) → ends_in result.ends.entries name ≡ None }
    {
        Locals {
            ends: IndexMap::new(alloc),
        }
    }

    // The ends of a local of this name, if there is one.
    pub(crate) fn get(&self, name: &[u8]) -> Option<Option<Ends>>
        ensures { result ≡ ends_in self.now.ends.entries name.now }
    {
        match self.ends.get(&name) {
            Some(ends) => Some(*ends),
            None => None,
        }
    }

    // From now on a local of this name has these ends.
    pub(crate) fn set(&mut self, name: &'t [u8], ends: Option<Ends>) -> Result<(), NoMemory>
        ensures { OnOk result ((other : List ℕ) → ends_in self.new.ends.entries other ≡ (if bytes_eq other name.now then Some ends else ends_in self.old.ends.entries other)) }
    {
        match self.ends.insert(name, ends) {
            Ok(_) => Ok(()),
            Err(_) => Err(NoMemory),
        }
    }
}
