// The values of names.
ghost use Rattle.std.specs.Option.{option_copied};
ghost use Rattle.std.specs.Prelude.{◌≡◌, [], Some, None, option_map, OnOk, OnErr};
ghost use Rattle.mp_mvalue.specs.Environments.{value_in, Has};
ghost use Rattle.mp_mvalue.specs.Shared.{unshared};

use crate::sharing::SharedValue;
use mp_base::NoMemory;
use std::alloc::Global;
use std::collections::BTreeMap;
use std::marker::Model;

/// A finite map from names to values.
#[derive(Drop)]
pub struct Env {
    alloc: Global,
    values: BTreeMap<Vec<u8>, SharedValue>,
}

impl Model for Env {
    ghost use Rattle.std.specs.Prelude.{map};
    ghost use Rattle.std.specs.Coded.{codes};
    ghost use Rattle.mp_mvalue.specs.Environments.{Environment};
    ghost use Rattle.mp_mvalue.specs.contracts.value.Value as v;

    ghost Value = { Environment };

    ghost coded = { Prim.hlevel (codes, v.the_row.coded) };

    ghost use Rattle.mp_mvalue.specs.Shared.{unshared};

    ghost view = { λ e. map (λ p. (p.0.items, unshared p.1)) e.values.entries };
}

impl Env {
    /// No name has a value.
    pub fn new(alloc: Global) -> Env
        ensures { result ≡ [] }
    {
        Env {
            alloc,
            values: BTreeMap::new(alloc),
        }
    }

    /// The name has this value from now on; without memory nothing changes.
    pub fn set(&mut self, name: &[u8], value: SharedValue) -> Result<(), NoMemory>
        ensures ok { OnOk result (Has self.old self.new name.now (Some (unshared value))) }
        ensures err { OnErr result (self.new ≡ self.old) }
    {
        let name = Vec::from_slice(self.alloc, name)?;
        self.values.insert(name, value)?;
        Ok(())
    }

    /// The value of the name, or None exactly where it has none.
    pub fn get(&self, name: &[u8]) -> Option<&SharedValue>
        ensures { option_map unshared (option_copied result) ≡ value_in self.now name.now }
    {
        self.values.get(name)
    }

    /// The name has no value from now on.
    pub fn unset(&mut self, name: &[u8])
        ensures { Has self.old self.new name.now None }
    {
        let _ = self.values.remove(name);
    }
}
