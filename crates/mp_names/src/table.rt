// Parameters with their values.
ghost use Rattle.std.specs.Prelude.{◌≡◌, Some, length, slice_get, option_map, IfOk};
ghost use Rattle.mp_frac.specs.Value.{value_of};
ghost use Rattle.mp_names.specs.Entry.{entry_of};
ghost use Rattle.mp_values.specs.Table.{unset, value_in, with_value};

use crate::names::Names;
use indexmap::IndexMap;
use mp_base::NoMemory;
use mp_frac::Frac;
use mp_statements::NameKind;
use std::alloc::Global;
use std::marker::Model;

/// A parameter with its value, if it has one.
#[derive(Clone, Copy, Debug)]
pub struct Entry<'t> {
    pub name: &'t [u8],
    pub value: Option<Frac>,
}

/// The declared parameters in order, each with its value if it has one. A parameter is found by hash.
#[derive(Drop)]
pub struct Table<'t> {
    values: IndexMap<&'t [u8], Option<Frac>>,
}

impl<'t> Model for Table<'t> {
    ghost use Rattle.std.specs.Prelude.{map, option_map};
    ghost use Rattle.mp_frac.specs.Value.{value_of};
    ghost use Rattle.mp_values.specs.Table as v;
    ghost use Rattle.mp_names.specs.Coded.{table_code};

    ghost Value = { v.Table };

    ghost coded = { table_code };

    ghost view = { λ t. map (λ e. (e.0.now, option_map value_of e.1)) t.values.entries };
}

impl<'t> Table<'t> {
    /// The parameters of these names, none of which has a value. They stand in this allocator.
    pub fn of_parameters(alloc: Global, names: &Names<'t>) -> Result<Table<'t>, NoMemory>
        ensures { IfOk result (λ t. t ≡ unset names.now.parameters) }
    {
        let mut values = IndexMap::new(alloc);
        'turns: for name in names.of_kind(NameKind::Parameter).as_slice() {
            let Ok(_) = values.insert(*name, None) else {
                return Err(NoMemory);
            };
        }
        Ok(Table { values })
    }

    /// The value of the parameter, if it has one.
    pub fn get(&self, name: &[u8]) -> Option<Frac>
        ensures { option_map value_of result ≡ value_in self.now name.now }
    {
        match self.values.get(&name) {
            Some(value) => *value,
            None => None,
        }
    }

    /// How many parameters there are.
    pub fn count(&self) -> usize
        ensures { result ≡ length self.now }
    {
        self.values.len()
    }

    /// The parameter at a place, from 0, with its value if it has one.
    pub fn entry(&self, place: usize) -> Option<Entry<'t>>
        ensures { option_map entry_of result ≡ slice_get self.now place }
    {
        let (name, value) = self.values.get_index(place)?;
        Some(Entry {
            name: *name,
            value: *value,
        })
    }

    /// From now on the parameter has this value. A name that is no parameter changes nothing.
    pub fn set(&mut self, name: &'t [u8], value: Frac)
        ensures { self.new ≡ with_value name.now (Some (value_of value)) self.old }
    {
        if self.values.get_index_of(&name).is_some() {
            self.values.insert(name, Some(value)).unwrap();
        }
    }
}
