// Names of one kind.
ghost use Rattle.std.specs.Prelude.{◌≡◌, ◌<◌, ◌+◌, ◌^◌, [], ◌∷◌, ◌++◌, map, not, length, slice_index_or, position, option_map, if◌then◌else◌, IsTrue, ◌↔◌, Err, IfOk, OnErr};
ghost use Rattle.std.specs.List.{list_any, IsDistinct};
ghost use Rattle.std.specs.Str.{bytes_eq};
ghost use Rattle.mp_names.specs.Full.{IsFull};

use crate::fault::NameFault;
use indexmap::IndexSet;
use mp_base::NoMemory;
use std::alloc::Global;
use std::marker::Model;

// Places and numbers from 1 are of 32 bits.
const MOST: usize = 4294967294;

/// Names, each once, in the order in which they were added. Work is by hash, so a name is found at once.
#[derive(Drop)]
pub struct NameList<'t> {
    set: IndexSet<&'t [u8]>,
}

impl<'t> Model for NameList<'t> {
    ghost use Rattle.std.specs.Prelude.{List, ℕ, map, length, ◌<◌, ◌^◌, ◌+◌};

    ghost Value = { List (List ℕ) };

    ghost view = { λ n. map (λ k. k.now) n.set.keys };

    ghost invariant = { λ n. length n.set.keys + 1 < 2 ^ 32 };
}

impl<'t> NameList<'t> {
    /// No names. They grow in this allocator.
    pub fn new(alloc: Global) -> NameList<'t>
        ensures { result ≡ [] }
    {
        NameList {
            set: IndexSet::new(alloc),
        }
    }

    /// Adds the name as the last one, unless it is there, and says whether it did. There is room for 2^32 - 2 names.
    pub fn add(&mut self, name: &'t [u8]) -> Result<bool, NameFault>
        ensures added { IfOk result (λ r. r ≡ not (list_any (bytes_eq name.now) self.old)) }
        ensures names { IfOk result (λ r. self.new ≡ (if r then self.old ++ name.now ∷ [] else self.old)) }
        ensures full { (result ≡ Err NameFault.Full) ↔ IsFull self.old name.now }
        ensures err { OnErr result (self.new ≡ self.old) }
    {
        if self.is_full(name) {
            return Err(NameFault::Full);
        }
        let Ok(added) = self.set.insert(name) else {
            return Err(NameFault::NoMemory);
        };
        Ok(added)
    }

    /// The same names.
    pub fn copy(&self) -> Result<NameList<'t>, NoMemory>
        ensures { IfOk result (λ names. names ≡ self.now) }
    {
        match self.set.clone() {
            Ok(set) => Ok(NameList { set }),
            Err(_) => Err(NoMemory),
        }
    }

    // Whether the name is new and there is no room for it.
    fn is_full(&self, name: &[u8]) -> bool
        ensures { IsTrue result ↔ IsFull self.now name.now }
    {
        let _ = &self.set;
        self.set.len() >= MOST && !self.has(name)
    }

    /// Whether the name is there.
    pub fn has(&self, name: &[u8]) -> bool
        ensures { result ≡ list_any (bytes_eq name.now) self.now }
    {
        self.set.contains(&name)
    }

    // The number of the name, from 1.
    pub(crate) fn number(&self, name: &[u8]) -> Option<u32>
        ensures { result ≡ option_map (λ p. p + 1) (position (bytes_eq name.now) self.now) }
    {
        match self.set.get_index_of(&name) {
            Some(place) => Some(place as u32 + 1),
            None => None,
        }
    }

    /// The names, each once.
    pub fn as_slice(&self) -> &[&'t [u8]]
        ensures names { map (λ k. k.now) result.now ≡ self.now }
        ensures once { IsDistinct (λ j k. bytes_eq j.now k.now) result.now }
    {
        self.set.as_slice()
    }

    /// The names are distinct.
    pub fn distinct(&self)
        ensures { IsDistinct bytes_eq self.now }
    {
        let _ = self.as_slice();
    }

    /// How many names there are.
    pub fn count(&self) -> u32
        ensures count { result ≡ length self.now }
        ensures few { length self.now + 1 < 2 ^ 32 }
    {
        self.set.len() as u32
    }

    /// The name at a place, from 0.
    pub fn name(&self, place: u32) -> &'t [u8]
        requires { place < length self.now }
        ensures { result.now ≡ slice_index_or self.now place [] }
    {
        self.set.as_slice()[place as usize]
    }
}
