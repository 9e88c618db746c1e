// Names of three kinds.
ghost use Rattle.std.specs.Prelude.{◌≡◌, ◌<◌, ◌+◌, ◌^◌, ℕ, ℤ, List, not, true, None, is_some, length, option_map, if◌then◌else◌, ◌↔◌, Err, IfOk, OnOk, OnErr};
ghost use Rattle.std.specs.List.{IsDistinct};
ghost use Rattle.std.specs.Option.{ForSome};
ghost use Rattle.std.specs.Str.{bytes_eq};
ghost use Rattle.mp_values.specs.Names as v;
ghost use Rattle.mp_values.specs.Names.{named_term};
ghost use Rattle.mp_names.specs.Full.{IsFullOf};
ghost use Rattle.mp_names.specs.Named.{no_names, of_kind, kind_in, with_name};
ghost use Rattle.mp_names.specs.Numbers.{id_of, term_by};
ghost use Rattle.mp_names.specs.Naming.{IsNamed, name_of};

use crate::fault::NameFault;
use crate::list::NameList;
use mp_base::NoMemory;
use mp_statements::NameKind;
use std::alloc::Global;
use std::marker::Model;

/// A declared name by its kind and its number, from 1 in declared order.
#[derive(Clone, Copy, Debug, PartialEq, Eq)]
pub enum NameId {
    Endo(u32),
    Exo(u32),
    Param(u32),
}

/// The declared names of each kind, in declared order. No name is there under two kinds. A name is found by hash.
#[derive(Drop)]
pub struct Names<'t> {
    endogenous: NameList<'t>,
    exogenous: NameList<'t>,
    parameters: NameList<'t>,
}

impl<'t> Model for Names<'t> {
    ghost use Rattle.mp_values.specs.Names as v;

    ghost Value = { v.Names };

    ghost view = { λ n. record { endogenous = n.endogenous; exogenous = n.exogenous; parameters = n.parameters } };
}

impl<'t> Names<'t> {
    /// No names. They grow in this allocator.
    pub fn new(alloc: Global) -> Names<'t>
        ensures { result ≡ no_names }
    {
        Names {
            endogenous: NameList::new(alloc),
            exogenous: NameList::new(alloc),
            parameters: NameList::new(alloc),
        }
    }

    /// Adds the name as the last one of its kind, unless it is there under any kind, and says whether it did.
    pub fn add(&mut self, kind: NameKind, name: &'t [u8]) -> Result<bool, NameFault>
        ensures added { IfOk result (λ r. r ≡ not (is_some (kind_in self.old name.now))) }
        ensures names { IfOk result (λ r. self.new ≡ (if r then with_name kind name.now self.old else self.old)) }
        ensures full { (result ≡ Err NameFault.Full) ↔ IsFullOf kind self.old name.now }
        ensures err { OnErr result (self.new ≡ self.old) }
    {
        if self.kind(name).is_some() {
            return Ok(false);
        }
        self.add_new(kind, name)
    }

    // Adds a name that is there under no kind.
    fn add_new(&mut self, kind: NameKind, name: &'t [u8]) -> Result<bool, NameFault>
        requires { kind_in self.old name.now ≡ None }
        ensures added { IfOk result (λ r. r ≡ true) }
        ensures names { OnOk result (self.new ≡ with_name kind name.now self.old) }
        ensures full { (result ≡ Err NameFault.Full) ↔ IsFullOf kind self.old name.now }
        ensures err { OnErr result (self.new ≡ self.old) }
    {
        match kind {
            NameKind::Endogenous => self.endogenous.add(name),
            NameKind::Exogenous => self.exogenous.add(name),
            NameKind::Parameter => self.parameters.add(name),
        }
    }

    /// Adds a name that is there under no kind, as the last one of its kind. A full list is taken for want of memory.
    pub fn add_another(&mut self, kind: NameKind, name: &'t [u8]) -> Result<(), NoMemory>
        requires { kind_in self.old name.now ≡ None }
        ensures names { OnOk result (self.new ≡ with_name kind name.now self.old) }
        ensures err { OnErr result (self.new ≡ self.old) }
    {
        match self.add_new(kind, name) {
            Ok(_) => Ok(()),
            Err(fault) => Err(fault.into()),
        }
    }

    /// The names of a kind are distinct.
    pub fn distinct(&self, kind: NameKind)
        ensures { IsDistinct bytes_eq (of_kind kind self.now) }
    {
        self.of_kind(kind).distinct();
    }

    /// The kind of the name, if it is there.
    pub fn kind(&self, name: &[u8]) -> Option<NameKind>
        ensures { result ≡ kind_in self.now name.now }
    {
        if self.endogenous.has(name) {
            return Some(NameKind::Endogenous);
        }
        if self.exogenous.has(name) {
            return Some(NameKind::Exogenous);
        }
        if self.parameters.has(name) {
            return Some(NameKind::Parameter);
        }
        None
    }

    /// The kind and number of the name, if it is there.
    pub fn find(&self, name: &[u8]) -> Option<NameId>
        ensures id { result ≡ id_of self.now name.now }
        ensures named { ForSome result (IsNamed self.now) }
    {
        if let Some(number) = self.endogenous.number(name) {
            return Some(NameId::Endo(number));
        }
        if let Some(number) = self.exogenous.number(name) {
            return Some(NameId::Exo(number));
        }
        let number = self.parameters.number(name)?;
        Some(NameId::Param(number))
    }

    /// The names of this kind.
    pub fn of_kind(&self, kind: NameKind) -> &NameList<'t>
        ensures { result.now ≡ of_kind kind self.now }
    {
        match kind {
            NameKind::Endogenous => &self.endogenous,
            NameKind::Exogenous => &self.exogenous,
            NameKind::Parameter => &self.parameters,
        }
    }

    /// How many names of this kind there are.
    pub fn count(&self, kind: NameKind) -> u32
        ensures count { result ≡ length (of_kind kind self.now) }
        ensures few { length (of_kind kind self.now) + 1 < 2 ^ 32 }
    {
        self.of_kind(kind).count()
    }

    /// The name of this number.
    pub fn name(&self, id: NameId) -> &'t [u8]
        requires { IsNamed self.now id }
        ensures { result.now ≡ name_of self.now id }
    {
        match id {
            NameId::Endo(number) => self.endogenous.name(number - 1),
            NameId::Exo(number) => self.exogenous.name(number - 1),
            NameId::Param(number) => self.parameters.name(number - 1),
        }
    }

    /// The same names.
    pub fn copy(&self) -> Result<Names<'t>, NoMemory>
        ensures { IfOk result (λ names. names ≡ self.now) }
    {
        Ok(Names {
            endogenous: self.endogenous.copy()?,
            exogenous: self.exogenous.copy()?,
            parameters: self.parameters.copy()?,
        })
    }
}

/// A name that is found stands for the variable or the parameter of its number.
pub fn found_names_law()
    ensures { (ns : v.Names) (name : List ℕ) (shift : ℤ) → named_term ns name shift ≡ option_map (term_by shift) (id_of ns name) }
{}
