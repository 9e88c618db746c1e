// What is known of the points of a file so far.
ghost use Rattle.std.specs.Prelude.{◌≡◌, [], ◌∷◌, false, take, is_some, option_map, Some};
ghost use Rattle.mp_file.specs.Shown.{named_of, shift_of, choice_of};
ghost use Rattle.mp_declared.specs.Declared.{read_fault, diff_fault, may_read, is_parameter, is_variable};
ghost use Rattle.mp_declared.specs.Points.{Declared, Assigned, Begins, Chosen, Defines, Defined, Noted};
ghost use Rattle.mp_decl.specs.Shown.{reader_of, standing_of, point_of, told};
ghost use Rattle.mp_decl.specs.Walk.{nothing_known, standing_in, point_fault};
ghost use Rattle.mp_decl.specs.Walks.{Walks};

use crate::fault::DeclFault;
use crate::options::is_known_option;
use crate::search::{Point, Reader};
use mp_base::{DeclKind, Label};
use mp_file::{Choice, Named, Shift};
use mp_names::{NameList, Names};
use mp_statements::NameKind;
use std::alloc::Global;

/// What a name stands for: what it was declared as, or a local variable.
#[derive(Clone, Copy, Debug, PartialEq, Eq)]
pub enum Standing {
    Of(NameKind),
    Local,
}

/// What is known so far: the names that are declared, the local variables, whether the model block has begun, and the
/// options that it was given.
#[derive(Drop)]
pub struct Known<'t> {
    pub names: Names<'t>,
    pub locals: NameList<'t>,
    pub begun: bool,
    pub chosen: NameList<'t>,
}

impl<'t> Known<'t> {
    // Nothing yet.
    pub(crate) fn new(alloc: Global) -> Known<'t>
        ensures { result ≡ nothing_known }
    {
        Known {
            names: Names::new(alloc),
            locals: NameList::new(alloc),
            begun: false,
            chosen: NameList::new(alloc),
        }
    }

    // The names that are declared.
    pub(crate) fn into_names(self) -> Names<'t>
        ensures { result ≡ self.entry.names }
    {
        let Known {
            names,
            locals,
            begun: _,
            chosen,
        } = self;
        drop(locals);
        drop(chosen);
        names
    }

    // What the name stands for, if it is there. Declared names and locals are in one space.
    fn standing(&self, name: &[u8]) -> Option<Standing>
        ensures { option_map standing_of result ≡ standing_in self.now name.now }
    {
        if let Some(kind) = self.names.kind(name) {
            return Some(Standing::Of(kind));
        }
        if self.locals.has(name) {
            return Some(Standing::Local);
        }
        None
    }

    // Whether the name is there.
    fn knows(&self, name: &[u8]) -> bool
        ensures { result ≡ is_some (standing_in self.now name.now) }
    {
        self.standing(name).is_some()
    }

    // A name is declared.
    pub(crate) fn declare(&mut self, kind: NameKind, name: &Named<'t>) -> Result<(), DeclFault>
        ensures { Walks result self.old self.new (Declared kind (named_of name.now) ∷ []) }
    {
        if self.knows(name.name) {
            return Err(wrong(DeclKind::Twice, name));
        }
        match self.names.add(kind, name.name) {
            Ok(_) => Ok(()),
            Err(_) => Err(DeclFault::NoMemory),
        }
    }

    // A name is given a value.
    pub(crate) fn assign(&self, name: &Named<'t>) -> Result<(), DeclFault>
        ensures { Walks result self.now self.now (Assigned (named_of name.now) ∷ []) }
    {
        let Some(standing) = self.standing(name.name) else {
            return Err(wrong(DeclKind::Undeclared, name));
        };
        if is_parameter(standing) {
            return Ok(());
        }
        Err(wrong(DeclKind::WrongKind, name))
    }

    // A model block begins here.
    pub(crate) fn begin(&mut self, at: u32) -> Result<(), DeclFault>
        ensures { Walks result self.old self.new (Begins at ∷ []) }
    {
        if self.begun {
            return Err(wrong(DeclKind::BlockTwice, &Named { name: b"model", at }));
        }
        self.begun = true;
        Ok(())
    }

    // The model block is given an option.
    pub(crate) fn choose(&mut self, choice: &Choice<'t>) -> Result<(), DeclFault>
        ensures { Walks result self.old self.new (Chosen (choice_of choice.now) ∷ []) }
    {
        let name = choice.name.name;
        if !is_known_option(name) || choice.setting.is_some() || self.chosen.has(name) {
            return Err(wrong(DeclKind::Option, &choice.name));
        }
        match self.chosen.add(name) {
            Ok(_) => Ok(()),
            Err(_) => Err(DeclFault::NoMemory),
        }
    }

    // A local variable is named.
    pub(crate) fn define(&self, name: &Named<'t>) -> Result<(), DeclFault>
        ensures { Walks result self.now self.now (Defines (named_of name.now) ∷ []) }
    {
        if self.knows(name.name) {
            return Err(wrong(DeclKind::Twice, name));
        }
        Ok(())
    }

    // The local variable is there from now on.
    pub(crate) fn defined(&mut self, name: &Named<'t>) -> Result<(), DeclFault>
        ensures { Walks result self.old self.new (Defined (named_of name.now) ∷ []) }
    {
        match self.locals.add(name.name) {
            Ok(_) => Ok(()),
            Err(_) => Err(DeclFault::NoMemory),
        }
    }

    // A noted command names it.
    pub(crate) fn note(&self, name: &Named<'t>) -> Result<(), DeclFault>
        ensures { Walks result self.now self.now (Noted (named_of name.now) ∷ []) }
    {
        if self.knows(name.name) {
            return Ok(());
        }
        Err(wrong(DeclKind::Undeclared, name))
    }

    // The fault of a point of an expression, if there is one.
    pub(crate) fn point_fault(&self, point: &Point<'t>) -> Option<DeclFault>
        ensures { result ≡ option_map told (point_fault self.now (point_of point.now)) }
    {
        match point {
            Point::Reads {
                reader,
                name,
                shift,
            } => read_fault(*reader, name, shift, self.standing(name.name)),
            Point::Differs { reader, at } => diff_fault(*reader, *at),
        }
    }
}

// The fault of a name that is read, by what it stands for.
fn read_fault(
    reader: Reader,
    name: &Named,
    shift: &Option<Shift>,
    standing: Option<Standing>,
) -> Option<DeclFault>
    ensures { result ≡ option_map told (read_fault (reader_of reader) (named_of name.now) (option_map shift_of shift.now) (option_map standing_of standing)) }
{
    let Some(standing) = standing else {
        return Some(wrong(DeclKind::Undeclared, name));
    };
    if !may_read(reader, standing) {
        return Some(wrong(DeclKind::WrongKind, name));
    }
    if !is_variable(standing) && shift.is_some() {
        return Some(wrong(DeclKind::Shift, name));
    }
    None
}

// The fault of a `diff` at this place.
fn diff_fault(reader: Reader, at: u32) -> Option<DeclFault>
    ensures { result ≡ option_map told (diff_fault (reader_of reader) at) }
{
    match reader {
        Reader::InModel => None,
        Reader::Constant => Some(wrong(DeclKind::Place, &Named { name: b"diff", at })),
    }
}

// Whether what stands for this may be read there.
fn may_read(reader: Reader, standing: Standing) -> bool
    ensures { result ≡ may_read (reader_of reader) (standing_of standing) }
{
    match reader {
        Reader::InModel => true,
        Reader::Constant => is_parameter(standing),
    }
}

fn is_parameter(standing: Standing) -> bool
    ensures { result ≡ is_parameter (standing_of standing) }
{
    match standing {
        Standing::Of(NameKind::Parameter) => true,
        _ => false,
    }
}

fn is_variable(standing: Standing) -> bool
    ensures { result ≡ is_variable (standing_of standing) }
{
    match standing {
        Standing::Of(NameKind::Endogenous) => true,
        Standing::Of(NameKind::Exogenous) => true,
        _ => false,
    }
}

// The fault of this kind at a name.
pub(crate) fn wrong(kind: DeclKind, name: &Named) -> DeclFault
    ensures { result ≡ DeclFault.Declared kind (take 128 name.now.name.now) name.now.at }
{
    DeclFault::Declared {
        kind,
        name: Label::of(name.name),
        at: name.at,
    }
}
