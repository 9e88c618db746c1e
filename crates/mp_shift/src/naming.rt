// The auxiliary variables of a model, with their names.
ghost use Rattle.std.specs.Prelude.{◌≡◌, ◌<◌, ◌++◌, Some, None, [], length, map, take, slice_get, slice_index_or, IfOk, IfErr, OnOk};
ghost use Rattle.std.specs.List.{AllByRecursion};
ghost use Rattle.mp_file.specs.Shown.{file_of, statement_of, named_of};
ghost use Rattle.mp_model_data.specs.Shown.{model_data};
ghost use Rattle.mp_solutions.specs.Auxiliaries.{auxiliaries_of};
ghost use Rattle.mp_shift.specs.declared.fault.ShiftFault.TheVariants.{Declared};
ghost use Rattle.mp_shift.specs.Called.{auxiliary_of, call, AreOf};
ghost use Rattle.mp_shift.specs.Faults.{place_among, place_in, declared_at, naming_faults, name_fault, naming_fault, Tells};

use crate::fault::ShiftFault;
use crate::list::{Auxiliaries, listed};
use crate::names::put_name;
use crate::parts::Auxiliary;
use crate::reach::reaches;
use mp_base::{Bytes, DeclKind, Label, NoMemory};
use mp_file::{File, Named, Statement};
use mp_model_data::Model;
use mp_names::Names;
use mp_statements::NameKind;
use std::alloc::Global;

/// The auxiliary variables that a model needs so that its endogenous variables are shifted by one period at most, with
/// their names, in order: for each variable those of its leads and then those of its lags (Dynare manual, "Auxiliary
/// variables"). A name must be new and have at most 128 bytes. The first one that is declared is refused at the place
/// where the file declares it, and one that is too long at the place where the file declares its variable.
pub fn auxiliaries(alloc: Global, model: &Model, file: &File) -> Result<Auxiliaries, ShiftFault>
    ensures ok { IfOk result (λ xs. AreOf (model_data model.now) xs) }
    ensures none { OnOk result (name_fault (file_of file.now) (model_data model.now) ≡ None) }
    ensures err { IfErr result (Tells (name_fault (file_of file.now) (model_data model.now))) }
{
    let list = needed(alloc, model)?;
    let names = model.graph().names();
    let all = list.as_slice();
    named(alloc, names, file, all)
}

// Those that the model needs, in order.
fn needed(alloc: Global, model: &Model) -> Result<Vec<Auxiliary>, NoMemory>
    ensures { IfOk result (λ v. map auxiliary_of v.items ≡ auxiliaries_of (model_data model.now)) }
{
    let count = model.graph().names().count(NameKind::Endogenous);
    let reaches = reaches(alloc, model)?;
    let shifts = reaches.as_slice();
    let list = listed(alloc, shifts, count)?;
    Ok(list)
}

// These with their names, or the fault of the first one that has none.
fn named(
    alloc: Global,
    names: &Names,
    file: &File,
    list: &[Auxiliary],
) -> Result<Auxiliaries, ShiftFault>
    requires { AllByRecursion (λ a. a.place < length names.now.endogenous) list.now }
    ensures ok { IfOk result (λ xs. xs ≡ map (call names.now.endogenous) (map auxiliary_of list.now)) }
    ensures none { OnOk result (naming_faults (file_of file.now) names.now (map auxiliary_of list.now) ≡ None) }
    ensures err { IfErr result (Tells (naming_faults (file_of file.now) names.now (map auxiliary_of list.now))) }
{
    let mut found = Auxiliaries::new(alloc);
    let mut name = Bytes::new(alloc);
    match add_named(&mut found, &mut name, names, file, list) {
        Ok(()) => Ok(found),
        Err(fault) => Err(fault),
    }
}

// Adds them, each with the name that is written to this buffer.
fn add_named(
    found: &mut Auxiliaries,
    name: &mut Bytes,
    names: &Names,
    file: &File,
    list: &[Auxiliary],
) -> Result<(), ShiftFault>
    requires { AllByRecursion (λ a. a.place < length names.now.endogenous) list.now }
    ensures ok { OnOk result (found.new ≡ found.old ++ map (call names.now.endogenous) (map auxiliary_of list.now)) }
    ensures none { OnOk result (naming_faults (file_of file.now) names.now (map auxiliary_of list.now) ≡ None) }
    ensures err { IfErr result (Tells (naming_faults (file_of file.now) names.now (map auxiliary_of list.now))) }
{
    'turns: for place in 0..list.len() {
        let auxiliary = auxiliary_at(list, place);
        name.clear();
        put_name(name, names, auxiliary)?;
        let text = name.as_slice();
        test(names, file, auxiliary, text)?;
        found.add(auxiliary, text)?;
    }
    Ok(())
}

fn auxiliary_at(list: &[Auxiliary], place: usize) -> Auxiliary
    requires { place < length list.now }
    ensures { slice_get list.now place ≡ Some result }
{
    list[place]
}

// Refuses this name of an auxiliary if it is declared, and else if it is too long.
fn test(names: &Names, file: &File, auxiliary: Auxiliary, name: &[u8]) -> Result<(), ShiftFault>
    requires place { auxiliary.place < length names.now.endogenous }
    ensures ok { OnOk result (naming_fault (file_of file.now) names.now name.now (slice_index_or names.now.endogenous auxiliary.place []) ≡ None) }
    ensures err { IfErr result (Tells (naming_fault (file_of file.now) names.now name.now (slice_index_or names.now.endogenous auxiliary.place []))) }
{
    if names.kind(name).is_some() {
        return Err(fault(DeclKind::NameTaken, name, declared_at(file, name)));
    }
    if name.len() > 128 {
        let source = names.of_kind(NameKind::Endogenous).name(auxiliary.place);
        return Err(fault(DeclKind::NameLong, name, declared_at(file, source)));
    }
    Ok(())
}

fn fault(kind: DeclKind, name: &[u8], at: u32) -> ShiftFault
    ensures { result ≡ Declared kind (take 128 name.now) at }
{
    ShiftFault::Declared {
        kind,
        name: Label::of(name),
        at,
    }
}

// The place where the file declares this name first, or 0.
fn declared_at(file: &File, name: &[u8]) -> u32
    ensures { result ≡ declared_at (file_of file.now) name.now }
{
    'turns: for statement in file.statements.as_slice() {
        if let Some(place) = place_in(statement, name) {
            return place;
        }
    }
    0
}

fn place_in(statement: &Statement, name: &[u8]) -> Option<u32>
    ensures { result ≡ place_in name.now (statement_of statement.now) }
{
    match statement {
        Statement::Declares { names, .. } => place_among(names.as_slice(), name),
        Statement::Assigns { .. } => None,
        Statement::Model { .. } => None,
        Statement::Notes { .. } => None,
    }
}

fn place_among(names: &[Named], name: &[u8]) -> Option<u32>
    ensures { result ≡ place_among name.now (map named_of names.now) }
{
    'turns: for declared in names {
        if name == declared.name {
            return Some(declared.at);
        }
    }
    None
}
