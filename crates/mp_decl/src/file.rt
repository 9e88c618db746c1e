// Whether a file declares its model.
ghost use Rattle.std.specs.Prelude.{◌≡◌, ◌==◌, [], map, length, IfOk};
ghost use Rattle.mp_statements.specs.Parts.{equations_of};
ghost use Rattle.mp_file.specs.Shown.{statement_of, file_of};
ghost use Rattle.mp_values.specs.Names.{names_of};
ghost use Rattle.mp_declared.specs.Declared.{equation_names, first_shared, gap_fault, value_fault, declared_fault};
ghost use Rattle.mp_decl.specs.Walk.{nothing_known};
ghost use Rattle.mp_decl.specs.Whole.{whole_fault_by, unvalued_in};
ghost use Rattle.mp_decl.specs.Walks.{Finds};

use crate::fault::DeclFault;
use crate::known::{Known, wrong};
use crate::parts::equation_count;
use crate::shared::first_shared;
use crate::values::unvalued;
use crate::walk::walk;
use mp_base::DeclKind;
use mp_file::{File, Named, Statement};
use mp_names::Names;
use mp_statements::NameKind;
use std::alloc::Global;

/// The names of a file that declares its model, or the file's first fault: that of the first point in text order that
/// fails by what stands before it; and then, with `end`, the length of the text, as the place: no model block, no
/// endogenous variable, a name that several equations bear, not as many equations as endogenous variables, or a parameter
/// without a value (Dynare manual, "The model file"; which fault is named is modpath's own).
pub fn declared_names<'t>(alloc: Global, file: &File<'t>, end: u32) -> Result<Names<'t>, DeclFault>
    ensures fault { Finds result (declared_fault end (file_of file.now)) }
    ensures names { IfOk result (λ names. names ≡ names_of (file_of file.now)) }
{
    let mut known = Known::new(alloc);
    match test_file(alloc, &mut known, file.statements.as_slice(), end) {
        Ok(()) => Ok(known.into_names()),
        Err(fault) => {
            drop(known);
            Err(fault)
        }
    }
}

// Walks over a file of which nothing is known yet, and tests the whole.
fn test_file<'t>(
    alloc: Global,
    known: &mut Known<'t>,
    statements: &[Statement<'t>],
    end: u32,
) -> Result<(), DeclFault>
    requires { known.old ≡ nothing_known }
    ensures fault { Finds result (declared_fault end (map statement_of statements.now)) }
    ensures names { IfOk result (λ _. known.new.names ≡ names_of (map statement_of statements.now)) }
{
    walk(known, statements)?;
    test_whole(alloc, known, statements, end)?;
    Ok(())
}

// The tests of the whole file, after the walk.
fn test_whole<'t>(
    alloc: Global,
    known: &Known<'t>,
    statements: &[Statement<'t>],
    end: u32,
) -> Result<(), DeclFault>
    ensures { Finds result (whole_fault_by end known.now (map statement_of statements.now)) }
{
    if !known.begun {
        return Err(wrong(DeclKind::NoModel, &nameless(end)));
    }
    let count = known.names.count(NameKind::Endogenous);
    if count == 0 {
        return Err(wrong(DeclKind::Empty, &nameless(end)));
    }
    if let Err(fault) = test_names(alloc, statements, end) {
        return Err(fault);
    }
    if !are_as_many(statements, count) {
        return Err(wrong(DeclKind::EquationCount, &nameless(end)));
    }
    test_values(alloc, known, statements, end)
}

// A place without a name.
fn nameless(at: u32) -> Named<'static>
    ensures name { result.name.now ≡ [] }
    ensures at { result.at ≡ at }
{
    Named { name: b"", at }
}

// The test of the names of equations, after the walk.
fn test_names(alloc: Global, statements: &[Statement], end: u32) -> Result<(), DeclFault>
    ensures { Finds result (gap_fault end (first_shared (equation_names (equations_of (map statement_of statements.now))))) }
{
    match first_shared(alloc, statements)? {
        Some(name) => Err(wrong(DeclKind::RegimeGap, &Named { name, at: end })),
        None => Ok(()),
    }
}

// The test of the values of parameters, after the walk.
fn test_values<'t>(
    alloc: Global,
    known: &Known<'t>,
    statements: &[Statement<'t>],
    end: u32,
) -> Result<(), DeclFault>
    ensures { Finds result (value_fault end (unvalued_in (map statement_of statements.now) known.now.names.parameters)) }
{
    let parameters = known.names.of_kind(NameKind::Parameter);
    match unvalued(alloc, statements, parameters)? {
        Some(name) => Err(wrong(DeclKind::NoValue, &Named { name, at: end })),
        None => Ok(()),
    }
}

// Whether the equations are this many.
fn are_as_many(statements: &[Statement], count: u32) -> bool
    ensures { result ≡ (length (equations_of (map statement_of statements.now)) == count) }
{
    let mut left = count as usize;
    'turns: for statement in statements {
        let held = equation_count(statement.items());
        if held > left {
            return false;
        }
        left -= held;
    }
    left == 0
}
