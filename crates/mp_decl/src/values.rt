// Which parameter has no value.
ghost use Rattle.std.specs.Prelude.{◌≡◌, ℕ, List, [], ◌++◌, map, find, option_map, IfOk, OnOk};
ghost use Rattle.std.specs.List.{flat_map, list_any};
ghost use Rattle.std.specs.Option.{option_or};
ghost use Rattle.std.specs.Str.{bytes_eq};
ghost use Rattle.mp_file.specs.Shown.{statement_of};
ghost use Rattle.mp_declared.specs.Declared.{is_missing, read_early, assigned_in};
ghost use Rattle.mp_decl.specs.Values.{early_in};

use crate::find::find_in;
use crate::search::{Reader, Search};
use mp_base::NoMemory;
use mp_file::Statement;
use mp_names::NameList;
use std::alloc::Global;

/// The first parameter that an assignment reads before it has a value, or else the first of these that never gets one.
pub(crate) fn unvalued<'t>(
    alloc: Global,
    statements: &[Statement<'t>],
    parameters: &NameList<'t>,
) -> Result<Option<&'t [u8]>, NoMemory>
    ensures { IfOk result (λ r. option_map (λ n. n.now) r ≡ option_or (read_early [] (map statement_of statements.now)) (find (is_missing (flat_map assigned_in (map statement_of statements.now))) parameters.now)) }
{
    let mut given = NameList::new(alloc);
    let found = unvalued_after(&mut given, statements, parameters);
    drop(given);
    found
}

// That parameter, with the list of those that have a value so far, which is empty at first.
fn unvalued_after<'t>(
    given: &mut NameList<'t>,
    statements: &[Statement<'t>],
    parameters: &NameList<'t>,
) -> Result<Option<&'t [u8]>, NoMemory>
    requires { given.old ≡ [] }
    ensures { IfOk result (λ r. option_map (λ n. n.now) r ≡ option_or (read_early [] (map statement_of statements.now)) (find (is_missing (flat_map assigned_in (map statement_of statements.now))) parameters.now)) }
{
    'turns: for statement in statements {
        if let Some(name) = read_early(given, statement) {
            return Ok(Some(name));
        }
        give(given, statement)?;
    }
    Ok(first_missing(given, parameters))
}

// The first parameter that the statement reads, where these have a value and it has none.
fn read_early<'t>(given: &NameList<'t>, statement: &Statement<'t>) -> Option<&'t [u8]>
    ensures { option_map (λ n. n.now) result ≡ early_in given.now (statement_of statement.now) }
{
    let Statement::Assigns { value, .. } = statement else {
        return None;
    };
    match find_in(&Search::Missing(given), Reader::Constant, value) {
        Some(point) => Some(point.name()),
        None => None,
    }
}

// The parameter of an assignment has a value.
fn give<'t>(given: &mut NameList<'t>, statement: &Statement<'t>) -> Result<(), NoMemory>
    ensures { OnOk result ((name : List ℕ) → list_any (bytes_eq name) given.new ≡ list_any (bytes_eq name) (assigned_in (statement_of statement.now) ++ given.old)) }
{
    let Statement::Assigns { name, .. } = statement else {
        return Ok(());
    };
    given.add(name.name)?;
    Ok(())
}

// The first of these names that is not given.
fn first_missing<'t>(given: &NameList<'t>, names: &NameList<'t>) -> Option<&'t [u8]>
    ensures { option_map (λ n. n.now) result ≡ find (is_missing given.now) names.now }
{
    'turns: for name in names.as_slice() {
        if !given.has(name) {
            return Some(*name);
        }
    }
    None
}
