// Names that several equations bear.
ghost use Rattle.std.specs.Prelude.{◌≡◌, [], ◌++◌, map, option_map, IfOk, OnOk};
ghost use Rattle.std.specs.List.{flat_map};
ghost use Rattle.mp_statements.specs.Parts.{equations_in, equations_of};
ghost use Rattle.mp_file.specs.Shown.{item_of, statement_of};
ghost use Rattle.mp_declared.specs.Declared.{equation_names, first_shared};

use mp_base::NoMemory;
use mp_file::{Item, Statement};
use mp_names::NameList;
use std::alloc::Global;

/// The first name of an equation, in text order, that another one bears further on.
pub(crate) fn first_shared<'t>(
    alloc: Global,
    statements: &[Statement<'t>],
) -> Result<Option<&'t [u8]>, NoMemory>
    ensures { IfOk result (λ r. option_map (λ n. n.now) r ≡ first_shared (equation_names (equations_of (map statement_of statements.now)))) }
{
    let mut names = Vec::new(alloc);
    match add_all_names(statements, &mut names) {
        Ok(()) => first_of_shared(alloc, &names),
        Err(error) => Err(error),
    }
}

// Adds the names of all equations.
fn add_all_names<'t>(
    statements: &[Statement<'t>],
    names: &mut Vec<&'t [u8]>,
) -> Result<(), NoMemory>
    ensures { OnOk result (map (λ n. n.now) names.new.items ≡ map (λ n. n.now) names.old.items ++ equation_names (equations_of (map statement_of statements.now))) }
{
    'turns: for statement in statements {
        add_names(statement.items(), names)?;
    }
    Ok(())
}

// Adds the names of these equations.
fn add_names<'t>(items: &[Item<'t>], names: &mut Vec<&'t [u8]>) -> Result<(), NoMemory>
    ensures { OnOk result (map (λ n. n.now) names.new.items ≡ map (λ n. n.now) names.old.items ++ equation_names (flat_map equations_in (map item_of items.now))) }
{
    'turns: for item in items {
        add_name(item, names)?;
    }
    Ok(())
}

// Adds the name of an equation that has one.
fn add_name<'t>(item: &Item<'t>, names: &mut Vec<&'t [u8]>) -> Result<(), NoMemory>
    ensures { OnOk result (map (λ n. n.now) names.new.items ≡ map (λ n. n.now) names.old.items ++ equation_names (equations_in (item_of item.now))) }
{
    let Item::Equates { equation } = item else {
        return Ok(());
    };
    let Some(name) = equation.name() else {
        return Ok(());
    };
    names.push(name)?;
    Ok(())
}

// The first of these names that stands again further on. From the last name to the first, each that stands further on is
// the first one so far.
fn first_of_shared<'t>(alloc: Global, names: &[&'t [u8]]) -> Result<Option<&'t [u8]>, NoMemory>
    ensures { IfOk result (λ r. option_map (λ n. n.now) r ≡ first_shared (map (λ n. n.now) names.now)) }
{
    let mut further = NameList::new(alloc);
    let found = first_of_these(&mut further, names);
    drop(further);
    found
}

// That name, with the list of those that stand further on, which is empty at first.
fn first_of_these<'t>(
    further: &mut NameList<'t>,
    names: &[&'t [u8]],
) -> Result<Option<&'t [u8]>, NoMemory>
    requires { further.old ≡ [] }
    ensures { IfOk result (λ r. option_map (λ n. n.now) r ≡ first_shared (map (λ n. n.now) names.now)) }
{
    let mut found = None;
    'turns: for i in (0..names.len()).rev() {
        if !further.add(names[i])? {
            found = Some(names[i]);
        }
    }
    Ok(found)
}
