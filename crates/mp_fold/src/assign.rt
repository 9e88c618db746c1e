// The values that the assignments of a file give.
ghost use Rattle.std.specs.Prelude.{◌≡◌, map, OnErr};
ghost use Rattle.mp_file.specs.Shown.{statement_of};
ghost use Rattle.mp_values.specs.Values.{assigned};
ghost use Rattle.mp_fold.specs.Assigned.{after_statement, reached, Took};

use crate::fault::FoldFault;
use crate::values::value_of;
use mp_file::Statement;
use mp_names::Table;

/// Gives each parameter of an assignment its value, in text order; or tells the first assignment that has none. A later
/// assignment of a parameter replaces an earlier one (Dynare manual, "Parameter initialization"). After a refusal the
/// table holds the values of the assignments before it.
pub fn assign_values<'t>(
    table: &mut Table<'t>,
    statements: &[Statement<'t>],
) -> Result<(), FoldFault<'t>>
    ensures given { Took result table.new (assigned table.old (map statement_of statements.now)) }
    ensures table { table.new ≡ reached table.old (map statement_of statements.now) }
{
    'turns: for statement in statements {
        assign(table, statement)?;
    }
    Ok(())
}

fn assign<'t>(table: &mut Table<'t>, statement: &Statement<'t>) -> Result<(), FoldFault<'t>>
    ensures given { Took result table.new (after_statement table.old (statement_of statement.now)) }
    ensures refused { OnErr result (table.new ≡ table.old) }
{
    let Statement::Assigns { name, value } = statement else {
        return Ok(());
    };
    let x = value_of(table, value)?;
    table.set(name.name, x);
    Ok(())
}
