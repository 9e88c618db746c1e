// What a statement holds.
ghost use Rattle.std.specs.Prelude.{◌≡◌, map};
ghost use Rattle.mp_statements.specs.Parts.{items_in};
ghost use Rattle.mp_file.specs.Shown.{item_of, statement_of};

use mp_file::{Item, Statement};

// The items that a statement holds.
pub(crate) fn items_of<'a, 't>(statement: &'a Statement<'t>) -> &'a [Item<'t>]
    ensures { map item_of result.now ≡ items_in (statement_of statement.now) }
{
    match statement {
        Statement::Declares { .. } => &[],
        Statement::Assigns { .. } => &[],
        Statement::Model { items, .. } => items.as_slice(),
        Statement::Notes { .. } => &[],
    }
}
