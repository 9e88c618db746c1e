// The walk over a file in text order, names from left to right. It stops at the first fault.
ghost use Rattle.std.specs.Prelude.{◌++◌, ◌∷◌, [], map, option_map};
ghost use Rattle.std.specs.List.{flat_map};
ghost use Rattle.mp_statements.specs.Sides.{sides};
ghost use Rattle.mp_file.specs.Shown.{named_of, expr_of, choice_of, equation_of, item_of, statement_of};
ghost use Rattle.mp_declared.specs.Points as p;
ghost use Rattle.mp_declared.specs.Points.{Declared, Assigned, Chosen, Defines, Noted, reads, equation_points, item_points, points_in};
ghost use Rattle.mp_decl.specs.Shown.{reader_of, point_of};
ghost use Rattle.mp_decl.specs.Walk.{walked_by};
ghost use Rattle.mp_decl.specs.Walks.{Went, Walks};

use crate::fault::DeclFault;
use crate::find::{find_in, find_in_sides};
use crate::known::Known;
use crate::search::{Point, Reader, Search};
use crate::tags::walk_tags;
use mp_file::{Choice, Equation, Expression, Item, Named, Statement};
use mp_statements::NameKind;

pub(crate) fn walk<'t>(known: &mut Known<'t>, statements: &[Statement<'t>]) -> Result<(), DeclFault>
    ensures { Walks result known.old known.new (flat_map points_in (map statement_of statements.now)) }
{
    'turns: for statement in statements {
        walk_statement(known, statement)?;
    }
    Ok(())
}

fn walk_statement<'t>(known: &mut Known<'t>, statement: &Statement<'t>) -> Result<(), DeclFault>
    ensures { Walks result known.old known.new (points_in (statement_of statement.now)) }
{
    match statement {
        Statement::Declares { kind, names } => declare_names(known, *kind, names.as_slice()),
        Statement::Assigns { name, value } => walk_assignment(known, name, value),
        Statement::Model { at, choices, items } => {
            known.begin(*at)?;
            walk_model(known, choices.as_slice(), items.as_slice())
        }
        Statement::Notes { names, .. } => walk_noted(known, names.as_slice()),
    }
}

fn declare_names<'t>(
    known: &mut Known<'t>,
    kind: NameKind,
    names: &[Named<'t>],
) -> Result<(), DeclFault>
    ensures { Walks result known.old known.new (map (Declared kind) (map named_of names.now)) }
{
    'turns: for name in names {
        known.declare(kind, name)?;
    }
    Ok(())
}

fn walk_assignment<'t>(
    known: &Known<'t>,
    name: &Named<'t>,
    value: &Expression<'t>,
) -> Result<(), DeclFault>
    ensures { Walks result known.now known.now (Assigned (named_of name.now) ∷ reads p.Constant (expr_of value.now)) }
{
    known.assign(name)?;
    walk_expression(known, Reader::Constant, value)
}

fn walk_expression<'t>(
    known: &Known<'t>,
    reader: Reader,
    value: &Expression<'t>,
) -> Result<(), DeclFault>
    ensures { Walks result known.now known.now (reads (reader_of reader) (expr_of value.now)) }
{
    refused(known, find_in(&Search::Faulty(known), reader, value))
}

fn walk_noted<'t>(known: &Known<'t>, names: &[Named<'t>]) -> Result<(), DeclFault>
    ensures { Walks result known.now known.now (map Noted (map named_of names.now)) }
{
    'turns: for name in names {
        known.note(name)?;
    }
    Ok(())
}

// The options and the items of a model block.
fn walk_model<'t>(
    known: &mut Known<'t>,
    choices: &[Choice<'t>],
    items: &[Item<'t>],
) -> Result<(), DeclFault>
    ensures { Walks result known.old known.new (map Chosen (map choice_of choices.now) ++ flat_map item_points (map item_of items.now)) }
{
    walk_choices(known, choices)?;
    walk_items(known, items)
}

fn walk_choices<'t>(known: &mut Known<'t>, choices: &[Choice<'t>]) -> Result<(), DeclFault>
    ensures { Walks result known.old known.new (map Chosen (map choice_of choices.now)) }
{
    'turns: for choice in choices {
        known.choose(choice)?;
    }
    Ok(())
}

fn walk_items<'t>(known: &mut Known<'t>, items: &[Item<'t>]) -> Result<(), DeclFault>
    ensures { Walks result known.old known.new (flat_map item_points (map item_of items.now)) }
{
    'turns: for item in items {
        walk_item(known, item)?;
    }
    Ok(())
}

fn walk_item<'t>(known: &mut Known<'t>, item: &Item<'t>) -> Result<(), DeclFault>
    ensures { Walks result known.old known.new (item_points (item_of item.now)) }
{
    match item {
        Item::Local { name, value } => walk_local(known, name, value),
        Item::Equates { equation } => walk_equation(known, equation),
    }
}

// A local is there only after its expression, so that it does not read itself.
fn walk_local<'t>(
    known: &mut Known<'t>,
    name: &Named<'t>,
    value: &Expression<'t>,
) -> Result<(), DeclFault>
    ensures { Walks result known.old known.new (Defines (named_of name.now) ∷ (reads p.InModel (expr_of value.now) ++ p.Defined (named_of name.now) ∷ [])) }
{
    known.define(name)?;
    walk_expression(known, Reader::InModel, value)?;
    known.defined(name)
}

fn walk_equation<'t>(known: &Known<'t>, equation: &Equation<'t>) -> Result<(), DeclFault>
    ensures { Walks result known.now known.now (equation_points (equation_of equation.now)) }
{
    walk_tags(known, equation.tags.as_slice())?;
    walk_sides(known, equation)
}

fn walk_sides<'t>(known: &Known<'t>, equation: &Equation<'t>) -> Result<(), DeclFault>
    ensures { Walks result known.now known.now (flat_map (reads p.InModel) (sides (equation_of equation.now))) }
{
    refused(known, find_in_sides(&Search::Faulty(known), equation))
}

// The fault of the first point that fails, if there is one.
fn refused<'t>(known: &Known<'t>, failing: Option<Point<'t>>) -> Result<(), DeclFault>
    ensures { Went result known.now (walked_by known.now (option_map point_of failing.entry)) }
{
    let Some(point) = failing else {
        return Ok(());
    };
    match known.point_fault(&point) {
        Some(fault) => Err(fault),
        None => Ok(()),
    }
}
