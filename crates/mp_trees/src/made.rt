// The items of a model.
ghost use Rattle.std.specs.Prelude.{◌≡◌, [], ◌∷◌, map, IfOk, OnOk};
ghost use Rattle.std.specs.List.{AllByRecursion};
ghost use Rattle.mp_statements.specs.Statements.{Local, Equates};
ghost use Rattle.mp_statements.specs.Parts.{items_in, items_of};
ghost use Rattle.mp_file.specs.Shown.{item_of, named_of, expr_of, equation_of, statement_of, file_of};
ghost use Rattle.mp_semantics.specs.Shifted.{earlier};
ghost use Rattle.mp_graph.specs.Images.{AreImages};
ghost use Rattle.mp_graph.specs.Shared.{Keeps};
ghost use Rattle.mp_model_data.specs.Shown.{equation_in, sides_of, IsWithin};
ghost use Rattle.mp_values.specs.From.{items_from};
ghost use Rattle.mp_trees.specs.Earlier.{ItemsHaveDifferences};
ghost use Rattle.mp_trees.specs.Gives.{Gives};
ghost use Rattle.mp_trees.specs.Made.{AreNext, Makes};

use crate::equation::equation_nodes;
use crate::exponents::Exponents;
use crate::expression::node_of;
use crate::fault::ModelFault;
use crate::locals::Locals;
use mp_base::NoMemory;
use mp_file::{Expression, File, Item, Named, Statement};
use mp_graph::{Graph, Images};
use mp_model_data::Equation;
use std::alloc::Global;

/// What items have made so far: the nodes of locals, images of earlier expressions, and equations.
#[derive(Drop)]
pub(crate) struct Made<'t> {
    pub locals: Locals<'t>,
    pub images: Images,
    pub equations: Vec<Equation<'t>>,
}

// The equations of a file, in text order.
pub(crate) fn equations_of_file<'t>(
    alloc: Global,
    graph: &mut Graph<'t>,
    file: &File<'t>,
    exponents: &mut Exponents<'_>,
) -> Result<Vec<Equation<'t>>, ModelFault<'t>>
    requires { ItemsHaveDifferences graph.old.names [] (items_of (file_of file.now)) }
    ensures equations { Gives (λ v. (map (equation_in graph.new.terms) (map sides_of v.items), exponents.new)) result (items_from graph.old.names [] (items_of (file_of file.now)) exponents.old) }
    ensures within { IfOk result (λ v. AllByRecursion (IsWithin graph.new) (map sides_of v.items)) }
    ensures kept { Keeps graph.old graph.new }
{
    let mut made = Made {
        locals: Locals::new(alloc),
        images: Images::new(alloc),
        equations: Vec::new(alloc),
    };
    let all = make_all(alloc, graph, &mut made, file, exponents);
    let Made {
        locals,
        images,
        equations,
    } = made;
    drop(locals);
    drop(images);
    match all {
        Ok(()) => Ok(equations),
        Err(fault) => {
            drop(equations);
            Err(fault)
        }
    }
}

// Makes what the items of a file give; nothing is made yet.
fn make_all<'t>(
    alloc: Global,
    graph: &mut Graph<'t>,
    made: &mut Made<'t>,
    file: &File<'t>,
    exponents: &mut Exponents<'_>,
) -> Result<(), ModelFault<'t>>
    requires shifts { ItemsHaveDifferences graph.old.names [] (items_of (file_of file.now)) }
    requires locals { made.old.locals ≡ [] }
    requires images { AreImages graph.old made.old.images earlier }
    requires equations { made.old.equations.items ≡ [] }
    ensures equations { Gives (λ u. (map (equation_in graph.new.terms) (map sides_of made.new.equations.items), exponents.new)) result (items_from graph.old.names [] (items_of (file_of file.now)) exponents.old) }
    ensures within { OnOk result (AllByRecursion (IsWithin graph.new) (map sides_of made.new.equations.items)) }
    ensures kept { Keeps graph.old graph.new }
{
    'turns: for statement in file.statements.as_slice() {
        make_each(alloc, graph, made, items_of(statement), exponents)?;
    }
    Ok(())
}

// The items that a statement holds.
fn items_of<'a, 't>(statement: &'a Statement<'t>) -> &'a [Item<'t>]
    ensures { map item_of result.now ≡ items_in (statement_of statement.now) }
{
    match statement {
        Statement::Declares { .. } => &[],
        Statement::Assigns { .. } => &[],
        Statement::Model { items, .. } => items.as_slice(),
        Statement::Notes { .. } => &[],
    }
}

// Makes what these items give, beside what was made so far.
fn make_each<'t>(
    alloc: Global,
    graph: &mut Graph<'t>,
    made: &mut Made<'t>,
    items: &[Item<'t>],
    exponents: &mut Exponents<'_>,
) -> Result<(), ModelFault<'t>>
    requires { AreNext graph.old made.old (map item_of items.now) exponents.old }
    ensures makes { Makes result graph.old made.old exponents.old (map item_of items.now) graph.new made.new exponents.new }
    ensures kept { Keeps graph.old graph.new }
{
    'turns: for item in items {
        make(alloc, graph, made, item, exponents)?;
    }
    Ok(())
}

// Makes what this item gives: a local stands for its node further on, and an equation is added.
fn make<'t>(
    alloc: Global,
    graph: &mut Graph<'t>,
    made: &mut Made<'t>,
    item: &Item<'t>,
    exponents: &mut Exponents<'_>,
) -> Result<(), ModelFault<'t>>
    requires { AreNext graph.old made.old (item_of item.now ∷ []) exponents.old }
    ensures makes { Makes result graph.old made.old exponents.old (item_of item.now ∷ []) graph.new made.new exponents.new }
    ensures kept { Keeps graph.old graph.new }
{
    match item {
        Item::Local { name, value } => make_local(alloc, graph, made, name, value, exponents),
        Item::Equates { equation } => make_equation(alloc, graph, made, equation, exponents),
    }
}

// Makes the node that a local stands for further on.
fn make_local<'t>(
    alloc: Global,
    graph: &mut Graph<'t>,
    made: &mut Made<'t>,
    name: &Named<'t>,
    value: &Expression<'t>,
    exponents: &mut Exponents<'_>,
) -> Result<(), ModelFault<'t>>
    requires { AreNext graph.old made.old (Local (named_of name.now) (expr_of value.now) ∷ []) exponents.old }
    ensures makes { Makes result graph.old made.old exponents.old (Local (named_of name.now) (expr_of value.now) ∷ []) graph.new made.new exponents.new }
    ensures kept { Keeps graph.old graph.new }
{
    let node = node_of(
        alloc,
        graph,
        &made.locals,
        &mut made.images,
        value,
        exponents,
    )?;
    Ok(made.locals.add(name.name, node)?)
}

// Makes an equation, which is added.
fn make_equation<'t>(
    alloc: Global,
    graph: &mut Graph<'t>,
    made: &mut Made<'t>,
    equation: &mp_file::Equation<'t>,
    exponents: &mut Exponents<'_>,
) -> Result<(), ModelFault<'t>>
    requires { AreNext graph.old made.old (Equates (equation_of equation.now) ∷ []) exponents.old }
    ensures makes { Makes result graph.old made.old exponents.old (Equates (equation_of equation.now) ∷ []) graph.new made.new exponents.new }
    ensures kept { Keeps graph.old graph.new }
{
    let equation = equation_nodes(
        alloc,
        graph,
        &made.locals,
        &mut made.images,
        equation,
        exponents,
    )?;
    let Ok(()) = made.equations.push(equation) else {
        return Err(ModelFault::NoMemory);
    };
    Ok(())
}
