// The model of a file.
ghost use Rattle.std.specs.Prelude.{◌≡◌, [], ◌∷◌, ◌++◌, ◌<◌, Some, None, Ok, length, slice_get, map, OnOk};
ghost use Rattle.mp_file.specs.Shown.{file_of};
ghost use Rattle.mp_statements.specs.Parts.{items_of};
ghost use Rattle.mp_model_data.specs.Shown.{parameter_of, model_data};
ghost use Rattle.mp_values.specs.Names.{names_of, is_variable};
ghost use Rattle.mp_values.specs.Shifts.{far_name, no_locals};
ghost use Rattle.mp_names.specs.Entry.{entry_of};
ghost use Rattle.mp_values.specs.Values.{values_given};
ghost use Rattle.mp_values.specs.Exponents.{all_exponents};
ghost use Rattle.mp_values.specs.ModelOf.{parameters_given};
ghost use Rattle.mp_trees.specs.Gives.{Gives};
ghost use Rattle.mp_trees.specs.Parts.{model_at, parameter_given};

use crate::exponents::Exponents;
use crate::fault::ModelFault;
use crate::made::equations_of_file;
use mp_base::NoMemory;
use mp_file::File;
use mp_fold::{Exponent, Name};
use mp_graph::Graph;
use mp_model_data::{Model, Parameter};
use mp_names::{Entry, Names, Table};
use std::alloc::{AllocError, Global};

/// The model of a file that declares these names, where its parameters have these values at last, the exponents of its
/// items are these, and no name is shifted by more than 24 periods once locals are replaced and differences are taken:
/// first each parameter needs its value, then each item its nodes, both in text order. The first that is refused is the
/// fault.
pub fn model<'t>(
    alloc: Global,
    file: &File<'t>,
    names: Names<'t>,
    table: &Table<'t>,
    exponents: &[Exponent],
) -> Result<Model<'t>, ModelFault<'t>>
    requires names { names ≡ names_of (file_of file.now) }
    requires values { values_given (file_of file.now) ≡ Ok table.now }
    requires exponents { all_exponents table.now (items_of (file_of file.now)) ≡ Ok exponents.now }
    requires far { far_name 24 (no_locals (is_variable names)) (items_of (file_of file.now)) ≡ None }
    ensures { Gives model_data result (model_at (file_of file.now) table.now) }
{
    mp_values::exponents_law();
    let parameters = match parameters_of(alloc, table) {
        Ok(parameters) => parameters,
        Err(fault) => {
            drop(names);
            return Err(fault);
        }
    };
    let mut graph = Graph::new(alloc, names);
    let mut exponents = Exponents::of(exponents);
    match equations_of_file(alloc, &mut graph, file, &mut exponents) {
        Ok(equations) => Ok(Model::new(graph, parameters, equations)),
        Err(fault) => {
            drop(parameters);
            drop(graph);
            Err(fault)
        }
    }
}

// The parameters with their values.
fn parameters_of<'t>(alloc: Global, table: &Table<'t>) -> Result<Vec<Parameter<'t>>, ModelFault<'t>>
    ensures { Gives (λ v. map parameter_of v.items) result (parameters_given table.now) }
{
    let mut found = Vec::new(alloc);
    match find_parameters(table, &mut found) {
        Ok(()) => Ok(found),
        Err(fault) => {
            drop(found);
            Err(fault)
        }
    }
}

// Finds the parameters with their values; none is found yet.
fn find_parameters<'t>(
    table: &Table<'t>,
    found: &mut Vec<Parameter<'t>>,
) -> Result<(), ModelFault<'t>>
    requires { found.old.items ≡ [] }
    ensures { Gives (λ u. map parameter_of found.new.items) result (parameters_given table.now) }
{
    'turns: for place in 0..table.count() {
        let parameter = parameter(entry_at(table, place))?;
        push(found, parameter)?;
    }
    Ok(())
}

fn entry_at<'t>(table: &Table<'t>, place: usize) -> Entry<'t>
    requires { place < length table.now }
    ensures { slice_get table.now place ≡ Some (entry_of result) }
{
    table.entry(place).unwrap()
}

// A parameter with its value.
fn parameter<'t>(entry: Entry<'t>) -> Result<Parameter<'t>, ModelFault<'t>>
    ensures { Gives parameter_of result (parameter_given (entry_of entry.entry)) }
{
    match entry.value {
        Some(value) => Ok(Parameter {
            name: entry.name,
            value,
        }),
        None => Err(ModelFault::Unvalued {
            name: Name::of(entry.name),
        }),
    }
}

// Adds one parameter.
fn push<'t>(found: &mut Vec<Parameter<'t>>, parameter: Parameter<'t>) -> Result<(), NoMemory>
    ensures { OnOk result (map parameter_of found.new.items ≡ map parameter_of found.old.items ++ parameter_of parameter.entry ∷ []) }
{
    match found.push(parameter) {
        Ok(()) => Ok(()),
        Err(e) => Err(AllocError::from(e).into()),
    }
}
