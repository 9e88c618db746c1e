// The model of a file within the limits.
ghost use Rattle.std.specs.Prelude.{◌≡◌, None, Ok};
ghost use Rattle.mp_statements.specs.Parts.{items_of};
ghost use Rattle.mp_file.specs.Shown.{file_of};
ghost use Rattle.mp_model_data.specs.Shown.{model_data};
ghost use Rattle.mp_values.specs.Names.{names_of, is_variable};
ghost use Rattle.mp_values.specs.Shifts.{far_name, no_locals};
ghost use Rattle.mp_values.specs.Values.{values_given};
ghost use Rattle.mp_values.specs.Exponents.{all_exponents};
ghost use Rattle.mp_values.specs.ModelOf.{model_given};
ghost use Rattle.mp_local.specs.Gives.{Gives, Passes};
ghost use Rattle.mp_local.specs.Local.{tested, names_refusal, shifts_refusal, height_refusal, size_refusal, local_by, local_given};
ghost use Rattle.mp_local.specs.Reaches.{stopped_far};
ghost use Rattle.mp_local.specs.Written.{AreWritten};

use crate::far::far_name;
use crate::fault::{LocalFault, refused};
use crate::known::Scope;
use crate::many::{most_names, name_beyond};
use crate::size::{greatest_height, operations};
use mp_base::DataKind;
use mp_file::File;
use mp_fold::Exponent;
use mp_model_data::Model;
use mp_names::{Names, Table};
use mp_trees::ModelFault;
use std::alloc::Global;

/// The model of a file that declares these names, where its parameters have these values at last, and the exponents of
/// its items are these, with its locals replaced and its differences taken. The first of these refuses it: a name too many
/// of its kind, at the name, with how many there are and the most; a name from which a shift of more than 24 periods comes,
/// at the name, with the greatest that does, which is told up to 2^124, and 24; what refuses a number; a side of an
/// equation that is higher than 500, at 0, with the greatest height; more than 200,000 operations in all sides, at 0, with
/// how many, where the count stops at 10^37 (modpath's own).
pub fn expand_locals<'t>(
    alloc: Global,
    file: &File<'t>,
    names: Names<'t>,
    values: &Table<'t>,
    exponents: &[Exponent],
) -> Result<Model<'t>, LocalFault<'t>>
    requires names { names ≡ names_of (file_of file.now) }
    requires values { values_given (file_of file.now) ≡ Ok values.now }
    requires exponents { all_exponents values.now (items_of (file_of file.now)) ≡ Ok exponents.now }
    ensures told { Gives model_data result (local_by stopped_far (file_of file.now)) }
    ensures given { AreWritten (items_of (file_of file.now)) → Gives model_data result (local_given (file_of file.now)) }
{
    test_names(file, &names)?;
    test_shifts(alloc, file, &names)?;
    let model = nodes(alloc, file, names, values, exponents)?;
    test_height(alloc, &model)?;
    test_size(alloc, &model)?;
    Ok(model)
}

// There is no name too many.
fn test_names<'t>(file: &File<'t>, names: &Names<'t>) -> Result<(), LocalFault<'t>>
    requires { names.now ≡ names_of (file_of file.now) }
    ensures { Passes result (tested (names_refusal (file_of file.now))) }
{
    let Some(beyond) = name_beyond(file) else {
        return Ok(());
    };
    let count = names.count(beyond.kind) as u128;
    let most = most_names(beyond.kind) as u128;
    Err(refused(DataKind::ManyNames, beyond.name.at, count, most))
}

// No name is shifted too far.
fn test_shifts<'t>(alloc: Global, file: &File<'t>, names: &Names<'t>) -> Result<(), LocalFault<'t>>
    requires { names.now ≡ names_of (file_of file.now) }
    ensures { Passes result (tested (shifts_refusal stopped_far (file_of file.now))) }
{
    match far_name(alloc, 24, Scope::Variables, names, file) {
        Ok(None) => Ok(()),
        Ok(Some(far)) => Err(refused(DataKind::ShiftFar, far.name.at, far.greatest, 24)),
        Err(_) => Err(LocalFault::NoMemory),
    }
}

// No side is too high.
fn test_height<'t>(alloc: Global, model: &Model<'_>) -> Result<(), LocalFault<'t>>
    ensures { Passes result (tested (height_refusal (model_data model.now))) }
{
    let height = greatest_height(alloc, model)?;
    if height > 500 {
        return Err(refused(DataKind::TooDeep, 0, height as u128, 500));
    }
    Ok(())
}

// The sides are not too large.
fn test_size<'t>(alloc: Global, model: &Model<'_>) -> Result<(), LocalFault<'t>>
    ensures { Passes result (tested (size_refusal (model_data model.now))) }
{
    let count = operations(alloc, model)?;
    if count > 200000 {
        return Err(refused(DataKind::TooLarge, 0, count, 200000));
    }
    Ok(())
}

// The model in nodes, where nothing is far.
fn nodes<'t>(
    alloc: Global,
    file: &File<'t>,
    names: Names<'t>,
    values: &Table<'t>,
    exponents: &[Exponent],
) -> Result<Model<'t>, LocalFault<'t>>
    requires names { names ≡ names_of (file_of file.now) }
    requires values { values_given (file_of file.now) ≡ Ok values.now }
    requires exponents { all_exponents values.now (items_of (file_of file.now)) ≡ Ok exponents.now }
    requires far { far_name 24 (no_locals (is_variable names)) (items_of (file_of file.now)) ≡ None }
    ensures { Gives model_data result (model_given (file_of file.now)) }
{
    match mp_trees::model(alloc, file, names, values, exponents) {
        Ok(model) => Ok(model),
        Err(ModelFault::Unvalued { name }) => Err(LocalFault::Unvalued { name }),
        Err(ModelFault::Refused(refused)) => Err(LocalFault::Refused(refused)),
        Err(ModelFault::NoMemory) => Err(LocalFault::NoMemory),
    }
}
