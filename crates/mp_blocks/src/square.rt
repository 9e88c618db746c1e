// Whether equations and variables are as many.
ghost use Rattle.std.specs.Prelude.{◌↔◌, IsTrue};
ghost use Rattle.mp_model_data.specs.Shown.{source_data};
ghost use Rattle.mp_blocks.specs.Rows.{IsSquare};

use mp_model_data::Model;

/// Whether there are as many equations as endogenous variables.
pub fn is_square(model: &Model) -> bool
    ensures { IsTrue result ↔ IsSquare (source_data model.now) }
{
    model.source_equations().len() == model.source_variables() as usize
}
