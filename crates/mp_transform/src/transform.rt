// From a text to what is written of its transformed model: each step gives what the next one needs, or the outcome that ends
// the run.
ghost use Rattle.std.specs.Prelude.{◌≡◌, ◌<◌, ◌-◌, ◌^◌, length, None, Ok, IfOk, MatchResult};
ghost use Rattle.mp_tokens.specs.Literals.{far_literal};
ghost use Rattle.mp_file.specs.Shown.{file_of};
ghost use Rattle.mp_statements.specs.Parts.{items_of};
ghost use Rattle.mp_solutions.specs.Transformed.{transformed};
ghost use Rattle.mp_values.specs.Names.{names_of};
ghost use Rattle.mp_values.specs.Exponents.{all_exponents};
ghost use Rattle.mp_values.specs.Values.{values_given};
ghost use Rattle.mp_model_data.specs.Shown.{model_data};
ghost use Rattle.mp_decl.specs.Given.{declared_given};
ghost use Rattle.mp_local.specs.Written.{AreWritten};
ghost use Rattle.mp_shift.specs.Called.{AreOf};
ghost use Rattle.mp_transform.specs.Steps.{Says, TextShows};
ghost use Rattle.mp_derivatives.specs.Derived.{HaveDerivatives};
ghost use Rattle.mp_transform.specs.Text.{limited, named_step, sourced, model_of_text, output_of, output_gives, text_gives, derivatives_give};
ghost use Rattle.mp_transform.specs.Canonical.{IsCanonical, AreDerivatives, HasNames};
ghost use Rattle.mp_transform.specs.Wrong.{IfWrongToken};

use crate::output::{Output, written};
use crate::reading::{lexed, parsed};
use mp_base::{Bytes, DeclKind, Label, Refusal};
use mp_decl::{DeclFault, Declared};
use mp_file::File;
use mp_fold::lowest_terms;
use mp_lex::Tokens;
use mp_local::LocalFault;
use mp_model_data::Model;
use mp_shift::{Auxiliaries, ShiftFault};
use mp_statements::NameKind;
use std::alloc::Global;

/// The canonical text of the model that a text means, with locals replaced, differences taken, and long leads and lags
/// of endogenous variables written by auxiliary variables: its names, the values of its parameters and its equations,
/// with exponents folded and the fewest parentheses; or the first refusal: of tokens, grammar, declarations, values,
/// limits of models, names of auxiliaries and the limit of derivatives, in this order (Dynare manual, "The model file",
/// "Auxiliary variables"; the canonical text is modpath's own).
pub fn transformed(alloc: Global, text: &[u8]) -> Result<Bytes, Refusal>
    requires { length text.now < 2 ^ 32 - 1 }
    ensures says { Says (λ bytes. bytes) (text_gives text.now) result }
    // The first wrong token is told exactly.
    ensures wrong_token { MatchResult result (λ _. Unit {0}) (IfWrongToken text.now) }
    // A path solves what is written exactly when it solves what was read and has the shifted values.
    ensures canonical { IfOk result (λ bytes. IsCanonical text.now bytes) }
    ensures shows { MatchResult result (λ _. Unit {0}) TextShows }
{
    mp_grammar::grammar_law();
    mp_values::limits_law();
    mp_model::headline_law();
    let bytes = text_output(alloc, text, Output::Model)?;
    Ok(bytes)
}

/// The derivatives of the model that `transformed` writes, as comma-separated records: of the difference of both sides of
/// each equation, by each variable and shift that occurs in it; or the first refusal, as `transformed` has it (modpath's
/// own).
pub fn derived(alloc: Global, text: &[u8]) -> Result<Bytes, Refusal>
    requires { length text.now < 2 ^ 32 - 1 }
    ensures says { Says (λ bytes. bytes) (derivatives_give text.now) result }
    // The first wrong token is told exactly.
    ensures wrong_token { MatchResult result (λ _. Unit {0}) (IfWrongToken text.now) }
    // There is a record for each place that occurs, and its text is worth the dual number's slope wherever that exists.
    ensures derivatives { IfOk result (λ bytes. AreDerivatives text.now bytes) }
    ensures shows { MatchResult result (λ _. Unit {0}) TextShows }
{
    mp_grammar::grammar_law();
    mp_values::limits_law();
    mp_derivatives::listed_law();
    let bytes = text_output(alloc, text, Output::Derivatives)?;
    Ok(bytes)
}

// This output of the transformed model. The names of the auxiliaries that it has are free.
fn text_output(alloc: Global, text: &[u8], output: Output) -> Result<Bytes, Refusal>
    requires { length text.now < 2 ^ 32 - 1 }
    ensures says { Says (λ bytes. bytes) (output_gives output text.now) result }
    ensures names { IfOk result (λ _. HasNames (model_of_text text.now)) }
    ensures shows { MatchResult result (λ _. Unit {0}) TextShows }
{
    let tokens = lexed(alloc, text)?;
    let end = text.len() as u32;
    let file = parsed(alloc, &tokens, end)?;
    let model = tested(alloc, &tokens, &file, end)?;
    let names = named(alloc, &file, &model)?;
    model.graph().names().distinct(NameKind::Endogenous);
    shifted(alloc, model, &names, output)
}

// The model of a file that declares it, with no number and no limit of models passed. The text ends at `end`.
fn tested<'t>(
    alloc: Global,
    tokens: &Tokens<'t>,
    file: &File<'t>,
    end: u32,
) -> Result<Model<'t>, Refusal>
    requires written { far_literal tokens.now ≡ None → AreWritten (items_of (file_of file.now)) }
    ensures says { Says model_data (sourced end tokens.now (file_of file.now)) result }
    ensures derivatives { IfOk result (λ m. HaveDerivatives (model_data m)) }
    ensures shows { MatchResult result (λ _. Unit {0}) TextShows }
{
    mp_derivatives::given_law();
    let declared = declared(alloc, tokens, file, end)?;
    limited(alloc, file, declared, end)
}

// What the file declares. The text ends at `end`.
fn declared<'t>(
    alloc: Global,
    tokens: &Tokens<'t>,
    file: &File<'t>,
    end: u32,
) -> Result<Declared<'t>, Refusal>
    ensures says { Says (λ d. d.values) (declared_given end tokens.now (file_of file.now)) result }
    ensures names { IfOk result (λ d. d.names ≡ names_of (file_of file.now)) }
    ensures values { IfOk result (λ d. values_given (file_of file.now) ≡ Ok d.values) }
    ensures exponents { IfOk result (λ d. all_exponents d.values (items_of (file_of file.now)) ≡ Ok d.exponents.items) }
    ensures in_range { IfOk result (λ _. far_literal tokens.now ≡ None) }
    ensures shows { MatchResult result (λ _. Unit {0}) TextShows }
{
    match mp_decl::declare(alloc, tokens, file, end) {
        Ok(declared) => Ok(declared),
        Err(DeclFault::Declared { kind, name, at }) => Err(Refusal::Declared { kind, name, at }),
        Err(DeclFault::Data(refused)) => Err(Refusal::Data(refused)),
        Err(DeclFault::NoMemory) => Err(Refusal::NoMemory),
    }
}

// The model of a file that declares these names, values and exponents, with no limit of models passed. The text ends at
// `end`.
fn limited<'t>(
    alloc: Global,
    file: &File<'t>,
    declared: Declared<'t>,
    end: u32,
) -> Result<Model<'t>, Refusal>
    requires names { declared.names ≡ names_of (file_of file.now) }
    requires values { values_given (file_of file.now) ≡ Ok declared.values }
    requires exponents { all_exponents declared.values (items_of (file_of file.now)) ≡ Ok declared.exponents.items }
    requires written { AreWritten (items_of (file_of file.now)) }
    ensures says { Says model_data (limited end (file_of file.now)) result }
    ensures shows { MatchResult result (λ _. Unit {0}) TextShows }
{
    let Declared {
        names,
        values,
        exponents,
    } = declared;
    match mp_local::expand_locals(alloc, file, names, &values, &exponents) {
        Ok(model) => Ok(model),
        Err(LocalFault::Unvalued { name }) => Err(Refusal::Declared {
            kind: DeclKind::NoValue,
            name: Label::of(name.bytes()),
            at: end,
        }),
        Err(LocalFault::Refused(refused)) => {
            lowest_terms(&refused);
            Err(Refusal::Data(refused))
        }
        Err(LocalFault::NoMemory) => Err(Refusal::NoMemory),
    }
}

// The auxiliaries of the model with their names.
fn named(alloc: Global, file: &File, model: &Model) -> Result<Auxiliaries, Refusal>
    ensures says { Says (λ _. model_data model.now) (named_step (file_of file.now) (model_data model.now)) result }
    ensures names { IfOk result (λ names. AreOf (model_data model.now) names) }
    ensures shows { MatchResult result (λ _. Unit {0}) TextShows }
{
    match mp_shift::auxiliaries(alloc, model, file) {
        Ok(names) => Ok(names),
        Err(ShiftFault::Declared { kind, name, at }) => Err(Refusal::Declared { kind, name, at }),
        Err(ShiftFault::NoMemory) => Err(Refusal::NoMemory),
    }
}

// This output of the transformed model, whose auxiliaries have these names.
fn shifted<'t, 'n>(
    alloc: Global,
    model: Model<'t>,
    names: &'n Auxiliaries,
    output: Output,
) -> Result<Bytes, Refusal>
    requires names { AreOf (model_data model) names.now }
    requires derivatives { HaveDerivatives (model_data model) }
    ensures says { Says (λ bytes. bytes) (output_of output (transformed (model_data model.entry))) result }
    ensures shows { MatchResult result (λ _. Unit {0}) TextShows }
{
    mp_derivatives::given_law();
    match mp_shift::transform(alloc, model, names) {
        Ok(shifted) => written(alloc, shifted, output),
        Err(_) => Err(Refusal::NoMemory),
    }
}
