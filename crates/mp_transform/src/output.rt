// What is written of a transformed model.
ghost use Rattle.std.specs.Prelude.{◌≡◌, ◌≤◌, ◌^◌, Ok, MatchResult};
ghost use Rattle.mp_model_data.specs.Shown.{model_data};
ghost use Rattle.mp_derivatives.specs.Records.{records_text};
ghost use Rattle.mp_derivatives.specs.Derived.{HaveDerivatives};
ghost use Rattle.mp_transform.specs.Steps.{Says, TextShows, whole};
ghost use Rattle.mp_transform.specs.Text.{output_of};

use mp_base::{Bytes, DataKind, DataRefusal, Reduced, Refusal};
use mp_derive::DeriveFault;
use mp_model_data::Model;
use mp_report::Derivatives;
use std::alloc::Global;

/// What is written of a transformed model: its canonical text, or the records of its derivatives.
#[derive(Clone, Copy, Debug, PartialEq, Eq)]
pub enum Output {
    Model,
    Derivatives,
}

/// How many operations the derivatives of a model may have together.
const MOST_OPERATIONS: i128 = 2_000_000;

/// This output of the model.
pub(crate) fn written(alloc: Global, model: Model, output: Output) -> Result<Bytes, Refusal>
    requires { HaveDerivatives (model_data model) }
    ensures says { Says (λ bytes. bytes) (output_of output (model_data model.entry)) result }
    ensures shows { MatchResult result (λ _. Unit {0}) TextShows }
{
    match output {
        Output::Model => printed(alloc, model),
        Output::Derivatives => listed(alloc, model),
    }
}

// The canonical text of the model, whose derivatives are within their limit.
fn printed(alloc: Global, model: Model) -> Result<Bytes, Refusal>
    ensures says { Says (λ bytes. bytes) (output_of Output.Model (model_data model.entry)) result }
    ensures shows { MatchResult result (λ _. Unit {0}) TextShows }
{
    let Ok(text) = mp_print_model::print_model(alloc, &model) else {
        return Err(Refusal::NoMemory);
    };
    match mp_derive::tested(alloc, model) {
        Ok(()) => Ok(text),
        Err(DeriveFault::Large { count }) => Err(too_large(count)),
        Err(DeriveFault::NoMemory) => Err(Refusal::NoMemory),
    }
}

// The records of the model's derivatives.
fn listed(alloc: Global, model: Model) -> Result<Bytes, Refusal>
    requires { HaveDerivatives (model_data model) }
    ensures says { Says (λ bytes. bytes) (output_of Output.Derivatives (model_data model.entry)) result }
    ensures shows { MatchResult result (λ _. Unit {0}) TextShows }
{
    match mp_derive::derivatives(alloc, model) {
        Ok(list) => recorded(alloc, &list),
        Err(DeriveFault::Large { count }) => Err(too_large(count)),
        Err(DeriveFault::NoMemory) => Err(Refusal::NoMemory),
    }
}

// These records.
fn recorded(alloc: Global, list: &Derivatives) -> Result<Bytes, Refusal>
    ensures says { Says (λ bytes. bytes) (Ok (records_text list.now)) result }
    ensures shows { MatchResult result (λ _. Unit {0}) TextShows }
{
    match mp_report::write_derivatives(alloc, list) {
        Ok(bytes) => Ok(bytes),
        Err(_) => Err(Refusal::NoMemory),
    }
}

// The derivatives have so many operations, which are too many.
fn too_large(count: u128) -> Refusal
    requires { count ≤ 10 ^ 37 }
    ensures { result ≡ Refusal.Data (record { kind = DataKind.DerivativesLarge; at = 0; first = whole count; second = whole 2000000 }) }
{
    Refusal::Data(DataRefusal {
        kind: DataKind::DerivativesLarge,
        at: 0,
        first: Reduced::whole(count as i128),
        second: Reduced::whole(MOST_OPERATIONS),
    })
}
