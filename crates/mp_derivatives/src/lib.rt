//! The derivatives of a model and their records: the grammar of printed derivatives, what they mean, and that the records
//! read back. Definitions and laws; the functions here state the laws, and do nothing.
#![tactic(auto)]

pub mod bound;
pub mod given;

ghost use Rattle.std.specs.Prelude.{ℕ};
ghost use Rattle.mp_semantics.specs.Term.{Term};
ghost use Rattle.mp_semantics.specs.Model.{Model};
ghost use Rattle.mp_values.specs.Names.{Names};
ghost use Rattle.mp_canonical.specs.Printable.{IsPrintable};
ghost use Rattle.mp_derivatives.specs.Meant.{IsPrintableDerivative, MeansTerm, term_text};
ghost use Rattle.mp_derivatives.specs.Derivatives.{derivatives_text};
ghost use Rattle.mp_derivatives.specs.Listed.{ListsDerivatives};

pub use bound::bound_law;
pub use given::{given_law, listed_law};

/// The canonical text of an expression that can be written, `pick` allowed, reads back, without a limit of parentheses, as
/// one expression, which means it.
pub fn text_law()
    ensures { (ns : Names) (t : Term) → IsPrintableDerivative ns t → MeansTerm ns (term_text ns t) t }
{
    mp_rational::field_laws();
    mp_rational::ratio_laws();
    mp_rational::lowest_terms_laws();
}

/// What is written of the derivatives of a model that can be written, reads back: a record for each place that occurs in
/// the difference of both sides of an equation and no other, and the text of each means the derivative, which is worth
/// the slope of the dual number wherever that exists. There is no limit of parentheses.
pub fn derivatives_law()
    ensures { (room : ℕ) (M : Model) → IsPrintable room M → ListsDerivatives M (derivatives_text M) }
{
    text_law();
    mp_slopes::derivative_law();
    mp_slopes::places_law();
}
