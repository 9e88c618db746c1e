// That what a text means has derivatives, whose records read back.
ghost use Rattle.std.specs.Prelude.{◌≡◌, ℕ, List, Ok};
ghost use Rattle.std.specs.List.{AllByRecursion};
ghost use Rattle.mp_tokens.specs.Tokens.{Tok, tokens};
ghost use Rattle.mp_statements.specs.Statements.{Statement};
ghost use Rattle.mp_grammar.specs.Grammar.{ReadsFile};
ghost use Rattle.mp_semantics.specs.Model.{Model};
ghost use Rattle.mp_solutions.specs.Transformed.{transformed};
ghost use Rattle.mp_values.specs.ModelOf.{model_given};
ghost use Rattle.mp_canonical.specs.Printable.{IsLow, HasFreeNames};
ghost use Rattle.mp_derivatives.specs.Derivatives.{derivatives_text};
ghost use Rattle.mp_derivatives.specs.Derived.{HaveDerivatives};
ghost use Rattle.mp_derivatives.specs.Listed.{ListsDerivatives};

/// Within the limits of numbers the sides of the equations that a file means have derivatives: they have no `pick`, and
/// exponents from -16 to 16. So have those of the transformed model.
pub fn given_law()
    ensures given { (file : List Statement) (M : Model) → model_given file ≡ Ok M → HaveDerivatives M }
    ensures transformed { (M : Model) → HaveDerivatives M → HaveDerivatives (transformed M) }
{}

/// For each text with tokens that read as a file with a model, where the limits of numbers refuse nothing, no side of an
/// equation of its model is higher than 500 nodes, its endogenous names are distinct, and the names of the auxiliaries
/// that it needs are free and have at most 128 bytes: the records of the derivatives of the transformed model read back
/// to them.
pub fn listed_law()
    ensures { (text : List ℕ) (ts : List Tok) (file : List Statement) (M : Model)
        → tokens text ≡ Ok ts → ReadsFile ts file → model_given file ≡ Ok M → AllByRecursion (IsLow 500) M.equations → HasFreeNames M
        → ListsDerivatives (transformed M) (derivatives_text (transformed M)) }
{
    mp_values::limits_law();
    mp_canonical::printable_law();
    mp_canonical::transformed_law();
    crate::derivatives_law();
}
