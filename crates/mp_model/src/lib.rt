//! That the printed model keeps what a file means. Definitions and laws; the functions here state the laws, and do
//! nothing.
#![tactic(auto)]

ghost use Rattle.std.specs.Prelude.{◌≡◌, ◌↔◌, ℕ, List, [], ◌∷◌, Some, Ok, pos};
ghost use Rattle.std.specs.List.{AllByRecursion};
ghost use Rattle.mp_tokens.specs.Tokens.{Tok, tokens};
ghost use Rattle.mp_statements.specs.Statements.{Statement};
ghost use Rattle.mp_grammar.specs.Grammar.{ReadsFile};
ghost use Rattle.mp_rational.specs.Fraction.{mul, ratio_of};
ghost use Rattle.mp_semantics.specs.Term.{endogenous};
ghost use Rattle.mp_semantics.specs.Model.{Model};
ghost use Rattle.mp_semantics.specs.Solves.{Boundary, Path, IsSolution};
ghost use Rattle.mp_solutions.specs.Transformed.{transformed};
ghost use Rattle.mp_solutions.specs.Example.{source_model};
ghost use Rattle.mp_canonical.specs.Files.{canonical_text};
ghost use Rattle.mp_canonical.specs.Printable.{IsLow, HasFreeNames};
ghost use Rattle.mp_values.specs.ModelOf.{model_given, model_of};
ghost use Rattle.mp_model.specs.Headline.{KeepsSolutions};
ghost use Rattle.mp_model.specs.Example.{values_text, values_file, values_model, values_printed, doubling_file, doubling_model, difference_text, difference_file, difference_model, difference_printed, shifts_text, shifts_file, shifts_printed};

/// For each text with tokens that read as a file with a model, where the limits of numbers refuse nothing, no side of an
/// equation of its model is higher than 500 nodes, its endogenous names are distinct, and the names of the auxiliaries
/// that it needs are free and have at most 128 bytes: the canonical text of the transformed model means that model, and a
/// path solves it exactly when it solves what was read and has for each auxiliary the shifted value of its variable
/// (Dynare manual, "Auxiliary variables").
pub fn headline_law()
    ensures { (text : List ℕ) (ts : List Tok) (file : List Statement) (M : Model)
        → tokens text ≡ Ok ts → ReadsFile ts file → model_given file ≡ Ok M → AllByRecursion (IsLow 500) M.equations → HasFreeNames M
        → KeepsSolutions file (canonical_text (transformed M)) }
{
    mp_values::limits_law();
    mp_solutions::transformed_laws();
    mp_solutions::auxiliaries_laws();
    mp_solutions::solutions_law();
    mp_canonical::canonical_law();
    mp_canonical::printable_law();
    mp_canonical::closed_law();
    mp_canonical::transformed_law();
}

/// What `var x; varexo e; parameters a; a = 1/2; a = a+1; model; x = (2*x(-1))^(a*2)+e; end;` reads as and means, and
/// how its model is printed: a is 3/2 at last, and the exponent is 3.
pub fn example_law()
    ensures reads { (ts : List Tok) × (tokens values_text ≡ Ok ts) × ReadsFile ts values_file }
    ensures model { model_of values_file ≡ Some values_model }
    ensures printed { canonical_text values_model ≡ values_printed }
{
    mp_rational::field_laws();
    mp_rational::ratio_laws();
    mp_rational::lowest_terms_laws();
}

/// What `var x; model; x = 2*x(-1); end;` means: over one period a path solves it exactly when its value there is twice
/// the boundary's value in period 0.
pub fn doubling_law()
    ensures model { model_of doubling_file ≡ Some doubling_model }
    ensures solutions { (b : Boundary) (q : Path)
        → IsSolution doubling_model 1 ([] ∷ []) b q ↔ (q 0 (pos 1) ≡ mul (ratio_of (pos 2) 1) (b (endogenous 0) (pos 0))) }
{}

/// What `var x; model; # g = x - 1; [name='eq'] diff(g) = 0; end;` reads as and means, and how its model is printed: the
/// local is replaced, its difference is taken, and the equation keeps its name.
pub fn difference_law()
    ensures reads { (ts : List Tok) × (tokens difference_text ≡ Ok ts) × ReadsFile ts difference_file }
    ensures model { model_of difference_file ≡ Some difference_model }
    ensures printed { canonical_text difference_model ≡ difference_printed }
{}

/// What `var x y; model; x = x(-3) + y(+3); y = x; end;` reads as and means, and how its transformed model is printed: x
/// one and two periods back and y one and two periods ahead are variables of their own.
pub fn shifts_law()
    ensures reads { (ts : List Tok) × (tokens shifts_text ≡ Ok ts) × ReadsFile ts shifts_file }
    ensures model { model_of shifts_file ≡ Some source_model }
    ensures printed { canonical_text (transformed source_model) ≡ shifts_printed }
{
    mp_solutions::example_law();
}
