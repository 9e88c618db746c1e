//! The transformed model, whose endogenous shifts are within one, and that it has the solutions of its source. The
//! definitions stand in specs/; the functions here state laws, and do nothing.
#![tactic(auto)]

ghost use Rattle.std.specs.Prelude.{◌≡◌, ◌↔◌, ℕ, ℤ, ◌+◌, ◌+ℤ◌, ◌++◌, length, map};
ghost use Rattle.std.specs.List.{AllByRecursion, Contains};
ghost use Rattle.mp_semantics.specs.Term.{Leaf, Term};
ghost use Rattle.mp_semantics.specs.Value.{Environment, val};
ghost use Rattle.mp_semantics.specs.Model.{Model};
ghost use Rattle.mp_semantics.specs.Solves.{Boundary};
ghost use Rattle.mp_semantics.specs.Shifted.{with_leaves};
ghost use Rattle.mp_solutions.specs.Leaves.{shifted, AllLeaves, AllModelLeaves};
ghost use Rattle.mp_solutions.specs.Auxiliaries.{Auxiliary, auxiliaries_of, auxiliary_name, IsNeeded};
ghost use Rattle.mp_solutions.specs.Transformed.{transformed};
ghost use Rattle.mp_solutions.specs.Extension.{extended_boundary, HasRims};
ghost use Rattle.mp_solutions.specs.Laws.{IsClosed, IsShort, IsReadOwnWay, IsDistinct, IsInOrder, KeepsTags, HasPlaces, HasName, HasSameSolutions, HasSameSolutionsWithin, ReadsOwnPart, HasSameSides, IsSameLeaf};
ghost use Rattle.mp_solutions.specs.ShortForm.{IsShortForm};
ghost use Rattle.mp_solutions.specs.Example.{source_model, transformed_model, mixed_model, mixed_transformed};

/// A term with other leaves has the value of the first one where each leaf has that of the leaf that it replaces, and is
/// fixed by what each leaf becomes; a term k periods later has the value of k periods later.
pub fn leaves_laws()
    ensures replaced { (f : Leaf → Leaf) (env old : Environment) (t s : ℤ) (e : Term)
        → AllLeaves (IsSameLeaf f env t old s) e → val (with_leaves f e) env t ≡ val e old s }
    ensures alike { (f g : Leaf → Leaf) (e : Term) → AllLeaves (λ l. f l ≡ g l) e → with_leaves f e ≡ with_leaves g e }
    ensures shifted { (k : ℤ) (env : Environment) (t : ℤ) (e : Term) → val (shifted k e) env t ≡ val e env (t +ℤ k) }
{}

/// What the transformed model has.
pub fn transformed_laws()
    ensures names { (M : Model)
        → (transformed M).endogenous_names ≡ M.endogenous_names ++ map (auxiliary_name M.endogenous_names) (auxiliaries_of M) }
    ensures exogenous_names { (M : Model) → (transformed M).exogenous_names ≡ M.exogenous_names }
    ensures parameters { (M : Model) → (transformed M).parameters ≡ M.parameters }
    ensures constraints { (M : Model) → (transformed M).constraints ≡ M.constraints }
    ensures equations { (M : Model) → length (transformed M).equations ≡ length M.equations + length (auxiliaries_of M) }
    ensures tags { (M : Model) → KeepsTags M }
    ensures short { (M : Model) → AllModelLeaves IsShort (transformed M) }
    ensures closed { (M : Model) → IsClosed M → IsClosed (transformed M) }
    ensures unchanged { (M : Model) → AllModelLeaves IsShort M → transformed M ≡ M }
    ensures once { (M : Model) → transformed (transformed M) ≡ transformed M }
{}

/// Which auxiliaries there are: those that are needed, in order, each once. Their names are distinct where those of the
/// variables are.
pub fn auxiliaries_laws()
    ensures needed { (M : Model) (a : Auxiliary) → Contains (auxiliaries_of M) a ↔ IsNeeded M a }
    ensures order { (M : Model) → IsInOrder (auxiliaries_of M) }
    ensures distinct { (M : Model) → IsDistinct M.endogenous_names → IsDistinct (map (auxiliary_name M.endogenous_names) (auxiliaries_of M)) }
    ensures places { (M : Model) → HasPlaces M }
    ensures named { (M : Model) → AllByRecursion (HasName M) (auxiliaries_of M) }
    ensures own_way { (M : Model) → IsClosed M → AllModelLeaves (IsReadOwnWay M) (transformed M) }
    ensures rims { (M : Model) (T : ℕ) (b : Boundary) → HasRims M T b (extended_boundary M T b) }
{}

/// The transformed model has the solutions of its source, and no others.
pub fn solutions_law()
    ensures same_solutions { (M : Model) → IsClosed M → HasSameSolutions M }
    ensures same_solutions_within { (M : Model) → IsClosed M → HasSameSolutionsWithin M }
    ensures own_part { (M : Model) → ReadsOwnPart M }
    ensures same_sides { (M : Model) → IsClosed M → HasSameSides M }
{}

/// The transformed model is its source with long leads and lags replaced: names, equations, tags and shifts, and the same
/// solutions.
pub fn short_form_law()
    ensures { (M : Model) → IsClosed M → IsShortForm M (transformed M) }
{}

/// The transformed models of two small ones.
pub fn example_law()
    ensures long { transformed source_model ≡ transformed_model }
    ensures mixed { transformed mixed_model ≡ mixed_transformed }
{}
