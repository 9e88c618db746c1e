// Laws of the limits.
ghost use Rattle.std.specs.Prelude.{◌≡◌, ◌≤◌, ◌+◌, ◌^◌, ℕ, Bool, List, Some, None, Ok};
ghost use Rattle.mp_statements.specs.Statements.{Item, Statement};
ghost use Rattle.mp_statements.specs.Parts.{items_of};
ghost use Rattle.mp_declared.specs.Many.{name_beyond};
ghost use Rattle.mp_semantics.specs.Model as m;
ghost use Rattle.mp_values.specs.Names.{names_of, is_variable};
ghost use Rattle.mp_values.specs.ModelOf.{model_given, model_of};
ghost use Rattle.mp_values.specs.Shifts.{FarName, far_name, no_locals};
ghost use Rattle.mp_local.specs.Local.{local_by, local_given};
ghost use Rattle.mp_local.specs.Reaches.{stopped_far};
ghost use Rattle.mp_local.specs.Sizes.{greatest_height, operations};
ghost use Rattle.mp_local.specs.Written.{AreWritten};

/// Where each shift that is written is a number in range, and no more differences stand in one another than parentheses
/// may, a far name is told exactly: its greatest shift is at most 10^37 + 500.
pub fn written_law()
    ensures far { (limit : ℕ) (counts : List ℕ → Bool) (items : List Item) (x : FarName) → limit ≤ 10 ^ 37 → AreWritten items → far_name limit (no_locals counts) items ≡ Some x → x.greatest ≤ 10 ^ 37 + 500 }
    ensures model { (file : List Statement) → AreWritten (items_of file) → local_by stopped_far file ≡ local_given file }
{}

/// A model that the limits let through is the one that the file means, with limits of numbers and without, and it is
/// within each limit.
pub fn local_law()
    ensures given { (file : List Statement) (M : m.Model) → local_given file ≡ Ok M → model_given file ≡ Ok M }
    ensures exact { (file : List Statement) (M : m.Model) → local_given file ≡ Ok M → model_of file ≡ Some M }
    ensures names { (file : List Statement) (M : m.Model) → local_given file ≡ Ok M → name_beyond file ≡ None }
    ensures shifts { (file : List Statement) (M : m.Model) → local_given file ≡ Ok M → far_name 24 (no_locals (is_variable (names_of file))) (items_of file) ≡ None }
    ensures height { (file : List Statement) (M : m.Model) → local_given file ≡ Ok M → greatest_height M ≤ 500 }
    ensures size { (file : List Statement) (M : m.Model) → local_given file ≡ Ok M → operations M ≤ 200000 }
{
    mp_values::limits_law();
}
