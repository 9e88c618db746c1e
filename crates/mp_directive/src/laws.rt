// Laws of the definitions that the contracts cite. The code here does nothing.
ghost use Rattle.std.specs.Prelude.{◌≡◌, ◌⊎◌, ℕ, List, Ok, Err};
ghost use Rattle.mp_directive.specs.Tree.{Nodes};
ghost use Rattle.mp_directive.specs.Groups.{Fault, groups};
ghost use Rattle.mp_directive.specs.Structure.{NodesStand, StopsAt, LacksEnd, contents};

/// A file has a tree exactly where its lines, with their numbers, are those of the tree by the grammar of groups, with at
/// most 100 groups open; so it has one tree at most.
pub fn tree_law()
    ensures found { (bytes : List ℕ) (nodes : Nodes) → groups bytes ≡ Ok nodes → NodesStand 100 1 (contents bytes) nodes }
    ensures only { (bytes : List ℕ) (nodes : Nodes) → NodesStand 100 1 (contents bytes) nodes → groups bytes ≡ Ok nodes }
{}

/// A file's own fault is at the first line with which no file that has a tree can begin, and its kind is by what that line
/// is; or, where all lines can be gone on with, an end is missing: Unbalanced at the opener of the outermost open group.
pub fn fault_law()
    ensures { (bytes : List ℕ) (f : Fault) → groups bytes ≡ Err f → StopsAt (contents bytes) f ⊎ LacksEnd (contents bytes) f }
{}
