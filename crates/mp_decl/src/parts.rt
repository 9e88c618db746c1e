// Equations among the items of a model block.
ghost use Rattle.std.specs.Prelude.{◌≡◌, map, length};
ghost use Rattle.std.specs.List.{flat_map};
ghost use Rattle.mp_statements.specs.Parts.{equations_in};
ghost use Rattle.mp_file.specs.Shown.{item_of};

use mp_file::Item;

// How many of these items are equations.
pub(crate) fn equation_count(items: &[Item]) -> usize
    ensures { result ≡ length (flat_map equations_in (map item_of items.now)) }
{
    let mut count = 0;
    'turns: for item in items {
        if let Item::Equates { .. } = item {
            count += 1;
        }
    }
    count
}
