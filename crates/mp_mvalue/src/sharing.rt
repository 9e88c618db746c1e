// Values that are shared.

use mp_base::Bytes;
use sqlite_items::Items;
use std::alloc::Global;
use std::marker::Model;
use std::rc::Rc;

/// A value whose text or elements are shared by all that hold it, so that a copy takes no memory.
#[cycle(shared)]
#[derive(Drop)]
pub enum SharedValue {
    Whole(i64),
    Truth(bool),
    Text(Rc<Bytes, Global>),
    List(Rc<Array, Global>),
}

/// The elements of an array, with how deep arrays stand in them (up to 100) and how long they print, each with a comma
/// and a blank (up to 8,388,609). Contracts see the elements.
#[cycle(shared)]
#[derive(Drop)]
pub struct Array {
    pub(crate) elements: Items<SharedValue>,
    pub(crate) deepest: u8,
    pub(crate) length: u32,
}

impl Model for Array {
    ghost use Rattle.std.specs.Prelude.{List, map};
    ghost use Rattle.std.specs.Coded.{coded_list};
    ghost use Rattle.mp_mvalue.specs.declared.value.Value.{Value as Plain};
    ghost use Rattle.mp_mvalue.specs.contracts.value.Value as v;

    ghost Value = { List Plain };

    ghost coded = { coded_list v.the_row.coded };

    ghost use Rattle.mp_mvalue.specs.Shared.{unshared};

    ghost view = { λ a. map unshared a.elements };

    ghost use Rattle.mp_mvalue.specs.Measures.{IsMeasured};

    ghost invariant = { λ a. IsMeasured (map unshared a.elements) a.deepest a.length };

    ghost use Rattle.mp_mvalue.specs.Measures.{all_weight};

    ghost size = { all_weight };

    ghost use Rattle.mp_mvalue.specs.Falls.{falls};

    ghost size_decreases = { λ a h. falls a };
}
