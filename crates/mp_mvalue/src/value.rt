// What a value is.

use mp_base::Bytes;
use sqlite_items::Items;

/// A value of a macro expression: a whole number of 64 bits, a truth value, a text or an array (Dynare manual, "Macro
/// processing language"). Contracts speak of it; an expansion holds a `SharedValue`.
#[cycle(value)]
#[derive(Drop)]
pub enum Value {
    Whole(i64),
    Truth(bool),
    Text(Bytes),
    List(Values),
}

/// The elements of an array, in order.
pub type Values = Items<Value>;
