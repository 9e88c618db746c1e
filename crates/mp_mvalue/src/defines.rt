// Names and values that stand outside a text.

use crate::value::Value;
use mp_base::Bytes;
use sqlite_items::Items;

/// A name with its value.
#[derive(Drop)]
pub struct Define {
    pub name: Bytes,
    pub value: Value,
}

/// Names with values, in order; a later one of the same name stands.
pub type Defines = Items<Define>;
