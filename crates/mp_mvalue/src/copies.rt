// Copies, which share, and what is shared of a value.
ghost use Rattle.std.specs.Prelude.{◌≡◌, IfOk};
ghost use Rattle.mp_mvalue.specs.Shared.{unshared};

use crate::sharing::{Array, SharedValue};
use crate::value::Value;
use mp_base::{Bytes, NoMemory};
use std::alloc::Global;
use std::rc::Rc;

/// The same value once more, which takes no memory of its own.
pub fn copy(value: &SharedValue) -> Result<SharedValue, NoMemory>
    ensures { IfOk result (λ v. unshared v ≡ unshared value.now) }
{
    match value {
        SharedValue::Whole(n) => Ok(SharedValue::Whole(*n)),
        SharedValue::Truth(b) => Ok(SharedValue::Truth(*b)),
        SharedValue::Text(text) => Ok(SharedValue::Text(text.clone()?)),
        SharedValue::List(array) => Ok(SharedValue::List(array.clone()?)),
    }
}

/// The text of these bytes, to be shared.
pub fn text(alloc: Global, bytes: &[u8]) -> Result<SharedValue, NoMemory>
    ensures { IfOk result (λ v. unshared v ≡ Value.Text bytes.now) }
{
    let mut copy = Bytes::new(alloc);
    copy.add(bytes)?;
    Ok(SharedValue::Text(Rc::new(alloc, copy)?))
}

/// The value, to be shared.
#[cycle(shares)]
pub fn shared(alloc: Global, value: &Value) -> Result<SharedValue, NoMemory>
    ensures { IfOk result (λ v. unshared v ≡ value.now) }
{
    match value {
        Value::Whole(n) => Ok(SharedValue::Whole(*n)),
        Value::Truth(b) => Ok(SharedValue::Truth(*b)),
        Value::Text(bytes) => text(alloc, bytes.as_slice()),
        Value::List(values) => {
            let array = shared_all(alloc, values.as_slice())?;
            Ok(SharedValue::List(Rc::new(alloc, array)?))
        }
    }
}

#[cycle(shares)]
fn shared_all(alloc: Global, values: &[Value]) -> Result<Array, NoMemory>
    ensures { IfOk result (λ a. a ≡ values.now) }
{
    let mut array = Array::new(alloc);
    for value in values {
        array = array.with(shared(alloc, value)?)?;
    }
    Ok(array)
}
