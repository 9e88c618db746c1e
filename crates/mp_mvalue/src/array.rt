// Arrays and texts that are made of others.
ghost use Rattle.std.specs.Prelude.{◌≡◌, ◌++◌, ◌∷◌, [], ◌≤◌, length, min, not, ◌&&◌, nat_le, IfOk, OnOk, Err};
ghost use Rattle.mp_base.specs.Answers.{Gives};
ghost use Rattle.mp_mvalue.specs.Made.{made, printable};
ghost use Rattle.mp_mvalue.specs.Measures.{spread};
ghost use Rattle.mp_mvalue.specs.Shared.{unshared, all_unshared};
ghost use Rattle.mp_mvalue.specs.Told.{told};
ghost use Rattle.mp_mvalue.specs.Values.{deepest};
ghost use Rattle.mp_mvalue.specs.declared.value.Value.TheVariants as v;

use crate::copies::copy;
use crate::fault::MacroFault;
use crate::length::{capped, depth, spread_of};
use crate::sharing::{Array, SharedValue};
use mp_base::{Bytes, MacroKind, NoMemory};
use sqlite_items::Items;
use std::alloc::Global;
use std::rc::Rc;

// How many elements an array may have.
pub(crate) const MOST_ELEMENTS: usize = 100_000;

// How deep arrays may stand in an array's elements.
pub(crate) const DEEPEST: u8 = 99;

// How many bytes a value may print.
pub(crate) const MOST_BYTES: u32 = 8_388_608;

pub(crate) fn refused<T>(kind: MacroKind) -> Result<T, MacroFault>
    ensures { result ≡ Err (MacroFault.Refused kind) }
{
    Err(MacroFault::Refused { kind })
}

impl Array {
    /// An array without elements, which grows in this allocator.
    pub fn new(alloc: Global) -> Array
        ensures { result ≡ [] }
    {
        Array {
            elements: Items::new(alloc),
            deepest: 0,
            length: 0,
        }
    }

    /// One element more.
    pub fn with(self, value: SharedValue) -> Result<Array, NoMemory>
        ensures { IfOk result (λ a. a ≡ self ++ unshared value ∷ []) }
    {
        let deepest = self.deepest().max(depth(&value));
        let length = capped(self.spread() as usize, spread_of(&value));
        let Array { mut elements, .. } = self;
        elements.push(value)?;
        Ok(Array {
            elements,
            deepest,
            length,
        })
    }

    /// How many elements there are.
    #[tactic(auto, using(crate::proofs::Lengths::counting))]
    pub fn len(&self) -> usize
        ensures { result ≡ length self.now }
    {
        self.elements.as_slice().len()
    }

    /// The elements, lent.
    pub fn as_slice(&self) -> &[SharedValue]
        ensures { all_unshared result.now ≡ self.now }
    {
        self.elements.as_slice()
    }
}

// Copies of these elements at the end.
fn add_all(elements: &mut Items<SharedValue>, more: &[SharedValue]) -> Result<(), NoMemory>
    ensures { OnOk result (all_unshared elements.new ≡ all_unshared elements.old ++ all_unshared more.now) }
{
    for value in more {
        elements.push(copy(value)?)?;
    }
    Ok(())
}

// The elements of both.
fn both(
    alloc: Global,
    left: &[SharedValue],
    right: &[SharedValue],
) -> Result<Items<SharedValue>, NoMemory>
    ensures { IfOk result (λ es. all_unshared es ≡ all_unshared left.now ++ all_unshared right.now) }
{
    let mut elements = Items::new(alloc);
    add_all(&mut elements, left)?;
    add_all(&mut elements, right)?;
    Ok(elements)
}

// The array of elements that are measured, to be shared.
pub(crate) fn array_of(
    alloc: Global,
    elements: Items<SharedValue>,
    depth: u8,
    size: u32,
) -> Result<SharedValue, NoMemory>
    requires depth { depth ≡ deepest (all_unshared elements) }
    requires deep { depth ≤ 99 }
    requires size { size ≡ spread (all_unshared elements) }
    requires long { size ≤ 8388608 }
    ensures { IfOk result (λ x. unshared x ≡ v.List (all_unshared elements)) }
{
    let array = Array {
        elements,
        deepest: depth,
        length: size,
    };
    Ok(SharedValue::List(Rc::new(alloc, array)?))
}

// Whether both have too many elements together, or arrays too deep.
#[tactic(auto, using(crate::proofs::Lengths::joining))]
fn are_over(left: &Array, right: &Array) -> bool
    ensures { result ≡ not (nat_le (length (left.now ++ right.now)) 100000 && nat_le (deepest (left.now ++ right.now)) 99) }
{
    left.len() > MOST_ELEMENTS
        || right.len() > MOST_ELEMENTS - left.len()
        || depth_of(left, right) > DEEPEST
}

#[tactic(auto, using(crate::proofs::Lengths::joining))]
fn depth_of(left: &Array, right: &Array) -> u8
    ensures value { result ≡ min 100 (deepest (left.now ++ right.now)) }
    ensures within { result ≤ 100 }
{
    left.deepest().max(right.deepest())
}

#[tactic(auto, using(crate::proofs::Lengths::joining))]
fn spread_of_both(left: &Array, right: &Array) -> u32
    ensures { result ≡ min 8388609 (spread (left.now ++ right.now)) }
{
    capped(left.spread() as usize, right.spread())
}

/// The array of the left elements and then the right, within the limits of arrays and then of their printed length; the
/// elements are shared.
#[tactic(auto, using(crate::proofs::Made::making))]
pub fn join(alloc: Global, left: &Array, right: &Array) -> Result<SharedValue, MacroFault>
    ensures { Gives unshared told result (made (left.now ++ right.now)) }
{
    if are_over(left, right) {
        return refused(MacroKind::ArrayLimit);
    }
    let size = spread_of_both(left, right);
    if size > MOST_BYTES {
        return refused(MacroKind::TextLimit);
    }
    let elements = both(alloc, left.as_slice(), right.as_slice())?;
    Ok(array_of(alloc, elements, depth_of(left, right), size)?)
}

/// The text of both, within the limit of a printed value.
pub fn join_texts(alloc: Global, left: &[u8], right: &[u8]) -> Result<SharedValue, MacroFault>
    ensures { Gives unshared told result (printable (v.Text (left.now ++ right.now))) }
{
    if left.len() > MOST_BYTES as usize || right.len() > MOST_BYTES as usize - left.len() {
        return refused(MacroKind::TextLimit);
    }
    let mut text = Bytes::new(alloc);
    text.add(left)?;
    text.add(right)?;
    Ok(SharedValue::Text(Rc::new(alloc, text)?))
}
