// The elements of an array that is being made.
ghost use Rattle.std.specs.Prelude.{◌≡◌, ◌+◌, ◌++◌, ◌∷◌, [], min, nat_le, ◌&&◌, List, true, IfOk};
ghost use Rattle.mp_base.specs.Answers.{Gives};
ghost use Rattle.mp_mvalue.specs.Gathers.{Gathers};
ghost use Rattle.mp_mvalue.specs.Made.{made};
ghost use Rattle.mp_mvalue.specs.Shared.{unshared, all_unshared};
ghost use Rattle.mp_mvalue.specs.Told.{told};
ghost use Rattle.mp_mvalue.specs.declared.value.Value.{Value as Plain};

use crate::array::{DEEPEST, MOST_BYTES, MOST_ELEMENTS, array_of, refused};
use crate::fault::MacroFault;
use crate::length::{capped, depth, spread_of};
use crate::sharing::SharedValue;
use mp_base::{MacroKind, NoMemory};
use sqlite_items::Items;
use std::alloc::Global;

/// Elements that are gathered one by one. Once they pass a limit they are counted and measured, and no longer kept.
#[derive(Drop)]
pub struct Gathered {
    kept: Items<SharedValue>,
    count: usize,
    deepest: u8,
    length: u32,
}

impl Gathered {
    /// No elements.
    pub fn new(alloc: Global) -> Gathered
        ensures { Gathers result [] }
    {
        Gathered {
            kept: Items::new(alloc),
            count: 0,
            deepest: 0,
            length: 0,
        }
    }

    /// One element more.
    pub fn with(self, value: SharedValue) -> Result<Gathered, NoMemory>
        ensures { (xs : List Plain) → Gathers self xs → IfOk result (λ g. Gathers g (xs ++ unshared value ∷ [])) }
    {
        let count = counted(self.count);
        let deepest = self.deepest.max(depth(&value));
        let length = capped(self.length as usize, spread_of(&value));
        let Gathered { kept, .. } = self;
        let within = is_within(count, deepest, length);
        Ok(Gathered {
            kept: kept_with(kept, within, value)?,
            count,
            deepest,
            length,
        })
    }

    /// The array of the elements, within the limits of arrays and then of their printed length.
    pub fn finish(self, alloc: Global) -> Result<SharedValue, MacroFault>
        requires { (xs : List Plain) × Gathers self xs }
        ensures { (xs : List Plain) → Gathers self xs → Gives unshared told result (made xs) }
    {
        if self.count > MOST_ELEMENTS || self.deepest > DEEPEST {
            return refused(MacroKind::ArrayLimit);
        }
        if self.length > MOST_BYTES {
            return refused(MacroKind::TextLimit);
        }
        let Gathered {
            kept,
            deepest,
            length,
            ..
        } = self;
        Ok(array_of(alloc, kept, deepest, length)?)
    }
}

// One more, up to what is over the limit.
fn counted(count: usize) -> usize
    ensures { result ≡ min 100001 (count + 1) }
{
    if count > MOST_ELEMENTS {
        return MOST_ELEMENTS + 1;
    }
    count + 1
}

// Whether so many elements, so deep and so long, are within the limits.
fn is_within(count: usize, depth: u8, size: u32) -> bool
    ensures { result ≡ (nat_le count 100000 && nat_le depth 99 && nat_le size 8388608) }
{
    count <= MOST_ELEMENTS && depth <= DEEPEST && size <= MOST_BYTES
}

// One element more, where it is to be kept.
#[tactic(auto, using(crate::proofs::Made::pushing))]
fn kept_with(
    kept: Items<SharedValue>,
    within: bool,
    value: SharedValue,
) -> Result<Items<SharedValue>, NoMemory>
    ensures { IfOk result (λ es. within ≡ true → all_unshared es ≡ all_unshared kept ++ unshared value ∷ []) }
{
    let mut elements = kept;
    if within {
        elements.push(value)?;
    }
    Ok(elements)
}
