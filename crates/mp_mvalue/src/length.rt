// How deep a value is, and how long it prints, from what is kept.
ghost use Rattle.std.specs.Prelude.{◌≡◌, ◌+◌, ◌≤◌, length, min};
ghost use Rattle.mp_mvalue.specs.Values.{depth, deepest, shown};
ghost use Rattle.mp_mvalue.specs.Measures.{spread};
ghost use Rattle.mp_mvalue.specs.Shared.{unshared};
ghost use Rattle.mp_mvalue.specs.declared.value.Value.TheVariants as v;

use crate::sharing::{Array, SharedValue};
use itoa::Buffer;

// The first length that is over the limit.
pub(crate) const OVER: u32 = 8_388_609;

// The depth that is over the limit of an array's elements.
pub(crate) const DEEP: u8 = 100;

impl Array {
    // How deep arrays stand in the elements.
    pub(crate) fn deepest(&self) -> u8
        ensures value { result ≡ min 100 (deepest self.now) }
        ensures within { result ≤ 100 }
    {
        self.deepest
    }

    // How long the elements print, each with a comma and a blank.
    pub(crate) fn spread(&self) -> u32
        ensures value { result ≡ min 8388609 (spread self.now) }
        ensures within { result ≤ 8388609 }
    {
        self.length
    }
}

// How many arrays stand inside one another in the value.
#[tactic(auto, using(crate::proofs::Lengths::lists))]
pub(crate) fn depth(value: &SharedValue) -> u8
    ensures value { result ≡ min 100 (depth (unshared value.now)) }
    ensures within { result ≤ 100 }
{
    match value {
        SharedValue::List(array) => deeper(array.as_ref().deepest()),
        _ => 0,
    }
}

fn deeper(depth: u8) -> u8
    requires { depth ≤ 100 }
    ensures value { result ≡ min 100 (1 + depth) }
    ensures within { result ≤ 100 }
{
    (depth + 1).min(DEEP)
}

// How long the value prints as an element, with a comma and a blank.
pub(crate) fn spread_of(value: &SharedValue) -> u32
    ensures value { result ≡ min 8388609 (length (shown (unshared value.now)) + 2) }
    ensures within { result ≤ 8388609 }
{
    match value {
        SharedValue::Whole(n) => spread_of_whole(*n),
        SharedValue::Truth(b) => if *b { 6 } else { 7 },
        SharedValue::Text(text) => spread_of_text(text.as_ref().as_slice()),
        SharedValue::List(array) => spread_of_array(array.as_ref()),
    }
}

fn spread_of_whole(n: i64) -> u32
    ensures value { result ≡ min 8388609 (length (shown (v.Whole n)) + 2) }
    ensures within { result ≤ 8388609 }
{
    let mut buffer = Buffer::new();
    capped(buffer.format(n).as_bytes().len(), 2)
}

#[tactic(auto, using(crate::proofs::Lengths::texts))]
fn spread_of_text(text: &[u8]) -> u32
    ensures value { result ≡ min 8388609 (length (shown (v.Text text.now)) + 2) }
    ensures within { result ≤ 8388609 }
{
    capped(text.len(), 4)
}

#[tactic(auto, using(crate::proofs::Lengths::lists))]
fn spread_of_array(array: &Array) -> u32
    ensures value { result ≡ min 8388609 (length (shown (v.List array.now)) + 2) }
    ensures within { result ≤ 8388609 }
{
    capped(array.spread().max(2) as usize, 2)
}

// The sum, or what is over the limit.
pub(crate) fn capped(length: usize, more: u32) -> u32
    requires { more ≤ 8388609 }
    ensures value { result ≡ min 8388609 (length + more) }
    ensures within { result ≤ 8388609 }
{
    if length >= OVER as usize {
        return OVER;
    }
    (length as u32 + more).min(OVER)
}
