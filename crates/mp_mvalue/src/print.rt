// How a value prints.
ghost use Rattle.std.specs.Prelude.{◌≡◌, ◌++◌, map, IfOk, OnOk, codes};
ghost use Rattle.mp_mvalue.specs.Shared.{unshared, all_unshared};
ghost use Rattle.mp_mvalue.specs.Values.{truth_word, shown, listed, printed};
ghost use Rattle.mp_mvalue.specs.declared.value.Value.{Value};

use crate::sharing::SharedValue;
use itoa::Buffer;
use mp_base::{Bytes, NoMemory};
use std::alloc::Global;

// Appends the value as an element of an array.
#[cycle(show)]
#[tactic(auto, using(crate::proofs::Lengths::lists))]
fn show(out: &mut Bytes, value: &SharedValue) -> Result<(), NoMemory>
    ensures { OnOk result (out.new ≡ out.old ++ shown (unshared value.now)) }
{
    match value {
        SharedValue::Whole(n) => show_whole(out, *n),
        SharedValue::Truth(b) => show_truth(out, *b),
        SharedValue::Text(text) => {
            out.add(b"\"")?;
            out.add(text.as_ref().as_slice())?;
            out.add(b"\"")
        }
        SharedValue::List(array) => show_list(out, array.as_ref().as_slice()),
    }
}

#[cycle(show)]
fn show_list(out: &mut Bytes, values: &[SharedValue]) -> Result<(), NoMemory>
    ensures { OnOk result (out.new ≡ out.old ++ (codes "[" ++ listed (map shown (all_unshared values.now)) ++ codes "]")) }
{
    out.add(b"[")?;
    show_all(out, values)?;
    out.add(b"]")
}

#[cycle(show)]
fn show_all(out: &mut Bytes, values: &[SharedValue]) -> Result<(), NoMemory>
    ensures { OnOk result (out.new ≡ out.old ++ listed (map shown (all_unshared values.now))) }
{
    let Some((first, more)) = values.split_first() else {
        return Ok(());
    };
    show(out, first)?;
    for value in more {
        out.add(b", ")?;
        show(out, value)?;
    }
    Ok(())
}

fn show_whole(out: &mut Bytes, n: i64) -> Result<(), NoMemory>
    ensures { OnOk result (out.new ≡ out.old ++ shown (Value.Whole n)) }
{
    let mut buffer = Buffer::new();
    out.add(buffer.format(n).as_bytes())
}

fn show_truth(out: &mut Bytes, b: bool) -> Result<(), NoMemory>
    ensures { OnOk result (out.new ≡ out.old ++ truth_word b) }
{
    if b {
        out.add(b"true")
    } else {
        out.add(b"false")
    }
}

/// The printed value: a number in decimal, `true` or `false`, a text's bytes, and an array as `[a, b]` with its texts
/// in quotes.
#[tactic(auto, using(crate::proofs::Lengths::alone))]
pub fn print_value(alloc: Global, value: &SharedValue) -> Result<Bytes, NoMemory>
    ensures { IfOk result (λ b. b ≡ printed (unshared value.now)) }
{
    let mut out = Bytes::new(alloc);
    if let SharedValue::Text(text) = value {
        out.add(text.as_ref().as_slice())?;
        return Ok(out);
    }
    show(&mut out, value)?;
    Ok(out)
}
