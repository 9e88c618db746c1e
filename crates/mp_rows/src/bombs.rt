// What no clause says: that hostile texts have their answers in time, where there is memory.

use crate::running::{EXPAND, Row, answers};
use mp_base::{Bytes, NoMemory};
use std::alloc::Global;
use std::process::Abort;
use std::test::Fail;

// Lines, a line that is repeated so often, and the lines after it; and what is told of them under `expand`, which writes
// nothing.
type Bomb = (
    &'static str,
    &'static str,
    usize,
    &'static str,
    &'static str,
);

// Loops and arrays at their limits.
const LOOPS: &[Bomb] = &[
    (
        "@#define A = \"x\"\n@#for i in 1:24\n",
        "@#define A = A + A\n",
        1,
        "@#endfor\n",
        "modpath: 4 Macro kind=TextLimit file=m line=3\n",
    ),
    (
        "@#define A = \"x\"\n@#for i in 1:23\n",
        "@#define A = A + A\n",
        1,
        "@#endfor\n",
        "",
    ),
    (
        "@#for i in 1:1000\n@#for j in 1:1000\n",
        "",
        0,
        "@#endfor\n@#endfor\n",
        "modpath: 4 Macro kind=TurnsLimit file=m line=2\n",
    ),
    (
        "@#for i in 1:999\n@#for j in 1:1000\n",
        "",
        0,
        "@#endfor\n@#endfor\n",
        "",
    ),
    (
        "@#for i in 1:100001\n",
        "",
        0,
        "@#endfor\n",
        "modpath: 4 Macro kind=ArrayLimit file=m line=1\n",
    ),
    (
        "@#define A = []\n@#for i in 1:100\n",
        "@#define A = [A]\n",
        1,
        "@#endfor\n",
        "modpath: 4 Macro kind=ArrayLimit file=m line=3\n",
    ),
    (
        "@#define A = []\n@#for i in 1:99\n",
        "@#define A = [A]\n",
        1,
        "@#endfor\n",
        "",
    ),
    (
        "@#for i in 1:100000\n",
        "x",
        83,
        "\n@#endfor\n",
        "modpath: 4 Macro kind=TextLimit file=m line=2\n",
    ),
];

// Files at their limits: one that is too long, one that holds itself, and groups and brackets that are too deep.
const FILES: &[Bomb] = &[
    (
        "",
        "x",
        8_388_609,
        "",
        "modpath: 4 Macro kind=FileLong file=m line=0\n",
    ),
    (
        "@#include \"m\"\n",
        "\n",
        8_300_000,
        "",
        "modpath: 4 Macro kind=IncludeDeep file=m line=1\n",
    ),
    (
        "",
        "@#if 1\n",
        1_000_000,
        "",
        "modpath: 4 Macro kind=NestDeep file=m line=101\n",
    ),
    (
        "@#define A = ",
        "[",
        8_000_000,
        "",
        "modpath: 4 Macro kind=NestDeep file=m line=1\n",
    ),
];

// Texts and arrays that print as many bytes as may be, and one more: quotes, commas, blanks and brackets count.
const LENGTHS: &[Bomb] = &[
    (
        "@#define A = \"x\"\n@#for i in 1:22\n@#define A = A + A\n@#endfor\n@#define B = \"",
        "x",
        4_194_304,
        "\"\n@#define C = A + B\n",
        "",
    ),
    (
        "@#define A = \"x\"\n@#for i in 1:22\n@#define A = A + A\n@#endfor\n@#define B = \"",
        "x",
        4_194_305,
        "\"\n@#define C = A + B\n",
        "modpath: 4 Macro kind=TextLimit file=m line=6\n",
    ),
    (
        "@#define A = \"x\"\n@#for i in 1:22\n@#define A = A + A\n@#endfor\n@#define B = \"",
        "x",
        4_194_300,
        "\"\n@#define C = [A + B]\n",
        "",
    ),
    (
        "@#define A = \"x\"\n@#for i in 1:22\n@#define A = A + A\n@#endfor\n@#define B = \"",
        "x",
        4_194_301,
        "\"\n@#define C = [A + B]\n",
        "modpath: 4 Macro kind=TextLimit file=m line=6\n",
    ),
    (
        "@#define A = \"x\"\n@#for i in 1:22\n@#define A = A + A\n@#endfor\n@#define B = \"",
        "x",
        4_194_296,
        "\"\n@#define C = [A] + [B]\n",
        "",
    ),
    (
        "@#define A = \"x\"\n@#for i in 1:22\n@#define A = A + A\n@#endfor\n@#define B = \"",
        "x",
        4_194_297,
        "\"\n@#define C = [A] + [B]\n",
        "modpath: 4 Macro kind=TextLimit file=m line=6\n",
    ),
];

// Many long texts in an array: they are counted and measured, and too many elements come before a text that is too long.
const ARRAYS: &[Bomb] = &[
    (
        "@#define A = \"x\"\n@#for i in 1:23\n@#define A = A + A\n@#endfor\n@#define B = [1",
        ", A",
        99_999,
        "]\n",
        "modpath: 4 Macro kind=TextLimit file=m line=5\n",
    ),
    (
        "@#define A = \"x\"\n@#for i in 1:23\n@#define A = A + A\n@#endfor\n@#define B = [1",
        ", A",
        100_000,
        "]\n",
        "modpath: 4 Macro kind=ArrayLimit file=m line=5\n",
    ),
    (
        "@#define A = \"x\"\n@#for i in 1:22\n@#define A = A + A\n@#endfor\n@#define B = [\"\"",
        ", A + A",
        500,
        "]\n",
        "modpath: 4 Macro kind=TextLimit file=m line=5\n",
    ),
];

// Many turns over long arrays, which are shared.
const TURNS: &[Bomb] = &[
    (
        "@#define A = 1:100000\n@#for i in 1:20000\n",
        "@#define B = A[i]\n",
        1,
        "@#endfor\n",
        "",
    ),
    (
        "@#define A = 1:100000\n@#for i in 1:20000\n",
        "@#define B = A\n@#for j in [B]\n@#endfor\n",
        1,
        "@#endfor\n",
        "",
    ),
    (
        "@#define A = []\n@#for i in 1:10000\n",
        "@#define A = A + [i]\n",
        1,
        "@#endfor\n",
        "",
    ),
];

// The run of an empty text, where this is told.
fn told(line: &str) -> Row<'_> {
    Row {
        status: if line.is_empty() { 0 } else { 4 },
        err: line.as_bytes(),
        ..EXPAND
    }
}

fn text_of(alloc: Global, bomb: &Bomb) -> Result<Bytes, NoMemory> {
    let mut text = Bytes::new(alloc);
    text.add(bomb.0.as_bytes())?;
    for _ in 0..bomb.2 {
        text.add(bomb.1.as_bytes())?;
    }
    text.add(bomb.3.as_bytes())?;
    Ok(text)
}

fn is_answered(rt: &impl Abort, alloc: Global, bomb: &Bomb) -> Result<(), NoMemory> {
    let text = text_of(alloc, bomb)?;
    let row = Row {
        text: text.as_slice(),
        ..told(bomb.4)
    };
    answers(rt, alloc, &row)
}

#[test]
fn loops_have_limits(rt: HostRuntime) -> Result<(), Fail> {
    for bomb in LOOPS {
        is_answered(&rt, rt.alloc(), bomb)?;
    }
    Ok(())
}

#[test]
fn files_have_limits(rt: HostRuntime) -> Result<(), Fail> {
    for bomb in FILES {
        is_answered(&rt, rt.alloc(), bomb)?;
    }
    Ok(())
}

#[test]
fn printed_values_have_a_limit(rt: HostRuntime) -> Result<(), Fail> {
    for bomb in LENGTHS {
        is_answered(&rt, rt.alloc(), bomb)?;
    }
    Ok(())
}

#[test]
fn long_texts_in_arrays_are_measured(rt: HostRuntime) -> Result<(), Fail> {
    for bomb in ARRAYS {
        is_answered(&rt, rt.alloc(), bomb)?;
    }
    Ok(())
}

#[test]
fn arrays_are_shared_by_turns(rt: HostRuntime) -> Result<(), Fail> {
    for bomb in TURNS {
        is_answered(&rt, rt.alloc(), bomb)?;
    }
    Ok(())
}
