// What no clause says: that with memory at hand each file expands to what a reader of docs/MACROS.md expects.

use mp_base::{Bytes, MacroKind, NoMemory};
use mp_macro::{ExpandFault, expand};
use mp_mvalue::{Define, Defines, Value};
use mp_outside::{Calls, Listing, MemFiles};
use std::alloc::Global;
use std::process::Abort;
use std::test::Fail;

// A file m, and its text where there is beside it a file a with this text.
const TEXTS: &[(&str, &str, &str)] = &[
    ("", "", ""),
    ("x", "", "x\n"),
    ("x\n\ny\n", "", "x\n\ny\n"),
    ("x\r\ny", "", "x\r\ny\n"),
    ("v@{1+1};", "", "v2;\n"),
    ("@{N}@{\"a}b\"}", "", "5a}b\n"),
    ("x@{N+1} // @{N}", "", "x6 // @{N}\n"),
    ("x % @{zz", "", "x % @{zz\n"),
    ("a/b@{N}/c", "", "a/b5/c\n"),
    ("@ {N} @{[1, \"a\"]}", "", "@ {N} [1, \"a\"]\n"),
    ("@#define x = 3\n@{x}", "", "3\n"),
    (" \t@# define x // one\n@{x}", "", "1\n"),
    ("@#define x = \"a//b\" // c\n@{x}", "", "a//b\n"),
    ("@#define if=1\n@{if}", "", "1\n"),
    ("a @#define x", "", "a @#define x\n"),
    ("@#if 0\na\n@#elseif N\nb\n@#else\nc\n@#endif", "", "b\n"),
    ("@#if 1\na\n@#elseif zz\nb\n@#endif\nc", "", "a\nc\n"),
    (
        "@#if false\n@#if zz\n@#endif\n@{zz}\n@#else\nc\n@#endif",
        "",
        "c\n",
    ),
    ("@#if(N==5)\na\n@#endif", "", "a\n"),
    (
        "@#ifdef N\na\n@#endif\n@#ifndef N\nb\n@#else\nc\n@#endif",
        "",
        "a\nc\n",
    ),
    (
        "@#define A = [\"x\", \"y\"]\n@#for i in A\n@#for j in []\nnever\n@#endfor\nvar @{i}@{1+1};\n@#endfor",
        "",
        "var x2;\nvar y2;\n",
    ),
    (
        "@#define i = 7\n@#for i in 1:2\nv@{i}\n@#endfor\nw@{i}",
        "",
        "v1\nv2\nw7\n",
    ),
    (
        "@#for i in[N]\n@#define i = 8\n@{i}\n@#endfor\n@#ifndef i\nnone\n@#endif",
        "",
        "8\nnone\n",
    ),
    (
        "@#for i in 1:2\n@#define last = i\n@#endfor\n@{last}",
        "",
        "2\n",
    ),
    (
        "@#for i in 1:2\n@#for i in 3:4\n@{i}\n@#endfor\n@{i}\n@#endfor",
        "",
        "3\n4\n1\n3\n4\n2\n",
    ),
    ("x\n@#include \"a\"\ny", "in a", "x\nin a\ny\n"),
    ("@#include \"a\"\n@{z}", "@#define z = N", "5\n"),
    (
        "@#for i in 1:2\n@#include \"a\"\n@#endfor",
        "a@{i}",
        "a1\na2\n",
    ),
    (
        "@#define f = \"a\"\n@#include f // which",
        "/* @{N} */",
        "/* 5 */\n",
    ),
    (
        "@#if 0\n@#include \"b\"\n@#error \"no\"\n@#endif\nx",
        "",
        "x\n",
    ),
    ("@#echo \"seen\"\nx", "", "x\n"),
    ("/*\n@#define z = 2\n*/ @{z}", "", "/*\n*/ 2\n"),
    ("@#if 1\r\na\r\n@#endif\r\n", "", "a\r\n"),
    (
        "@#for i in 1:3\n@#if i == 2\n@#else\n@{i}\n@#endif\n@#endfor",
        "",
        "1\n3\n",
    ),
];

// A file m, a file a beside it, and how m is refused: the kind, the file and the line.
const REFUSALS: &[(&str, &str, MacroKind, &str, u32)] = &[
    ("@#foo", "", MacroKind::BadDirective, "m", 1),
    ("@#", "", MacroKind::BadDirective, "m", 1),
    ("x\n@#define 1x = 2", "", MacroKind::BadDirective, "m", 2),
    ("@#define true", "", MacroKind::BadDirective, "m", 1),
    ("@#define N 3", "", MacroKind::BadDirective, "m", 1),
    ("@#if1", "", MacroKind::BadDirective, "m", 1),
    ("@#if 1\n@#endif x", "", MacroKind::BadDirective, "m", 2),
    (
        "@#for i of 1:2\n@#endfor",
        "",
        MacroKind::BadDirective,
        "m",
        1,
    ),
    ("@#for i inn\n@#endfor", "", MacroKind::BadDirective, "m", 1),
    (
        "@#ifdef N + 1\n@#endif",
        "",
        MacroKind::BadDirective,
        "m",
        1,
    ),
    (
        "@#define N // = 3\n@#endif",
        "",
        MacroKind::Unbalanced,
        "m",
        2,
    ),
    ("@#if 1\nx", "", MacroKind::Unbalanced, "m", 1),
    (
        "\n@#for i in 1:2\n@#if 1\n@#endif\n@#if 2",
        "",
        MacroKind::Unbalanced,
        "m",
        2,
    ),
    ("@#if 1\n@#foo", "", MacroKind::BadDirective, "m", 2),
    ("@#if 1\n@#endfor", "", MacroKind::Unbalanced, "m", 2),
    ("@#else", "", MacroKind::Unbalanced, "m", 1),
    (
        "@#if 1\n@#else\n@#elseif 1\n@#endif",
        "",
        MacroKind::Unbalanced,
        "m",
        3,
    ),
    (
        "@#if 1\n@#else\n@#else\n@#endif",
        "",
        MacroKind::Unbalanced,
        "m",
        3,
    ),
    (
        "@#for i in []\n@#else\n@#endfor",
        "",
        MacroKind::Unbalanced,
        "m",
        2,
    ),
    ("@{zz}\n@#endif", "", MacroKind::Unbalanced, "m", 2),
    ("x\n@{zz}", "", MacroKind::Unknown, "m", 2),
    ("@{1", "", MacroKind::BadExpression, "m", 1),
    ("@{\"}", "", MacroKind::BadExpression, "m", 1),
    ("@{}", "", MacroKind::BadExpression, "m", 1),
    ("@{1 // }", "", MacroKind::BadExpression, "m", 1),
    ("@#define x == 3", "", MacroKind::BadExpression, "m", 1),
    ("@#define x =", "", MacroKind::BadExpression, "m", 1),
    ("@#if \"a\"\n@#endif", "", MacroKind::WrongKind, "m", 1),
    (
        "@#if 0\n@#elseif []\n@#endif",
        "",
        MacroKind::WrongKind,
        "m",
        2,
    ),
    ("@#for i in 3\n@#endfor", "", MacroKind::WrongKind, "m", 1),
    ("@#echo 3", "", MacroKind::WrongKind, "m", 1),
    ("@#error 3", "", MacroKind::WrongKind, "m", 1),
    ("@#error \"no\"", "", MacroKind::UserError, "m", 1),
    ("@#include 3", "", MacroKind::WrongKind, "m", 1),
    ("@#include \"\"", "", MacroKind::FileName, "m", 1),
    (
        "x\n@#include \"a\"",
        "@#if 1",
        MacroKind::Unbalanced,
        "a",
        1,
    ),
    ("x\n@#include \"a\"", "\n@{zz}", MacroKind::Unknown, "a", 2),
    ("@#include \"m\"", "", MacroKind::IncludeDeep, "m", 1),
    (
        "@#include \"a\"",
        "x\n@#include \"m\"",
        MacroKind::IncludeDeep,
        "a",
        2,
    ),
    (
        "@#for i in 1:1000\n@#for j in 1:1000\n@#endfor\n@#endfor",
        "",
        MacroKind::TurnsLimit,
        "m",
        2,
    ),
    (
        "@#define n = 9223372036854775807\n@{n + 1}",
        "",
        MacroKind::Overflow,
        "m",
        2,
    ),
];

// The answer for a file m, beside a file a, where N is 5.
pub(crate) fn answer(alloc: Global, main: &[u8], beside: &[u8]) -> Result<Bytes, ExpandFault> {
    let mut listing = Listing::new(alloc);
    listing.add(b"m", main)?;
    listing.add(b"a", beside)?;
    let mut files = MemFiles::new(listing, Calls::new(alloc));
    expand(alloc, &mut files, b"m", &defines(alloc)?)
}

fn defines(alloc: Global) -> Result<Defines, NoMemory> {
    let mut defines = Defines::new(alloc);
    for n in [4, 5] {
        let mut name = Bytes::new(alloc);
        name.add(b"N")?;
        defines.push(Define {
            name,
            value: Value::Whole(n),
        })?;
    }
    Ok(defines)
}

#[test]
fn files_expand(rt: HostRuntime) -> Result<(), Fail> {
    for &(main, beside, text) in TEXTS {
        let bytes = answer(rt.alloc(), main.as_bytes(), beside.as_bytes())?;
        assert_eq!(rt; bytes.as_slice(), text.as_bytes());
    }
    Ok(())
}

pub(crate) fn is_refused(
    rt: &impl Abort,
    answer: &Result<Bytes, ExpandFault>,
    kind: MacroKind,
    file: &[u8],
    line: u32,
) {
    match answer {
        Err(
            ExpandFault::Macro {
                kind: k,
                file: f,
                line: l,
            },
        ) => {
            assert_eq!(rt; *k, kind);
            assert_eq!(rt; f.bytes(), file);
            assert_eq!(rt; *l, line);
        }
        _ => assert!(rt; false),
    }
}

#[test]
fn files_are_refused(rt: HostRuntime) -> Result<(), Fail> {
    for &(main, beside, kind, file, line) in REFUSALS {
        let answer = answer(rt.alloc(), main.as_bytes(), beside.as_bytes());
        is_refused(&rt, &answer, kind, file.as_bytes(), line);
    }
    Ok(())
}

// Files in each other with as many groups as may be open: the stack holds them.
#[test]
fn the_deepest_files_fit_the_stack(rt: HostRuntime) -> Result<(), Fail> {
    let mut text = Bytes::new(rt.alloc());
    for _ in 0..50 {
        text.add(b"@#if 1\n@#for i in [1]\n")?;
    }
    text.add(b"@#include \"m\"\n")?;
    for _ in 0..50 {
        text.add(b"@#endfor\n@#endif\n")?;
    }
    let answer = answer(rt.alloc(), text.as_slice(), b"");
    is_refused(&rt, &answer, MacroKind::IncludeDeep, b"m", 101);
    Ok(())
}

fn is_absent(rt: &impl Abort, answer: &Result<Bytes, ExpandFault>, name: &[u8]) {
    match answer {
        Err(ExpandFault::Absent { name: told }) => assert_eq!(rt; told.bytes(), name),
        _ => assert!(rt; false),
    }
}

// The answer for a file of this name, where that one is there.
fn answer_of(alloc: Global, name: &[u8], there: &[u8]) -> Result<Bytes, ExpandFault> {
    let mut listing = Listing::new(alloc);
    listing.add(there, b"@#endif")?;
    let mut files = MemFiles::new(listing, Calls::new(alloc));
    expand(alloc, &mut files, name, &Defines::new(alloc))
}

const LONG: [u8; 129] = [b'n'; 129];

// A longer name is cut in what is told.
#[test]
fn a_long_name_is_cut(rt: HostRuntime) {
    let there = answer_of(rt.alloc(), &LONG, &LONG);
    is_refused(&rt, &there, MacroKind::Unbalanced, &LONG[..128], 1);
    let absent = answer_of(rt.alloc(), &LONG, b"m");
    is_absent(&rt, &absent, &LONG[..128]);
}
