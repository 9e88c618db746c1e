// Whole runs over files and sinks in memory: what each writes and tells was worked out by hand from the formats.

use crate::running::{DERIVE, EXPAND, Row, TRANSFORM, answers};
use mp_base::NoMemory;
use mp_vectors::{DERIVED, EXPANDED, NESTED, REFUSED, TRANSFORMED};
use std::alloc::Global;
use std::process::Abort;
use std::test::Fail;

// The program is shown these words, and refuses them so.
const WORDS: &[(&[&str], u8, &str)] = &[
    (&[], 2, "modpath: 2 Words word=1\n"),
    (&["m", "m"], 2, "modpath: 2 Words word=1\n"),
    (&["transform"], 2, "modpath: 2 Words word=2\n"),
    (&["transform", "m", "m"], 2, "modpath: 2 Words word=3\n"),
    (&[""], 2, "modpath: 2 Words word=1\n"),
    (&["expand", "m", "N"], 2, "modpath: 2 Words word=3\n"),
    (
        &["expand", "m", "N=1", "var=1"],
        2,
        "modpath: 2 Words word=4\n",
    ),
    (&["expand", "m", "true=1"], 2, "modpath: 2 Words word=3\n"),
    (&["expand", "m", "N=\""], 2, "modpath: 2 Words word=3\n"),
    (&["transform", "m", "1=2"], 2, "modpath: 2 Words word=3\n"),
    (&["expand", "m", "var=1"], 2, "modpath: 2 Words word=3\n"),
    (&["solve", "m"], 2, "modpath: 2 Words word=1\n"),
    (&["derive"], 2, "modpath: 2 Words word=2\n"),
    (&["derive", "m", "--help"], 2, "modpath: 2 Words word=3\n"),
    (&["transform", "-m"], 2, "modpath: 2 Words word=2\n"),
    (
        &["transform", "nofile"],
        3,
        "modpath: 3 Absent name=nofile\n",
    ),
    (&["expand", "nofile"], 3, "modpath: 3 Absent name=nofile\n"),
];

const DOUBLED: &[u8] = b"var x; model; x = 2*x(-1); end;";

const BOTH: &[u8] = b"@#include \"a\"\n@#include \"b\"";

// Definitions in the words, files that are included, a text that is transformed once it is expanded, and faults of the
// outside.
const ROWS: &[Row<'static>] = &[
    Row {
        words: &["expand", "m", "N=2"],
        text: b"x@{N+1} // @{N}",
        out: b"x3 // @{N}\n",
        ..EXPAND
    },
    Row {
        text: BOTH,
        part: b"p",
        out: b"p\np\n",
        ..EXPAND
    },
    Row {
        text: BOTH,
        part: b"p",
        failing_fetch: 3,
        status: 11,
        err: b"modpath: 11 ReadFault count=1\n",
        ..EXPAND
    },
    Row {
        words: &["transform", "m"],
        text: b"@#define N = 2\nvar x; model; x = @{N}*x(-1); end;",
        out: b"var x;\nmodel;\nx = 2*x(-1);\nend;\n",
        ..EXPAND
    },
    Row {
        words: &["transform", "m"],
        text: DOUBLED,
        out_room: 10,
        status: 12,
        out: b"var x;\nmod",
        err: b"modpath: 12 WriteFault count=1\n",
        ..EXPAND
    },
    Row {
        words: &["transform", "m"],
        text: DOUBLED,
        failing_fetch: 1,
        status: 11,
        err: b"modpath: 11 ReadFault count=1\n",
        ..EXPAND
    },
    Row {
        words: &["transform", "m"],
        text: b"var @",
        err_room: 7,
        status: 5,
        err: b"modpath",
        ..EXPAND
    },
];

// The worked runs of a job on the file m.
fn worked(
    rt: &impl Abort,
    alloc: Global,
    job: Row<'static>,
    rows: &'static [mp_vectors::Row],
) -> Result<(), NoMemory> {
    for row in rows {
        let row = Row {
            text: row.text.as_bytes(),
            status: row.status,
            out: row.out.as_bytes(),
            err: row.err.as_bytes(),
            ..job
        };
        answers(rt, alloc, &row)?;
    }
    Ok(())
}

#[test]
fn texts_are_transformed(rt: HostRuntime) -> Result<(), Fail> {
    Ok(worked(&rt, rt.alloc(), TRANSFORM, TRANSFORMED)?)
}

#[test]
fn texts_are_refused(rt: HostRuntime) -> Result<(), Fail> {
    Ok(worked(&rt, rt.alloc(), TRANSFORM, REFUSED)?)
}

#[test]
fn open_parentheses_have_a_limit(rt: HostRuntime) -> Result<(), Fail> {
    Ok(worked(&rt, rt.alloc(), TRANSFORM, NESTED)?)
}

#[test]
fn texts_are_expanded(rt: HostRuntime) -> Result<(), Fail> {
    Ok(worked(&rt, rt.alloc(), EXPAND, EXPANDED)?)
}

#[test]
fn derivatives_are_written_or_refused(rt: HostRuntime) -> Result<(), Fail> {
    Ok(worked(&rt, rt.alloc(), DERIVE, DERIVED)?)
}

#[test]
fn words_have_their_answers(rt: HostRuntime) -> Result<(), Fail> {
    for &(words, status, err) in WORDS {
        let row = Row {
            words,
            status,
            err: err.as_bytes(),
            ..EXPAND
        };
        answers(&rt, rt.alloc(), &row)?;
    }
    Ok(())
}

#[test]
fn files_and_faults_have_their_answers(rt: HostRuntime) -> Result<(), Fail> {
    for row in ROWS {
        answers(&rt, rt.alloc(), row)?;
    }
    Ok(())
}

// A sum of this many terms between these bytes.
fn sum_of(alloc: Global, front: &[u8], terms: u32, back: &[u8]) -> Result<Vec<u8>, NoMemory> {
    let mut text = Vec::new(alloc);
    text.extend_from_slice(front)?;
    for _ in 1..terms {
        text.extend_from_slice(b"+x")?;
    }
    text.extend_from_slice(back)?;
    Ok(text)
}

// A side that is a sum of 500 terms is printed, and one of 501 is refused.
#[test]
fn a_side_is_500_nodes_high_at_most(rt: HostRuntime) -> Result<(), Fail> {
    let alloc = rt.alloc();
    let low = sum_of(alloc, b"var x; model; x = x", 500, b"; end;")?;
    let printed = sum_of(alloc, b"var x;\nmodel;\nx = x", 500, b";\nend;\n")?;
    let row = Row {
        words: &["transform", "m"],
        text: low.as_slice(),
        out: printed.as_slice(),
        out_room: 2048,
        ..EXPAND
    };
    answers(&rt, alloc, &row)?;
    let high = sum_of(alloc, b"var x; model; x = x", 501, b"; end;")?;
    let row = Row {
        text: high.as_slice(),
        status: 7,
        out: b"",
        err: b"modpath: 7 Data kind=TooDeep at=0 first=501 second=500\n",
        ..row
    };
    answers(&rt, alloc, &row)?;
    Ok(())
}

// Files of so many blanks on one line: the line's newline is a byte of the expanded text.
const BLANKS: &[(usize, u8, &str)] = &[
    (
        8_388_607,
        6,
        "modpath: 6 Declared kind=NoModel name= at=8388608\n",
    ),
    (
        8_388_608,
        4,
        "modpath: 4 Macro kind=TextLimit file=m line=1\n",
    ),
    (
        8_388_609,
        4,
        "modpath: 4 Macro kind=FileLong file=m line=0\n",
    ),
];

#[test]
fn a_file_and_its_text_may_have_8388608_bytes(rt: HostRuntime) -> Result<(), Fail> {
    for &(size, status, err) in BLANKS {
        let text = vec![in rt.alloc(); b' '; size]?;
        let row = Row {
            words: &["transform", "m"],
            text: text.as_slice(),
            status,
            err: err.as_bytes(),
            ..EXPAND
        };
        answers(&rt, rt.alloc(), &row)?;
    }
    Ok(())
}
