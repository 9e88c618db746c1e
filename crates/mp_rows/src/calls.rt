// Whole runs whose calls fail, and whose text is cut.
ghost use Rattle.std.specs.Prelude.{◌<◌};

use crate::running::{Row, TRANSFORM, answers};
use mp_base::{Bytes, NoMemory};
use std::alloc::Global;
use std::process::Abort;
use std::test::Fail;

const TEXT: &[u8] = b"var x; model; x = 2*x(-1); end;";

const PRINTED: &[u8] = b"var x;\nmodel;\nx = 2*x(-1);\nend;\n";

#[test]
fn a_sink_of_any_room_is_told(rt: HostRuntime) -> Result<(), Fail> {
    for room in 0..32 {
        let row = Row {
            text: TEXT,
            out_room: room,
            status: 12,
            out: &PRINTED[..room],
            err: b"modpath: 12 WriteFault count=1\n",
            ..TRANSFORM
        };
        answers(&rt, rt.alloc(), &row)?;
    }
    let row = Row {
        text: TEXT,
        out_room: 32,
        out: PRINTED,
        ..TRANSFORM
    };
    Ok(answers(&rt, rt.alloc(), &row)?)
}

#[test]
fn each_fetch_may_fail(rt: HostRuntime) -> Result<(), Fail> {
    for call in 1..4 {
        let row = Row {
            text: b"@#include \"a\"\n@#include \"b\"\n",
            failing_fetch: call,
            status: 11,
            err: b"modpath: 11 ReadFault count=1\n",
            ..TRANSFORM
        };
        answers(&rt, rt.alloc(), &row)?;
    }
    Ok(())
}

#[test]
fn a_fault_that_cannot_be_told_keeps_its_status(rt: HostRuntime) -> Result<(), Fail> {
    let row = Row {
        text: b"var x; model; end;",
        failing_err: 1,
        status: 6,
        ..TRANSFORM
    };
    Ok(answers(&rt, rt.alloc(), &row)?)
}

// What is told of the text cut after so many bytes.
fn cut_line(alloc: Global, cut: usize) -> Result<Bytes, NoMemory> {
    let mut line = Bytes::new(alloc);
    match cut {
        0 => line.add(b"modpath: 6 Declared kind=NoModel name= at=0\n")?,
        6 => line.add(b"modpath: 6 Declared kind=NoModel name= at=7\n")?,
        7 => line.add(b"modpath: 6 Declared kind=NoModel name= at=8\n")?,
        31 => {}
        _ => {
            let told = format!(in alloc;
                "modpath: 5 Text kind=Token at={} token=\n",
                cut.saturating_add(1)
            )?;
            line.add(told.as_bytes())?;
        }
    }
    Ok(line)
}

// The text cut after so many bytes has its answer.
fn is_told(rt: &impl Abort, alloc: Global, cut: usize) -> Result<(), NoMemory>
    requires { cut < 32 }
{
    let line = cut_line(alloc, cut)?;
    let row = Row {
        text: &TEXT[..cut],
        status: match cut {
            0 | 6 | 7 => 6,
            31 => 0,
            _ => 5,
        },
        out: if cut == 31 { PRINTED } else { b"".as_slice() },
        err: line.as_slice(),
        ..TRANSFORM
    };
    answers(rt, alloc, &row)
}

#[test]
fn a_cut_text_is_told(rt: HostRuntime) -> Result<(), Fail> {
    for cut in 0..32 {
        is_told(&rt, rt.alloc(), cut)?;
    }
    Ok(())
}
