// Readers and writers that fail in mid-stream, and what every system has.

use crate::fakes::{ShortReader, ShortWriter};
use mp_base::Bytes;
use mp_outside::{Fetched, Files, RealFiles, RealSink, Sink};
use std::io::ErrorKind;
use std::process::Abort;
use std::test::Fail;
use std::{fs, io};

// Saved in the folder that the tests run in.
const SAVED: &str = "real_files_test.mod";

// A reader of six bytes: how many it gives a read, the read that fails, and how many may be read; how that ends, what was
// read, and how many faults there were by then. The last but one has its fault at the end of the file.
const READS: &[(usize, usize, u64, Fetched, &str, u64)] = &[
    (9, 0, 6, Fetched::Got, "var x;", 0),
    (1, 0, 6, Fetched::Got, "var x;", 0),
    (4, 0, 5, Fetched::TooLong, "", 0),
    (4, 1, 6, Fetched::ReadFault, "", 1),
    (4, 2, 6, Fetched::ReadFault, "", 2),
    (4, 3, 6, Fetched::ReadFault, "", 3),
    (4, 4, 6, Fetched::Got, "var x;", 3),
];

fn reads_end(rt: &impl Abort, files: &mut RealFiles, into: &mut Bytes) {
    for &(step, failing, limit, answer, bytes, faults) in READS {
        let reader = ShortReader::new(b"var x;", step, failing);
        assert_eq!(rt; files.fetch_opened(Ok(reader), limit, into), answer);
        assert_eq!(rt; into.as_slice(), bytes.as_bytes());
        assert_eq!(rt; files.faults(), faults);
    }
}

#[test]
fn short_reads_are_joined_and_failed_ones_told(rt: HostRuntime) {
    let mut into = Bytes::new(rt.alloc());
    reads_end(&rt, &mut RealFiles::new(rt), &mut into);
}

// Why a file is not opened, how its fetch ends, and how many faults there were by then.
const UNOPENED: &[(ErrorKind, Fetched, u64)] = &[
    (ErrorKind::NotFound, Fetched::Absent, 0),
    (ErrorKind::PermissionDenied, Fetched::ReadFault, 1),
    (ErrorKind::OutOfMemory, Fetched::NoMemory, 1),
    (ErrorKind::NotADirectory, Fetched::ReadFault, 2),
];

fn unopened_end(rt: &impl Abort, files: &mut RealFiles, into: &mut Bytes) {
    for &(kind, answer, faults) in UNOPENED {
        let refused: io::Result<ShortReader> = Err(io::Error::from(kind));
        assert_eq!(rt; files.fetch_opened(refused, 9, into), answer);
        assert_eq!(rt; files.faults(), faults);
    }
}

#[test]
fn what_is_not_found_is_absent(rt: HostRuntime) {
    let mut into = Bytes::new(rt.alloc());
    unopened_end(&rt, &mut RealFiles::new(rt), &mut into);
}

// How many bytes a write takes, the write that fails, whether all was taken, what was, and how many faults there were.
const WRITES: &[(usize, usize, bool, &str, u64)] = &[
    (9, 0, true, "var x;", 0),
    (1, 0, true, "var x;", 0),
    (4, 1, false, "", 1),
    (4, 2, false, "var ", 1),
    (0, 0, false, "", 1),
];

// Whether all was taken by such a writer, and the faults.
fn written(writer: &mut ShortWriter) -> (bool, u64) {
    let mut sink = RealSink::new(writer);
    let written = mp_outside::write_whole(&mut sink, b"var x;");
    (written.is_ok(), sink.faults())
}

#[test]
fn failed_writes_are_told(rt: HostRuntime) {
    for &(step, failing, whole, taken, faults) in WRITES {
        let mut writer = ShortWriter::new(Vec::new(rt.alloc()), step, failing);
        assert_eq!(rt; written(&mut writer), (whole, faults));
        assert_eq!(rt; writer.taken.as_slice(), taken.as_bytes());
    }
}

// A file that the system has or has not, how many bytes may be read, how that ends, what was read, and how many faults
// there were by then.
const FILES: &[(&str, u64, Fetched, &str, u64)] = &[
    (SAVED, 6, Fetched::Got, "var x;", 0),
    (SAVED, 5, Fetched::TooLong, "", 0),
    ("/dev/null", 0, Fetched::Got, "", 0),
    ("/no such file", 9, Fetched::Absent, "", 0),
    ("/", 9, Fetched::ReadFault, "", 1),
];

fn files_end(rt: &impl Abort, files: &mut RealFiles, into: &mut Bytes) {
    for &(name, limit, answer, bytes, faults) in FILES {
        assert_eq!(rt; files.fetch(name.as_bytes(), limit, into), answer);
        assert_eq!(rt; into.as_slice(), bytes.as_bytes());
        assert_eq!(rt; files.faults(), faults);
    }
    // A name that is no text.
    assert_eq!(rt; files.fetch(b"\xff", 9, into), Fetched::ReadFault);
    assert_eq!(rt; into.as_slice(), b"".as_slice());
    assert_eq!(rt; files.faults(), 2);
}

#[test]
fn real_files_are_read(rt: HostRuntime) -> Result<(), Fail> {
    fs::write(&rt, SAVED, "var x;")?;
    let mut into = Bytes::new(rt.alloc());
    files_end(&rt, &mut RealFiles::new(rt), &mut into);
    Ok(())
}
