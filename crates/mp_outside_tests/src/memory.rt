// Files and sinks in memory.

use crate::fakes::StallingSink;
use mp_base::{Bytes, NoMemory};
use mp_outside::{Calls, Fetched, Files, Listing, MemFiles, MemSink, Put, Sink};
use std::alloc::Global;
use std::process::Abort;
use std::test::Fail;

// A name, how many bytes may be read, how that ends, and what was read.
const FETCHES: &[(&str, u64, Fetched, &str)] = &[
    ("m", 6, Fetched::Got, "var x;"),
    ("m", 6, Fetched::ReadFault, ""),
    ("m", 5, Fetched::TooLong, ""),
    ("n", 6, Fetched::Absent, ""),
];

// Two files of one name, of which the first is there; the second call fails.
fn files_of(alloc: Global) -> Result<MemFiles, NoMemory> {
    let mut listing = Listing::new(alloc);
    listing.add(b"m", b"var x;")?;
    listing.add(b"m", b"var y;")?;
    let mut failing = Calls::new(alloc);
    failing.add(2)?;
    Ok(MemFiles::new(listing, failing))
}

fn fetches_end(rt: &impl Abort, files: &mut MemFiles, into: &mut Bytes) {
    for &(name, limit, answer, bytes) in FETCHES {
        assert_eq!(rt; files.fetch(name.as_bytes(), limit, into), answer);
        assert_eq!(rt; into.as_slice(), bytes.as_bytes());
    }
    assert_eq!(rt; files.faults(), 1);
}

#[test]
fn listed_calls_fail(rt: HostRuntime) -> Result<(), Fail> {
    let mut files = files_of(rt.alloc())?;
    fetches_end(&rt, &mut files, &mut Bytes::new(rt.alloc()));
    Ok(())
}

#[test]
fn a_sink_takes_what_it_has_room_for(rt: HostRuntime) -> Result<(), Fail> {
    let mut sink = MemSink::with_room(rt.alloc(), 4, Calls::new(rt.alloc()))?;
    assert_eq!(rt; sink.put(b"abc"), Put::Took(3));
    assert!(rt; mp_outside::write_whole(&mut sink, b"de").is_err());
    assert_eq!(rt; sink.taken(), b"abcd".as_slice());
    assert_eq!(rt; sink.faults(), 1);
    Ok(())
}

// How many bytes a sink takes one by one before it takes none, its count of faults, whether all was taken, and the count
// after that: a sink that takes nothing of a piece has failed.
const STALLS: &[(usize, u64, bool, u64)] = &[
    (6, 0, true, 0),
    (5, 0, false, 1),
    (0, 0, false, 1),
    (0, 4, false, 5),
    (0, u64::MAX, false, u64::MAX),
];

#[test]
fn a_sink_that_takes_nothing_has_failed(rt: HostRuntime) {
    for &(wanted, before, whole, after) in STALLS {
        let mut sink = StallingSink {
            wanted,
            faults: before,
        };
        assert_eq!(rt;
            mp_outside::write_whole(&mut sink, b"var x;").is_ok(),
            whole
        );
        assert_eq!(rt; sink.faults, after);
    }
}
