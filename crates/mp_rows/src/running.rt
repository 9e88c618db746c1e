// Whole runs over files and sinks in memory.
ghost use Rattle.std.specs.Prelude.{◌≡◌, ◌<◌};

use mp_base::{NoMemory, Outcome, WordList};
use mp_outside::{Calls, Listing, MemFiles, MemSink};
use mp_run::run;
use std::alloc::Global;
use std::marker::Brand;
use std::process::Abort;
use std::sync::ledger::{Blank, Ledger};

// What a run is tried on, and the status, the output and the fault line that it gives. The file is named m, and both a
// and b hold the part; call number 0 never comes.
#[derive(Clone, Copy)]
pub(crate) struct Row<'a> {
    pub(crate) words: &'a [&'a str],
    pub(crate) text: &'a [u8],
    pub(crate) part: &'a [u8],
    pub(crate) failing_fetch: u64,
    pub(crate) out_room: usize,
    pub(crate) err_room: usize,
    pub(crate) failing_err: u64,
    pub(crate) status: u8,
    pub(crate) out: &'a [u8],
    pub(crate) err: &'a [u8],
}

// An empty text is expanded, with ample room.
pub(crate) const EXPAND: Row<'static> = Row {
    words: &["expand", "m"],
    text: b"",
    part: b"",
    failing_fetch: 0,
    out_room: 4096,
    err_room: 512,
    failing_err: 0,
    status: 0,
    out: b"",
    err: b"",
};

// An empty text is transformed, with ample room.
pub(crate) const TRANSFORM: Row<'static> = Row {
    words: &["transform", "m"],
    ..EXPAND
};

// The derivatives of an empty text are written, with ample room.
pub(crate) const DERIVE: Row<'static> = Row {
    words: &["derive", "m"],
    ..EXPAND
};

pub(crate) fn words_of(alloc: Global, given: &[&str]) -> Result<WordList, NoMemory> {
    let mut words = WordList::new(alloc);
    for word in given {
        if words.count() < 9 {
            words.add(*word)?;
        }
    }
    Ok(words)
}

fn listing_of(alloc: Global, row: &Row) -> Result<Listing, NoMemory> {
    let mut listing = Listing::new(alloc);
    listing.add(b"m", row.text)?;
    listing.add(b"a", row.part)?;
    listing.add(b"b", row.part)?;
    Ok(listing)
}

// The call of this number alone.
fn call_of(alloc: Global, number: u64) -> Result<Calls, NoMemory> {
    let mut calls = Calls::new(alloc);
    calls.add(number)?;
    Ok(calls)
}

fn files_of(alloc: Global, row: &Row) -> Result<MemFiles, NoMemory> {
    let failing = call_of(alloc, row.failing_fetch)?;
    Ok(MemFiles::new(listing_of(alloc, row)?, failing))
}

// What a run writes and tells.
#[derive(Drop)]
struct Sinks {
    out: MemSink,
    err: MemSink,
}

fn sinks_of(alloc: Global, row: &Row) -> Result<Sinks, NoMemory> {
    let out = MemSink::with_room(alloc, row.out_room, Calls::new(alloc))?;
    let err = MemSink::with_room(alloc, row.err_room, call_of(alloc, row.failing_err)?)?;
    Ok(Sinks { out, err })
}

// The run of the row into these sinks, over a ledger for the count of steps.
fn ran<L: Ledger>(
    alloc: Global,
    row: &Row,
    sinks: &mut Sinks,
    blank: Blank,
) -> Result<Outcome, NoMemory>
    requires name { blank.name ≡ L.name }
    requires parts { blank.parts ≡ L.parts }
    requires some { 0 < blank.parts }
{
    let words = words_of(alloc, row.words)?;
    let mut files = files_of(alloc, row)?;
    let mut steps = mp_steps::start::<L>(blank);
    Ok(run(
        alloc,
        &words,
        &mut files,
        &mut sinks.out,
        &mut sinks.err,
        &mut steps,
    ))
}

// The outcome and what came into the sinks are what the row wants.
fn agrees(rt: &impl Abort, row: &Row, outcome: &Outcome, sinks: &Sinks) {
    assert_eq!(rt; outcome.code(), row.status);
    assert_eq!(rt; sinks.out.taken(), row.out);
    assert_eq!(rt; sinks.err.taken(), row.err);
}

// The run of the row answers, writes and tells what it wants.
pub(crate) fn answers(rt: &impl Abort, alloc: Global, row: &Row) -> Result<(), NoMemory> {
    let mut sinks = sinks_of(alloc, row)?;
    let outcome = ran::<Brand>(alloc, row, &mut sinks, Blank::new(1))?;
    agrees(rt, row, &outcome, &sinks);
    Ok(())
}
