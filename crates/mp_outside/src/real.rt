// Files and streams of the system: readers and writers of std, and counts of what fails.
ghost use Rattle.std.specs.Prelude.{◌≡◌, ◌↔◌, ◌≤◌, [], None, List, ℕ, MatchResult};
ghost use Rattle.std.specs.IoError.{error_kind};
ghost use Rattle.mp_outside.specs.Outside.{Later, StaysFull, CountsStayFull, FetchSays, FetchCounts, PutSays, PutCounts};
ghost use Rattle.mp_outside.specs.Real.{seen, held_by, writer_of, refusal, TakesNothing, Reads, PutTakes};

use crate::{Fetched, Files, Put, Sink};
use mp_base::Bytes;
use std::fs::File;
use std::io;
use std::io::{ErrorKind, Read, Write};

const PIECE: usize = 8_192;

/// The answer where a file cannot be opened: Absent exactly where it was not found.
pub fn refused(kind: ErrorKind) -> Fetched
    ensures answer { result ≡ refusal kind }
    ensures nothing { TakesNothing result }
    ensures absent { (result ≡ Fetched.Absent) ↔ (kind ≡ ErrorKind.NotFound) }
{
    match kind {
        ErrorKind::NotFound => Fetched::Absent,
        ErrorKind::OutOfMemory => Fetched::NoMemory,
        _ => Fetched::ReadFault,
    }
}

/// The files of the system, read in pieces. A name that is not UTF-8 is a fault of the call.
#[derive(Drop)]
pub struct RealFiles {
    rt: HostRuntime,
    faults: u64,
    absents: u64,
    took: u64,
}

impl RealFiles {
    /// The files of this runtime. No call was made yet.
    pub fn new(rt: HostRuntime) -> RealFiles
        ensures { seen result ≡ record { listing = None; faults = 0; absents = 0; took = 0 } }
    {
        RealFiles {
            rt,
            faults: 0,
            absents: 0,
            took: 0,
        }
    }

    /// Puts what a reader has left into `into`, as `fetch` does, or answers why it was not opened.
    pub fn fetch_opened<R: Read + Drop>(
        &mut self,
        opened: io::Result<R>,
        limit: u64,
        into: &mut Bytes,
    ) -> Fetched
        ensures later { Later (seen self.old) (seen self.new) }
        ensures stays { CountsStayFull (seen self.old) (seen self.new) }
        ensures says { (name : List ℕ) → FetchSays (seen self.old) (seen self.new) name limit into.new result }
        ensures counts { FetchCounts (seen self.old) (seen self.new) into.new result }
        ensures reads { MatchResult opened (λ r. Reads (R.remaining r) limit into.new result) (λ e. result ≡ refusal (error_kind e)) }
    {
        into.clear();
        self.took = 0;
        match opened {
            Ok(mut reader) => self.read_whole(&mut reader, limit, into),
            Err(error) => self.count(refused(error.kind())),
        }
    }

    // Counts the answer where nothing was taken.
    fn count(&mut self, answer: Fetched) -> Fetched
        requires none { self.old.took ≡ 0 }
        ensures answer { result ≡ answer }
        ensures later { Later (seen self.old) (seen self.new) }
        ensures stays { CountsStayFull (seen self.old) (seen self.new) }
        ensures counts { FetchCounts (seen self.old) (seen self.new) [] result }
    {
        match answer {
            Fetched::Absent => self.absents = self.absents.saturating_add(1),
            Fetched::ReadFault => self.faults = self.faults.saturating_add(1),
            _ => {}
        }
        answer
    }

    // Reads to the end, or past the limit.
    fn read_whole<R: Read>(&mut self, reader: &mut R, limit: u64, into: &mut Bytes) -> Fetched
        requires empty { into.old ≡ [] }
        requires begun { self.old.took ≡ 0 }
        ensures later { Later (seen self.old) (seen self.new) }
        ensures stays { CountsStayFull (seen self.old) (seen self.new) }
        ensures says { (name : List ℕ) → FetchSays (seen self.old) (seen self.new) name limit into.new result }
        ensures counts { FetchCounts (seen self.old) (seen self.new) into.new result }
        ensures reads { Reads (R.remaining reader.old) limit into.new result }
    {
        let mut piece = [0u8; PIECE];
        'pieces: loop {
            let Ok(n) = reader.read(&mut piece) else {
                into.clear();
                return self.count(Fetched::ReadFault);
            };
            let took = into.as_slice().len() as u64 + n as u64;
            if n == 0 {
                self.took = took;
                return Fetched::Got;
            }
            if took > limit {
                into.clear();
                self.took = took;
                return Fetched::TooLong;
            }
            if into.add(&piece[..n]).is_err() {
                into.clear();
                return Fetched::NoMemory;
            }
        }
    }
}

impl Files for RealFiles {
    ghost outside = { seen };

    fn fetch(&mut self, name: &[u8], limit: u64, into: &mut Bytes) -> Fetched
        ensures later { Later (seen self.old) (seen self.new) }
        ensures stays { CountsStayFull (seen self.old) (seen self.new) }
        ensures says { FetchSays (seen self.old) (seen self.new) name.now limit into.new result }
        ensures counts { FetchCounts (seen self.old) (seen self.new) into.new result }
    {
        let Ok(name) = std::str::from_utf8(name) else {
            into.clear();
            self.took = 0;
            return self.count(Fetched::ReadFault);
        };
        let opened = File::open(&self.rt, name);
        self.fetch_opened(opened, limit, into)
    }

    fn faults(&self) -> u64 {
        self.faults
    }
}

/// A writer, as a stream of the system. A write that takes nothing of a piece is a fault.
#[derive(Drop)]
pub struct RealSink<W> {
    writer: W,
    faults: u64,
}

impl<W: Write> RealSink<W> {
    /// A sink over this writer. No call was made yet.
    pub fn new(writer: W) -> RealSink<W>
        ensures held { held_by result ≡ record { taken = None; faults = 0 } }
        ensures writer { writer_of result ≡ writer }
    {
        RealSink { writer, faults: 0 }
    }
}

impl<W: Write> Sink for RealSink<W> {
    ghost held = { held_by };

    fn put(&mut self, bytes: &[u8]) -> Put
        ensures later { (held_by self.old).faults ≤ (held_by self.new).faults }
        ensures stays { StaysFull (held_by self.old).faults (held_by self.new).faults }
        ensures says { PutSays (held_by self.old) (held_by self.new) bytes.now result }
        ensures counts { PutCounts (held_by self.old) (held_by self.new) bytes.now result }
        ensures takes { PutTakes (W.contents (writer_of self.old)) (W.contents (writer_of self.new)) bytes.now result }
    {
        match self.writer.write(bytes) {
            Ok(n) if n > 0 || bytes.is_empty() => Put::Took(n),
            _ => {
                self.faults = self.faults.saturating_add(1);
                Put::WriteFault
            }
        }
    }

    fn faults(&self) -> u64 {
        self.faults
    }
}
