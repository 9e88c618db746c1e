// A reader and a writer that go on in short steps and fail once, and a sink that stops taking.
use mp_outside::{Put, Sink};
use std::io;
use std::io::{ErrorKind, Read, Write};

// Gives at most `step` bytes a read; the read of number `failing`, from 1, fails.
#[derive(Drop)]
pub struct ShortReader {
    rest: &'static [u8],
    step: usize,
    failing: usize,
    reads: usize,
}

impl ShortReader {
    pub fn new(bytes: &'static [u8], step: usize, failing: usize) -> ShortReader {
        ShortReader {
            rest: bytes,
            step,
            failing,
            reads: 0,
        }
    }
}

impl Read for ShortReader {
    fn read(&mut self, buf: &mut [u8]) -> io::Result<usize> {
        self.reads = self.reads.wrapping_add(1);
        if self.reads == self.failing {
            return Err(io::Error::from(ErrorKind::PermissionDenied));
        }
        let n = self.rest.len().min(buf.len()).min(self.step);
        buf[..n].copy_from_slice(&self.rest[..n]);
        self.rest = &self.rest[n..];
        Ok(n)
    }
}

// Takes at most `step` bytes a write; the write of number `failing`, from 1, fails.
#[derive(Drop)]
pub struct ShortWriter {
    pub taken: Vec<u8>,
    step: usize,
    failing: usize,
    writes: usize,
}

impl ShortWriter {
    pub fn new(taken: Vec<u8>, step: usize, failing: usize) -> ShortWriter {
        ShortWriter {
            taken,
            step,
            failing,
            writes: 0,
        }
    }
}

impl Write for ShortWriter {
    fn write(&mut self, buf: &[u8]) -> io::Result<usize> {
        self.writes = self.writes.wrapping_add(1);
        if self.writes == self.failing {
            return Err(io::Error::from(ErrorKind::StorageFull));
        }
        let n = buf.len().min(self.step);
        self.taken.extend_from_slice(&buf[..n])?;
        Ok(n)
    }

    fn flush(&mut self) -> io::Result<()> {
        Ok(())
    }
}

// Takes one byte of a piece while some are wanted, and then none, which it counts without answering a fault.
#[derive(Drop)]
pub struct StallingSink {
    pub wanted: usize,
    pub faults: u64,
}

impl Sink for StallingSink {
    ghost use Rattle.std.specs.Prelude.{None};

    ghost held = { λ s. record { taken = None; faults = s.faults } };

    fn put(&mut self, bytes: &[u8]) -> Put {
        let n = self.wanted.min(bytes.len()).min(1);
        self.wanted -= n;
        if n == 0 {
            self.faults = self.faults.saturating_add(1);
        }
        Put::Took(n)
    }

    fn faults(&self) -> u64 {
        self.faults
    }
}
