//! What a run reads and writes: files and sinks, in memory and of the system (modpath's own).
#![tactic(auto)]

ghost use Rattle.std.specs.Prelude.{◌≡◌, ◌≤◌, ◌<◌};
ghost use Rattle.mp_outside.specs.Outside.{Outside, Held, Later, StaysFull, CountsStayFull, FetchSays, PutSays, Written};

use mp_base::Bytes;

pub mod fetched;
pub mod memory;
pub mod real;

pub use fetched::{Fetched, Put, WriteFault};
pub use memory::{Calls, Listing, MemFiles, MemSink};
pub use real::{RealFiles, RealSink, refused};

/// Files by name. What a run knows of them is an `Outside`: their listing where it is told, and counts that never fall.
pub trait Files {
    /// The listing, the counts and what the last fetch took.
    ghost outside: { Self → Outside };

    /// Puts the bytes under this name into `into`, at most `limit` of them; after another answer than `Got` it is empty.
    fn fetch(&mut self, name: &[u8], limit: u64, into: &mut Bytes) -> Fetched
        ensures later { Later (outside self.old) (outside self.new) }
        ensures stays { CountsStayFull (outside self.old) (outside self.new) }
        ensures says { FetchSays (outside self.old) (outside self.new) name.now limit into.new result };

    /// How many calls have failed. The count stays at its greatest value.
    fn faults(&self) -> u64
        ensures { result ≡ (outside self.now).faults };
}

/// Takes bytes. What a run knows of it is a `Held`: the bytes taken where it tells them, and a count that never falls.
pub trait Sink {
    /// The bytes taken, where it tells them, and the count of faults.
    ghost held: { Self → Held };

    /// Takes the first bytes of the piece. To take none of some is a fault, also where the answer is `Took`.
    fn put(&mut self, bytes: &[u8]) -> Put
        ensures later { (held self.old).faults ≤ (held self.new).faults }
        ensures stays { StaysFull (held self.old).faults (held self.new).faults }
        ensures says { PutSays (held self.old) (held self.new) bytes.now result };

    /// How many calls have failed. The count stays at its greatest value.
    fn faults(&self) -> u64
        ensures { result ≡ (held self.now).faults };
}

/// Writes all the bytes, or a proper prefix where the sink's count of faults rose. It takes no memory.
pub fn write_whole<S: Sink>(sink: &mut S, bytes: &[u8]) -> Result<(), WriteFault>
    ensures written { Written (S.held sink.old) (S.held sink.new) bytes.now result }
    ensures later { (S.held sink.old).faults ≤ (S.held sink.new).faults }
{
    let mut at: usize = 0;
    'pieces: while at < bytes.len() {
        match sink.put(&bytes[at..]) {
            Put::Took(0) | Put::WriteFault => return Err(WriteFault),
            Put::Took(n) => at += n,
        }
    }
    Ok(())
}
