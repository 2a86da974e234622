// A stream of the system.
ghost use Rattle.std.specs.Prelude.{◌≡◌, ℕ, ◌+◌, ◌^◌, ◌<◌, ◌≤◌, List, take, length, None, IfOk, IfSome, IfNone, OnErr};
ghost use Rattle.std.specs.Io.KnownBytes.{Appends, Keeps};

use crate::count::Count;
use crate::sinks::{Sink, SinkFault};
use std::io::Write;

/// Writes bytes from the front of the piece, and answers how many; `None` where it wrote nothing of a piece that isn't empty.
fn write_front<W: Write>(out: &mut W, piece: &[u8]) -> Option<usize>
    ensures wrote { IfSome result (λ n. Appends (W.contents out.old) (W.contents out.new) (take n piece.now)) }
    ensures within { IfSome result (λ n. n ≤ length piece.now) }
    ensures some { IfSome result (λ n. 0 < length piece.now → 0 < n) }
    ensures nothing { IfNone result (Keeps (W.contents out.old) (W.contents out.new)) }
{
    if piece.is_empty() {
        return Some(0);
    }
    match out.write(piece) {
        Ok(n) if n > 0 => Some(n),
        _ => None,
    }
}

/// A stream of the system, which tells nothing. A write that fails or takes no byte is a fault.
#[derive(Drop)]
pub struct RealSink<W: Write + Drop> {
    out: W,
    count: Count,
}

impl<W: Write + Drop> RealSink<W> {
    ghost use Rattle.mig_io.specs.RealSink.{stream_of};

    /// A sink that writes to the stream.
    pub fn new(out: W) -> RealSink<W>
        ensures stream { stream_of result ≡ out }
        ensures faults { ⟦<RealSink<W> as Sink>⟧.faults result ≡ 0 }
    {
        RealSink {
            out,
            count: Count::new(),
        }
    }
}

impl<W: Write + Drop> Sink for RealSink<W> {
    ghost use Rattle.mig_io.specs.Counts.{Rose};
    ghost use Rattle.mig_io.specs.RealSink.{fault_count, stream_of};

    ghost took = { λ _. None };

    ghost faults = { fault_count };

    fn put(&mut self, piece: &[u8]) -> Result<usize, SinkFault>
        ensures within { IfOk result (λ n. n ≤ length piece.now) }
        ensures some { IfOk result (λ n. 0 < length piece.now → 0 < n) }
        ensures failed { OnErr result (Rose (fault_count self.old) (fault_count self.new)) }
        ensures later { fault_count self.old ≤ fault_count self.new }
        ensures bounded { fault_count self.new < 2 ^ 64 }

        // Beyond the trait's clauses: where it is known what the stream holds, the bytes taken are appended to it.
        ensures wrote { IfOk result (λ n. Appends (W.contents (stream_of self.old)) (W.contents (stream_of self.new)) (take n piece.now)) }
        ensures kept { OnErr result (Keeps (W.contents (stream_of self.old)) (W.contents (stream_of self.new))) }
    {
        let Some(n) = write_front(&mut self.out, piece) else {
            self.count.rise();
            return Err(SinkFault::Failed);
        };
        Ok(n)
    }
}
