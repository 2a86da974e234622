// Sinks: that every size of piece gives the same bytes, and what becomes of a stream that fails.
use mig_base::Seq;
use mig_io::{CleanSink, MemSink, RealSink, Sink, SinkFault, emit};
use std::alloc::{AllocError, Global};
use std::io::{self, Write};
use std::test::Fail;

const TEXT: &[u8] = b"found: 0 entries\n";

/// Whether a sink with just room for the text takes it in pieces of this size, and no more.
fn takes_all(alloc: Global, piece: u64) -> Result<bool, AllocError> {
    if piece == 0 {
        return Ok(false);
    }
    let mut sink = MemSink::new(alloc, 17, piece, Seq::new(alloc))?;
    let whole = emit(&mut sink, TEXT).is_ok() && sink.taken() == TEXT;
    let none = sink.put(b"") == Ok(0);
    Ok(whole && none && sink.put(b"more").is_err())
}

#[test]
fn every_size_of_piece_gives_the_same_bytes(rt: HostRuntime) -> Result<(), Fail> {
    for piece in [1u64, 2, 7, 17, 90] {
        let right = takes_all(rt.alloc(), piece)?;
        assert!(rt; right, "in pieces of {piece}");
    }
    let mut clean = CleanSink::new();
    assert!(rt; emit(&mut clean, TEXT).is_ok() && clean.put(TEXT) == Ok(17));
    Ok(())
}

/// Whether a sink that takes a byte at a time and fails at the listed put has this of `abcd` then.
fn is_cut(alloc: Global, listed: u64, want: &str) -> Result<bool, AllocError> {
    let fails = Seq::from_slice(alloc, &[listed])?;
    let mut sink = MemSink::new(alloc, 90, 1, fails)?;
    let done = emit(&mut sink, b"abcd").is_ok();
    Ok(done == (listed == 5) && sink.taken() == want.as_bytes())
}

#[test]
fn a_failed_put_leaves_a_prefix(rt: HostRuntime) -> Result<(), Fail> {
    for (listed, want) in [(1u64, ""), (2, "a"), (3, "ab"), (4, "abc"), (5, "abcd")] {
        let right = is_cut(rt.alloc(), listed, want)?;
        assert!(rt; right, "put {listed} fails");
    }
    Ok(())
}

/// A stream that takes at most three bytes at a time, and fails once it has ten.
#[derive(Drop)]
struct Choppy<'a> {
    got: &'a mut Vec<u8>,
}

impl<'a> Write for Choppy<'a> {
    fn write(&mut self, buf: &[u8]) -> io::Result<usize> {
        if self.got.len() >= 10 {
            return Err(io::Error::from(io::ErrorKind::BrokenPipe));
        }
        let front = &buf[..buf.len().min(3)];
        self.got.extend_from_slice(front)?;
        Ok(front.len())
    }

    fn flush(&mut self) -> io::Result<()> {
        Ok(())
    }
}

#[test]
fn a_stream_that_breaks_has_a_prefix(rt: HostRuntime) -> Result<(), Fail> {
    let mut got = Vec::new(rt.alloc());
    let mut sink = RealSink::new(Choppy { got: &mut got });
    assert!(rt; emit(&mut sink, b"abcdefgh").is_ok());
    assert!(rt; emit(&mut sink, b"ijklmnop") == Err(SinkFault::Failed));
    drop(sink);
    assert!(rt; got.as_slice() == b"abcdefghijk".as_slice());
    Ok(())
}
