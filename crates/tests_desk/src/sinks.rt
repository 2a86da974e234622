// Sinks that take little, or fail in mid-stream.
use crate::calling::{ANSWER, Ended, ample, called, text_of};
use mig_base::Seq;
use mig_io::MemSink;
use std::alloc::{AllocError, Global};
use std::test::Fail;

/// The migration of a job into these sinks.
fn migrated_into(alloc: Global, out: MemSink, err: MemSink) -> Result<Ended, AllocError> {
    let text = text_of(alloc, "OLD|NEW|PROGRAM|HINTS")?;
    called(alloc, "|migrate|job", text, out, err)
}

/// The migration into a sink of so much room that takes pieces of this size, at least a byte.
fn into_room(alloc: Global, room: u64, piece: u64) -> Result<Ended, AllocError> {
    if piece == 0 {
        return Err(AllocError);
    }
    let out = MemSink::new(alloc, room, piece, Seq::new(alloc))?;
    let err = ample(alloc)?;
    migrated_into(alloc, out, err)
}

/// The migration into a sink that takes 64 bytes at a time and fails at its put of this number.
fn into_faults(alloc: Global, listed: u64) -> Result<Ended, AllocError> {
    let out = MemSink::new(alloc, 4096, 64, Seq::from_slice(alloc, &[listed])?)?;
    let err = ample(alloc)?;
    migrated_into(alloc, out, err)
}

#[test]
fn a_sink_that_fails_has_what_it_took_before(rt: HostRuntime) -> Result<(), Fail> {
    for n in 1u64..7 {
        let ended = into_faults(rt.alloc(), n)?;
        let taken = ANSWER.len().min(64 * (n as usize - 1));
        assert!(rt; ended.is(7, &ANSWER[..taken], ""), "put {n}");
    }
    Ok(())
}

#[test]
fn a_sink_takes_all_or_fails_in_mid_stream(rt: HostRuntime) -> Result<(), Fail> {
    assert!(rt; into_room(rt.alloc(), 4096, 1)?.is_answer());
    assert!(rt; into_room(rt.alloc(), 10, 4096)?.is(7, b"answer 1\np", ""));
    Ok(())
}

#[test]
fn a_report_that_fails_leaves_the_whole_answer(rt: HostRuntime) -> Result<(), Fail> {
    let out = ample(rt.alloc())?;
    let small = MemSink::new(rt.alloc(), 5, 4096, Seq::new(rt.alloc()))?;
    let ended = migrated_into(rt.alloc(), out, small)?;
    assert!(rt; ended.is(7, ANSWER, "found"));
    Ok(())
}
