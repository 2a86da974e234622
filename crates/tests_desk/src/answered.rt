// Jobs that are answered: the printed bytes, whatever the layout.
use crate::calling::{called_on, migrated, text_of};
use mig_base::{Bytes, Seq};
use std::alloc::{AllocError, Global};
use std::test::Fail;

/// The job that is answered.
const JOB: &str = "OLD|NEW|PROGRAM|HINTS";

/// What may stand for a line feed.
const BREAKS: [&[u8]; 5] = [b"\n", b"\r\n", b" ", b"\t#\r}{\xff\"\x00\n", b"##\n\n \r"];

/// The job with each line feed written as these bytes.
fn with_breaks(alloc: Global, line_break: &[u8]) -> Result<Bytes, AllocError> {
    let mut text = Seq::new(alloc);
    for b in text_of(alloc, JOB)?.as_slice() {
        if *b == b'\n' {
            text.extend_from_slice(line_break)?;
        } else {
            text.push(*b)?;
        }
    }
    Ok(text)
}

fn is_answered_with(alloc: Global, line_break: &[u8]) -> Result<bool, AllocError> {
    let text = with_breaks(alloc, line_break)?;
    Ok(migrated(alloc, text)?.is_answer())
}

#[test]
fn every_layout_gives_the_same_answer(rt: HostRuntime) -> Result<(), Fail> {
    for line_break in BREAKS {
        let right = is_answered_with(rt.alloc(), line_break)?;
        assert!(rt; right, "breaks {line_break:?}");
    }
    Ok(())
}

#[test]
fn a_job_without_functions_has_an_empty_answer(rt: HostRuntime) -> Result<(), Fail> {
    let text = text_of(rt.alloc(), "OLD|NEW|program\n|HINTS")?;
    let ended = migrated(rt.alloc(), text)?;
    let want = b"answer 1\nprogram\ninvariants\ncertificate\nend\n";
    assert!(rt; ended.is(0, want, "found: 0 entries\n"));
    Ok(())
}

/// How the fronts of the job end that are jobs: behind `program`, a function, `hints` or a hint.
const ENDS: [&[u8]; 4] = [b"program", b"\n}", b"hints", b" 100;"];

/// Whether a front of the job is a job, with or without a line feed behind it.
fn is_job(front: &[u8]) -> bool {
    let line = match front {
        [line @ .., b'\n'] => line,
        _ => front,
    };
    ENDS.iter().any(|end| line.ends_with(end))
}

/// Whether a front of the job is answered, or refused at its end where it is no job.
fn is_front(alloc: Global, front: &[u8]) -> Result<bool, AllocError> {
    let ended = migrated(alloc, Seq::from_slice(alloc, front)?)?;
    let status = if is_job(front) { 0 } else { 2 };
    Ok(ended.status == status && ended.out.taken().is_empty() == (status == 2))
}

#[test]
fn a_front_of_a_job_is_answered_where_it_is_a_job(rt: HostRuntime) -> Result<(), Fail> {
    let text = text_of(rt.alloc(), JOB)?;
    let text = text.as_slice();
    for n in 0..text.len() {
        let right = is_front(rt.alloc(), &text[..n])?;
        assert!(rt; right, "the first {n} bytes");
    }
    Ok(())
}

/// Words that ask for the same migration.
const OPTIONS: [&str; 3] = [
    "|migrate|job|--budget|1",
    "|migrate|--tests|0|job|--maps|1",
    "|migrate|--maps|256|--tests|1000000|--budget|10000|job",
];

fn is_answered_to(alloc: Global, line: &str) -> Result<bool, AllocError> {
    let text = text_of(alloc, JOB)?;
    Ok(called_on(alloc, line, text)?.is_answer())
}

#[test]
fn options_do_not_change_the_answer(rt: HostRuntime) -> Result<(), Fail> {
    for line in OPTIONS {
        let right = is_answered_to(rt.alloc(), line)?;
        assert!(rt; right, "{line}");
    }
    Ok(())
}

/// The job, with a comment up to this length behind it.
fn padded(alloc: Global, length: usize) -> Result<Bytes, AllocError> {
    let mut text = text_of(alloc, "OLD|NEW|PROGRAM|HINTS|#")?;
    for _ in text.len()..length {
        text.push(b'x')?;
    }
    Ok(text)
}

#[test]
fn a_job_of_262144_bytes_is_taken_and_no_longer_one(rt: HostRuntime) -> Result<(), Fail> {
    let ended = migrated(rt.alloc(), padded(rt.alloc(), 262_144)?)?;
    assert!(rt; ended.is_answer());
    let ended = migrated(rt.alloc(), padded(rt.alloc(), 262_145)?)?;
    assert!(rt; ended.is(10, &[], "job: longer than 262144 bytes\n"));
    Ok(())
}
