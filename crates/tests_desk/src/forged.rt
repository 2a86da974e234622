// Answers that are cut, changed by a byte, or too long.
use crate::checked::{ANSWER, JOB, both, checked, ends};
use mig_base::{Bytes, Seq};
use std::alloc::{AllocError, Global};
use std::test::Fail;

/// The status of the check of these bytes; one that accepts them counts as 0 whatever it put, and any other puts nothing.
fn status_of(alloc: Global, answer: Bytes) -> Result<u8, AllocError> {
    let ended = checked(alloc, both(alloc, &[], JOB, answer)?)?;
    Ok(if ended.out.taken().is_empty() {
        ended.status
    } else {
        0
    })
}

#[test]
fn each_front_of_an_answer_is_refused(rt: HostRuntime) -> Result<(), Fail> {
    let text = ANSWER.as_bytes();
    for n in 0..text.len() {
        let front = Seq::from_slice(rt.alloc(), &text[..n])?;
        let status = status_of(rt.alloc(), front)?;
        assert!(rt; status == 2, "the first {n} bytes: {status}");
    }
    Ok(())
}

/// The answer with byte n changed in its last bit.
fn turned(alloc: Global, n: usize) -> Result<Bytes, AllocError> {
    let mut text = Seq::new(alloc);
    for (i, b) in ANSWER.as_bytes().iter().enumerate() {
        text.push(if i == n { *b ^ 1 } else { *b })?;
    }
    Ok(text)
}

#[test]
fn no_answer_with_a_changed_byte_is_accepted(rt: HostRuntime) -> Result<(), Fail> {
    for n in 0..ANSWER.len() {
        let answer = turned(rt.alloc(), n)?;
        let status = status_of(rt.alloc(), answer)?;
        let right = status == 2 || status == 5 || status == 10;
        assert!(rt; right, "byte {n}: {status}");
    }
    Ok(())
}

/// The answer with its first step so many times.
fn repeated(alloc: Global, count: u32) -> Result<Bytes, AllocError> {
    let step = "stage 0 - 0\n";
    let mut text = Seq::new(alloc);
    if let Some((front, rest)) = ANSWER.split_once(step) {
        text.extend_from_slice(front.as_bytes())?;
        for _ in 0..count {
            text.extend_from_slice(step.as_bytes())?;
        }
        text.extend_from_slice(rest.as_bytes())?;
    }
    Ok(text)
}

/// How many times the first step stands there, the status, and the line on `err`. The step behind it is one more.
const STEPS: [(u32, u8, &str); 3] = [
    (1, 0, ""),
    (3999, 5, "rejected: pair 0 obligation 0 step 1: no follow\n"),
    (4001, 10, "ans:4015: limit steps\n"),
];

#[test]
fn an_answer_has_4000_steps_at_most(rt: HostRuntime) -> Result<(), Fail> {
    for (count, status, err) in STEPS {
        let answer = repeated(rt.alloc(), count)?;
        assert!(rt; ends(rt.alloc(), JOB, answer, status, err)?, "{count}");
    }
    Ok(())
}

/// An answer of 67,108,865 bytes: one byte twice as often, 26 times, and one more.
fn long_answer(alloc: Global) -> Result<Bytes, AllocError> {
    let mut text = Seq::from_slice(alloc, b"x")?;
    for _ in 0..26 {
        let half = Seq::from_slice(alloc, text.as_slice())?;
        text.extend_from_slice(half.as_slice())?;
    }
    text.push(b'x')?;
    Ok(text)
}

#[test]
fn a_long_answer_is_refused_unread(rt: HostRuntime) -> Result<(), Fail> {
    let answer = long_answer(rt.alloc())?;
    let line = "ans: longer than 67108864 bytes\n";
    assert!(rt; ends(rt.alloc(), JOB, answer, 10, line)?);
    Ok(())
}
