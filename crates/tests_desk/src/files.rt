// Files: that calls with ample memory succeed, at which calls they fail, and that real ones stop at their cap.
use mig_base::{Bytes, Seq, Word};
use mig_io::{CleanFiles, FetchFault, Files, MemFiles, RealFiles, Stopped, read_within};
use std::alloc::{AllocError, Global};
use std::io::Read;
use std::test::*;
use std::{fs, io, process};

fn word(alloc: Global, text: &str) -> Result<Word, AllocError> {
    Seq::from_slice(alloc, text.as_bytes())
}

/// Whether an answer is told so: `long`, `failed`, or the bytes behind a colon.
fn is_told(answer: &Result<Bytes, FetchFault>, want: &str) -> bool {
    match answer {
        Ok(bytes) => match want.strip_prefix(':') {
            Some(text) => bytes.as_slice() == text.as_bytes(),
            None => false,
        },
        Err(FetchFault::Long) => want == "long",
        Err(FetchFault::Failed) => want == "failed",
        Err(FetchFault::Memory) => false,
    }
}

/// Whether a call for a name is answered so.
fn fetches<F: Files>(
    alloc: Global,
    files: &mut F,
    name: &str,
    cap: u64,
    want: &str,
) -> Result<bool, AllocError> {
    let name = word(alloc, name)?;
    let answer = files.fetch(alloc, &name, cap);
    Ok(is_told(&answer, want))
}

/// Files that fail at the listed calls and hold these texts under these names, one put after the other.
fn holding(alloc: Global, fails: &[u64], texts: &[(&str, &str)]) -> Result<MemFiles, AllocError> {
    let mut files = MemFiles::new(alloc, Seq::from_slice(alloc, fails)?);
    for (name, text) in texts {
        files.hold(word(alloc, *name)?, word(alloc, *text)?)?;
    }
    Ok(files)
}

/// Names, caps, and the answer of files that hold `new` and a line feed under `job` and nothing under `ans`.
const FETCHED: [(&str, u64, &str); 5] = [
    ("job", 4, ":new\n"),
    ("job", 90, ":new\n"),
    ("ans", 0, ":"),
    ("job", 3, "long"),
    ("jo", 90, "failed"),
];

#[test]
fn files_in_memory_hand_out_what_they_hold(rt: HostRuntime) -> Result<(), Fail> {
    let texts = [("job", "old"), ("ans", ""), ("job", "new\n")];
    let mut files = holding(rt.alloc(), &[], &texts)?;
    for (name, cap, want) in FETCHED {
        let right = fetches(rt.alloc(), &mut files, name, cap, want)?;
        assert!(rt; right, "{name} up to {cap}");
    }
    Ok(())
}

/// The first of calls 1 to 4 that is not answered as it should be where the listed one fails; 0 where there is none.
fn first_wrong(alloc: Global, listed: u64) -> Result<u64, AllocError> {
    let mut files = holding(alloc, &[listed, 9], &[("job", "text")])?;
    for call in 1u64..5 {
        let want = if call == listed { "failed" } else { ":text" };
        if !fetches(alloc, &mut files, "job", 90, want)? {
            return Ok(call);
        }
    }
    Ok(0)
}

#[test]
fn files_in_memory_fail_at_the_listed_calls(rt: HostRuntime) -> Result<(), Fail> {
    for listed in 1u64..5 {
        let wrong = first_wrong(rt.alloc(), listed)?;
        assert!(rt; wrong == 0, "call {wrong} of files that fail at {listed}");
    }
    Ok(())
}

/// Whether clean files hold nothing, and then the text that they are given.
fn are_clean(alloc: Global) -> Result<bool, AllocError> {
    let mut files = CleanFiles::new(alloc);
    let empty = fetches(alloc, &mut files, "job", 0, ":")?;
    files.hold(word(alloc, "job")?, word(alloc, "text")?)?;
    let whole = fetches(alloc, &mut files, "job", 4, ":text")?;
    let long = fetches(alloc, &mut files, "job", 3, "long")?;
    Ok(empty && whole && long)
}

#[test]
fn clean_files_are_empty_until_they_hold(rt: HostRuntime) -> Result<(), Fail> {
    assert!(rt; are_clean(rt.alloc())?);
    Ok(())
}

/// A reader that gives two bytes at a time, and fails instead of its last.
#[derive(Drop)]
struct Breaking {
    left: u8,
}

impl Read for Breaking {
    fn read(&mut self, buf: &mut [u8]) -> io::Result<usize> {
        if self.left == 1 {
            return Err(io::Error::from(io::ErrorKind::BrokenPipe));
        }
        self.left = self.left.saturating_sub(1);
        Ok(if self.left == 0 { 0 } else { buf.len().min(2) })
    }
}

#[test]
fn a_read_that_breaks_is_no_short_file(rt: HostRuntime) -> Result<(), Fail> {
    let fault = read_within(rt.alloc(), &mut Breaking { left: 4 }, 90).err();
    assert!(rt; fault == Some(Stopped::Failed));
    let bytes = [7u8; 5000];
    let whole = read_within(rt.alloc(), &mut bytes.as_slice(), 5000).ok();
    assert!(rt; whole.is_some_and(|read| read.as_slice() == bytes.as_slice()));
    Ok(())
}

/// Whether the answer is 5,000 bytes of 7.
fn is_sevens(answer: Result<Bytes, FetchFault>) -> bool {
    answer.is_ok_and(|read| read.as_slice() == [7u8; 5000].as_slice())
}

#[test]
fn real_files_stop_past_the_cap(rt: HostRuntime) -> Result<(), Fail> {
    let path = format!(in rt.alloc(); "/tmp/mig_io_{}", process::id(rt.process()))?;
    fs::write(&rt, path.as_str(), [7u8; 5000].as_slice())?;
    let name = word(rt.alloc(), path.as_str())?;
    let mut files = RealFiles::new(&rt);
    assert!(rt; is_sevens(files.fetch(rt.alloc(), &name, 5000)));
    assert!(rt; is_told(&files.fetch(rt.alloc(), &name, 4999), "long"));
    fs::remove_file(&rt, path.as_str())?;
    assert!(rt; is_told(&files.fetch(rt.alloc(), &name, 5000), "failed"));
    Ok(())
}

#[test]
fn names_that_are_not_utf8_are_no_files(rt: HostRuntime) -> Result<(), Fail> {
    let name = Seq::from_slice(rt.alloc(), &[255u8])?;
    let mut files = RealFiles::new(&rt);
    assert!(rt; is_told(&files.fetch(rt.alloc(), &name, 9), "failed"));
    Ok(())
}
